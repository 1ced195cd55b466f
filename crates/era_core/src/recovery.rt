//! Whether marks and a snapshot may be found after a crash.

ghost use Rattle.std.specs.Prelude.{◌≡◌, ◌↔◌, ◌<◌, IsTrue, MatchOption, Option, Some, ℕ, option_copied, reverse};
ghost use Rattle.era_core.specs.Present.{HavePast};
ghost use Rattle.era_model.specs.Marking.{held_of};
ghost use Rattle.era_model.specs.Recovered.{HasJournalLast, HaveJournalLasts, IsBeyond, IsRecoveredFrom, IsSnapshotTaken, MayHaveEra, MayHold, WereMarks};

use crate::block_table::BlockTable;
use crate::lookups::{is_tried, last_era_of, last_switch, present_era};
use crate::present::{block_count, block_size, sector_count};
use crate::validity::{is_valid, is_valid_snapshot};
use era_model::{Happening, Marks};

/// Whether the marks have the journal's last marked era for the block.
fn has_journal_last(h: &[Happening], m: &Marks, block: u32) -> bool
    ensures { IsTrue result ↔ HasJournalLast (reverse h.now) m.now block }
{
    m.last_era(block) == last_era_of(h, block)
}

/// Whether the marks have the block beyond the journal, as the session asked for.
fn is_beyond(h: &[Happening], m: &Marks, block: u32) -> bool
    ensures { IsTrue result ↔ IsBeyond (reverse h.now) m.now block }
{
    let found = m.last_era(block);
    last_era_of(h, block) < found && is_tried(h, block, found)
}

/// Whether the marks may have this era.
fn may_have_era(h: &[Happening], era: u32) -> bool
    ensures { IsTrue result ↔ MayHaveEra (reverse h.now) era }
{
    era == present_era(h)
        || u64::from(era) + 1 == u64::from(present_era(h)) && last_switch(h).is_some()
}

/// Whether the marks were those of the session at some moment.
fn were_marks(h: &[Happening], past: &[BlockTable], m: &Marks) -> bool
    requires { HavePast (reverse h.now) past.now }
    ensures { IsTrue result ↔ WereMarks (reverse h.now) m.now }
{
    for table in past {
        if table.is_of(m) {
            return true;
        }
    }
    false
}

/// Whether a snapshot may be found where none is held.
fn may_be_taken(h: &[Happening], past: &[BlockTable], found: Option<&Marks>) -> bool
    requires { HavePast (reverse h.now) past.now }
    ensures { IsTrue result ↔ IsSnapshotTaken (reverse h.now) (option_copied found.entry) }
{
    match found {
        Some(m) => were_marks(h, past, m),
        None => false,
    }
}

/// Whether the found snapshot is the one that is held.
fn is_held(held: &BlockTable, found: Option<&Marks>) -> bool
    ensures { IsTrue result ↔ (option_copied found.entry ≡ Some held.now) }
{
    match found {
        Some(m) => held.is_of(m),
        None => false,
    }
}

/// Whether the snapshot may be found.
fn may_hold(
    h: &[Happening],
    past: &[BlockTable],
    held: Option<&BlockTable>,
    found: Option<&Marks>,
) -> bool
    requires { HavePast (reverse h.now) past.now }
    ensures { IsTrue result
        ↔ MayHold (reverse h.now) (option_copied held.entry) (option_copied found.entry) }
{
    match held {
        Some(held) => found.is_none() || is_held(held, found),
        None => found.is_none() || may_be_taken(h, past, found),
    }
}

/// The first of so many blocks for which the marks haven't the journal's last marked era, or `None`.
fn first_exception(h: &[Happening], m: &Marks, blocks: u32) -> Option<u32>
    ensures { MatchOption result ((block : ℕ) → block < blocks
        → HasJournalLast (reverse h.now) m.now block)
        (λ exception. (exception < blocks) × (¬ HasJournalLast (reverse h.now) m.now exception)
        × ((block : ℕ) → block < exception → HasJournalLast (reverse h.now) m.now block)) }
{
    for block in 0..blocks {
        if !has_journal_last(h, m, block) {
            return Some(block);
        }
    }
    None
}

/// Whether the marks have the journal's last marked era for each block behind one.
fn others_agree(h: &[Happening], m: &Marks, exception: u32, blocks: u32) -> bool
    requires { exception < blocks }
    ensures { IsTrue result
        ↔ ((block : ℕ) → exception < block → block < blocks
        → HasJournalLast (reverse h.now) m.now block) }
{
    for block in exception + 1..blocks {
        if !has_journal_last(h, m, block) {
            return false;
        }
    }
    true
}

/// Whether the marks have the journal's last marked eras, but for one exceptional block at most.
pub fn may_have_lasts(h: &[Happening], m: &Marks) -> bool
    ensures { IsTrue result
        ↔ ((exception : Option ℕ) × HaveJournalLasts (reverse h.now) m.now exception) }
{
    let blocks = block_count(h);
    match first_exception(h, m, blocks) {
        Some(exception) => is_beyond(h, m, exception) && others_agree(h, m, exception, blocks),
        None => true,
    }
}

/// Whether the marks and the snapshot may be found after a crash.
pub fn may_recover(
    h: &[Happening],
    past: &[BlockTable],
    held: Option<&BlockTable>,
    m: &Marks,
    found: Option<&Marks>,
) -> bool
    requires past { HavePast (reverse h.now) past.now }
    requires held { option_copied held ≡ held_of (reverse h.now) }
    ensures { IsTrue result ↔ IsRecoveredFrom (reverse h.now) m.now (option_copied found.entry) }
{
    is_valid(m)
        && m.geometry.sectors() == sector_count(h)
        && m.geometry.block_sectors() == block_size(h)
        && may_have_lasts(h, m)
        && may_have_era(h, m.era)
        && is_valid_snapshot(found)
        && may_hold(h, past, held, found)
}
