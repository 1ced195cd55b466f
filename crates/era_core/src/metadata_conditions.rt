//! Whether an event of the metadata may be drawn next.

ghost use Rattle.std.specs.Prelude.{◌≡◌, ◌↔◌, ◌≤◌, IfSome, IsTrue, length, option_copied, reverse};
ghost use Rattle.era_base.specs.declared.limits.TheConstants.{MOST_SETS};
ghost use Rattle.era_core.specs.Present.{HaveStripes};
ghost use Rattle.era_model.specs.Conditions.{MayDigest, MayDrop, MaySnap, MayTell};
ghost use Rattle.era_model.specs.Legal.{MayFailAtMetadata, MayRefuse, MayRefuseHeld, NeedsVolatileEra};
ghost use Rattle.era_model.specs.Marking.{era_is_volatile, held_of, marks_of};
ghost use Rattle.era_model.specs.Usage.{IsUsage, held_block};

use crate::block_table::BlockTable;
use crate::counts::count_ascends;
use crate::disk::FailedDisk;
use crate::lookups::{has_trace, last_switch, present_era};
use crate::present::total_blocks;
use crate::trace::Trace;
use era_base::CmdId;
use era_model::{Happening, Kind, Why};

/// Whether a snapshot may be taken at this metadata block.
pub fn may_snap(h: &[Happening], held: Option<&BlockTable>, block: u32) -> bool
    requires { option_copied held ≡ held_of (reverse h.now) }
    ensures { IsTrue result ↔ MaySnap (reverse h.now) block }
{
    block == 2 && held.is_none()
}

/// Whether the snapshot may be dropped.
pub fn may_drop(h: &[Happening], held: Option<&BlockTable>) -> bool
    requires { option_copied held ≡ held_of (reverse h.now) }
    ensures { IsTrue result ↔ MayDrop (reverse h.now) }
{
    held.is_some()
}

/// Whether two pages are the same one, or both none.
fn same_page(found: Option<usize>, page: Option<u32>) -> bool
    ensures { IsTrue result ↔ (found ≡ page) }
{
    match found {
        Some(found) => match page {
            Some(page) => found == page as usize,
            None => false,
        },
        None => page.is_none(),
    }
}

/// Whether a digest may do this.
pub fn may_digest(h: &[Happening], marks: &BlockTable, era: u32, page: Option<u32>) -> bool
    requires { marks.now ≡ marks_of (reverse h.now) }
    ensures { IsTrue result ↔ MayDigest (reverse h.now) era page }
{
    match marks.next_digest() {
        Some((oldest, next)) => oldest == u64::from(era) && same_page(next, page),
        None => false,
    }
}

/// Whether so many metadata blocks may be used.
fn is_usage(marks: &BlockTable, held: Option<&BlockTable>, used: u32) -> bool
    requires marks { length marks.now.archive ≤ MOST_SETS }
    requires held { IfSome (option_copied held) (λ m. length m.archive ≤ MOST_SETS) }
    ensures { IsTrue result ↔ IsUsage marks.now (option_copied held.entry) used }
{
    let base = 2 + marks.pages();
    let used = u64::from(used);
    match held {
        Some(held) => base + 1 <= used && used <= base + 1 + held.pages(),
        None => used == base,
    }
}

/// Whether the block is that of the snapshot, or none is held and none is told.
fn is_held_block(held: Option<&BlockTable>, block: Option<u32>) -> bool
    ensures { IsTrue result ↔ (block ≡ held_block (option_copied held.entry)) }
{
    match held {
        Some(_) => block == Some(2),
        None => block.is_none(),
    }
}

/// Whether a status may tell this.
pub fn may_tell(h: &[Happening], marks: &BlockTable, held: Option<&BlockTable>, told: Told) -> bool
    requires marks { marks.now ≡ marks_of (reverse h.now) }
    requires few { length marks.now.archive ≤ MOST_SETS }
    requires held { option_copied held ≡ held_of (reverse h.now) }
    requires held_few { IfSome (option_copied held) (λ m. length m.archive ≤ MOST_SETS) }
    ensures { IsTrue result ↔ MayTell (reverse h.now) told.used told.total told.era told.held }
{
    is_usage(marks, held, told.used)
        && told.total == total_blocks(h)
        && told.era == present_era(h)
        && is_held_block(held, told.held)
}

/// What a status tells.
#[derive(Clone, Copy, Debug)]
pub struct Told {
    pub used: u32,
    pub total: u64,
    pub era: u32,
    pub held: Option<u32>,
}

/// Whether the present era stands in memory alone.
fn is_era_volatile(h: &[Happening]) -> bool
    ensures { result ≡ era_is_volatile (reverse h.now) }
{
    match last_switch(h) {
        Some(id) => has_trace(h, Trace::MetadataFault, id),
        None => false,
    }
}

/// Whether the present era is one in which the command may be told that the metadata disk failed.
fn may_need_volatile_era(h: &[Happening], id: CmdId, kind: Kind) -> bool
    ensures { IsTrue result ↔ NeedsVolatileEra (reverse h.now) id kind }
{
    match kind {
        Kind::Write => has_trace(h, Trace::Request, id) || is_era_volatile(h),
        Kind::Checkpoint => has_trace(h, Trace::Switch, id) || is_era_volatile(h),
        Kind::Status => is_era_volatile(h),
        Kind::List => is_era_volatile(h),
        Kind::Read => true,
        Kind::TakeSnap => true,
        Kind::DropSnap => true,
        Kind::Digest => true,
    }
}

/// Whether the command may be told that the metadata disk failed.
fn may_fail_at_metadata(h: &[Happening], id: CmdId, kind: Kind, count: u64) -> bool
    requires { HaveStripes (reverse h.now) }
    ensures { IsTrue result ↔ MayFailAtMetadata (reverse h.now) id kind count }
{
    count_ascends(h, FailedDisk::Metadata, count) && may_need_volatile_era(h, id, kind)
}

/// Whether a taking may be refused since a snapshot is held at this block.
fn may_refuse_held(h: &[Happening], held: Option<&BlockTable>, block: u32) -> bool
    requires { option_copied held ≡ held_of (reverse h.now) }
    ensures { IsTrue result ↔ MayRefuseHeld (reverse h.now) block }
{
    block == 2 && held.is_some()
}

/// Whether the command may be refused for the reason.
pub fn may_refuse(
    h: &[Happening],
    marks: &BlockTable,
    held: Option<&BlockTable>,
    id: CmdId,
    kind: Kind,
    why: Why,
) -> bool
    requires stripes { HaveStripes (reverse h.now) }
    requires marks { marks.now ≡ marks_of (reverse h.now) }
    requires held { option_copied held ≡ held_of (reverse h.now) }
    ensures { IsTrue result ↔ MayRefuse (reverse h.now) id kind why }
{
    match why {
        Why::DataFault { stripe, count } => count_ascends(h, FailedDisk::Part(stripe), count),
        Why::MetaFault(count) => may_fail_at_metadata(h, id, kind, count),
        Why::End => present_era(h) == u32::MAX,
        Why::Held(block) => may_refuse_held(h, held, block),
        Why::NoSnap => held.is_none(),
        Why::Idle => marks.set_count() == 0,
        Why::Memory => kind == Kind::List,
    }
}
