//! Whether a list of blocks may be given.

ghost use Rattle.std.specs.Prelude.{◌≡◌, ◌↔◌, ◌≤◌, IsTrue, ℕ, false, max, nat_le, option_copied, reverse};
ghost use Rattle.era_base.specs.Runs.{AreRuns, runs_cover};
ghost use Rattle.era_model.specs.Conditions.{ListsExactly, ListsSnapshot};
ghost use Rattle.era_model.specs.Marking.{journal_last_era};
ghost use Rattle.era_model.specs.History.{blocks_now};
ghost use Rattle.era_model.specs.Marks.{blocks_of_marks, written_since};

use crate::block_table::BlockTable;
use crate::lookups::last_era_of;
use crate::present::block_count;
use era_base::Runs;
use era_model::{Happening, is_covered};

/// Whether all runs end below so many blocks.
fn end_below(runs: &[(u32, u32)], blocks: u32) -> bool
    requires { AreRuns runs.now }
    ensures { IsTrue result ↔ ((block : ℕ) → blocks ≤ block → runs_cover runs.now block ≡ false) }
{
    for run in runs {
        if blocks <= run.1 {
            return false;
        }
    }
    true
}

/// Whether the block is listed exactly where its last marked era is at least the wanted one.
fn is_listed_right(h: &[Happening], runs: &[(u32, u32)], since: u32, block: u32) -> bool
    ensures { IsTrue result
        ↔ (runs_cover runs.now block
        ≡ nat_le (max since 1) (journal_last_era (reverse h.now) block)) }
{
    is_covered(runs, block) == (since.max(1) <= last_era_of(h, block))
}

/// Whether the runs are exactly the blocks whose last marked era is at least that era.
pub fn lists_journal(h: &[Happening], since: u32, runs: &Runs) -> bool
    ensures { IsTrue result ↔ ListsExactly (blocks_now (reverse h.now))
        (λ block. nat_le (max since 1) (journal_last_era (reverse h.now) block)) runs.now }
{
    let listed = runs.as_slice();
    for block in 0..block_count(h) {
        if !is_listed_right(h, listed, since, block) {
            return false;
        }
    }
    end_below(listed, block_count(h))
}

/// Whether the block is listed exactly where the snapshot has it since that era.
fn is_listed_by(held: &BlockTable, runs: &[(u32, u32)], since: u32, block: u32) -> bool
    ensures { IsTrue result ↔ (runs_cover runs.now block ≡ written_since held.now since block) }
{
    is_covered(runs, block) == (u64::from(since.max(1)) <= held.last_era(block))
}

/// Whether the runs are exactly the blocks that the marks have since that era.
fn lists_marks(held: &BlockTable, since: u32, runs: &Runs) -> bool
    ensures { IsTrue result
        ↔ ListsExactly (blocks_of_marks held.now) (written_since held.now since) runs.now }
{
    let listed = runs.as_slice();
    for block in 0..held.blocks() {
        if !is_listed_by(held, listed, since, block) {
            return false;
        }
    }
    end_below(listed, held.blocks())
}

/// Whether the runs are exactly the blocks that the snapshot has since that era.
pub fn lists_snapshot(held: Option<&BlockTable>, since: u32, runs: &Runs) -> bool
    ensures { IsTrue result ↔ ListsSnapshot (option_copied held.entry) since runs.now }
{
    match held {
        Some(held) => lists_marks(held, since, runs),
        None => false,
    }
}
