//! Whether marks are valid.

ghost use Rattle.std.specs.Prelude.{◌≡◌, ◌↔◌, ◌≤◌, ◌<◌, IsTrue, ℕ, option_copied};
ghost use Rattle.era_model.specs.MarkRuns.{eras_of_runs, sets_of_runs};
ghost use Rattle.era_model.specs.Marks.{entry_of};
ghost use Rattle.era_model.specs.Validity.{AreArchivedBetween, AreValidMarks, IsValidSnapshot, entry_limit};

use era_base::MOST_SETS;
use era_model::{MarkedSet, Marks, run_era};

/// Whether the sets' eras ascend below one.
fn do_ascend(sets: &[MarkedSet], below: u32) -> bool
    ensures { (blocks : ℕ)
        → (IsTrue result ↔ AreArchivedBetween blocks 0 below (sets_of_runs blocks sets.now)) }
{
    let mut above = 0;
    for set in sets {
        if set.era <= above {
            return false;
        }
        if below <= set.era {
            return false;
        }
        above = set.era;
    }
    true
}

/// The greatest era that an entry may have.
fn limit_of(sets: &[MarkedSet], era: u32) -> u32
    ensures { (blocks : ℕ) → result ≡ entry_limit (sets_of_runs blocks sets.now) era }
{
    match sets.first() {
        Some(oldest) => oldest.era,
        None => era.saturating_sub(1),
    }
}

/// Whether no entry of so many blocks is above the limit.
fn are_within(runs: &[(u32, u32, u32)], blocks: u32, limit: u32) -> bool
    ensures { IsTrue result
        ↔ ((block : ℕ) → entry_of (eras_of_runs 0 blocks runs.now) block ≤ limit) }
{
    for block in 0..blocks {
        if limit < run_era(runs, block) {
            return false;
        }
    }
    true
}

/// Whether the marks are valid.
pub fn is_valid(m: &Marks) -> bool
    ensures { IsTrue result ↔ AreValidMarks m.now }
{
    let sets = m.archive.as_slice();
    if m.era < 1 {
        return false;
    }
    if !do_ascend(sets, m.era) {
        return false;
    }
    if sets.len() > MOST_SETS as usize {
        return false;
    }
    are_within(
        m.array.as_slice(),
        m.geometry.blocks(),
        limit_of(sets, m.era),
    )
}

/// Whether the snapshot, if there is one, is valid marks.
pub fn is_valid_snapshot(found: Option<&Marks>) -> bool
    ensures { IsTrue result ↔ IsValidSnapshot (option_copied found.entry) }
{
    match found {
        Some(m) => is_valid(m),
        None => true,
    }
}
