//! The last marked era of one block, from the runs of marks.

ghost use Rattle.std.specs.Prelude.{◌≡◌, ◌<◌, ℕ, if◌then◌else◌};
ghost use Rattle.era_base.specs.Runs.{runs_cover};
ghost use Rattle.era_model.specs.MarkRuns.{era_in_runs, sets_of_runs};
ghost use Rattle.era_model.specs.Marks.{last_archived, marks_last_era};

use crate::marked_set::MarkedSet;
use crate::marks::Marks;

/// Whether the block lies in one of the runs.
pub fn is_covered(runs: &[(u32, u32)], block: u32) -> bool
    ensures { result ≡ runs_cover runs.now block }
{
    for run in runs {
        if run.0 <= block && block <= run.1 {
            return true;
        }
    }
    false
}

/// The era of the run in which the block lies, 0 where it lies in none.
pub fn run_era(runs: &[(u32, u32, u32)], block: u32) -> u32
    ensures { result ≡ era_in_runs runs.now block }
{
    for run in runs {
        if run.0 <= block && block <= run.1 {
            return run.2;
        }
    }
    0
}

/// The era where the block lies in one of the runs, else 0.
fn era_if_covered(runs: &[(u32, u32)], era: u32, block: u32) -> u32
    ensures { result ≡ (if runs_cover runs.now block then era else 0) }
{
    if is_covered(runs, block) { era } else { 0 }
}

/// The greatest era of the sets that have the block, 0 where none has it.
fn last_set_era(sets: &[MarkedSet], block: u32) -> u32
    ensures { (blocks : ℕ) → block < blocks → result
        ≡ last_archived (sets_of_runs blocks sets.now) block }
{
    let mut last = 0;
    for set in sets {
        last = last.max(era_if_covered(set.blocks.as_slice(), set.era, block));
    }
    last
}

impl Marks {
    /// The last marked era of the block, 0 for never and past the end.
    pub fn last_era(&self, block: u32) -> u32
        ensures { result ≡ marks_last_era self.now block }
    {
        if self.geometry.blocks() <= block {
            return 0;
        }
        let present = era_if_covered(self.current.as_slice(), self.era, block);
        let entry = run_era(self.array.as_slice(), block);
        entry.max(last_set_era(self.archive.as_slice(), block).max(present))
    }
}
