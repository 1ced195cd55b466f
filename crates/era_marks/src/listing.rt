//! Lists blocks as runs.

ghost use Rattle.std.specs.Prelude.{◌≡◌, ◌≤◌, OnOk};
ghost use Rattle.era_base.specs.Runs.{EndsBefore};
ghost use Rattle.era_marks.specs.Room.{AddsRun};

use era_base::{Memory, Runs};

/// Adds the run of the blocks from `begin` up to `end`, which isn't among them. Where there are none it adds nothing.
pub fn add_run(runs: &mut Runs, begin: u32, end: u32) -> Result<(), Memory>
    requires order { begin ≤ end }
    requires behind { EndsBefore runs.old begin }
    ensures { OnOk result (AddsRun runs.old runs.new begin end) }
{
    if begin < end {
        runs.push(begin, end - 1)?;
    }
    Ok(())
}
