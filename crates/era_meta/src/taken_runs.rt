//! Marks in memory from runs of blocks.

ghost use Rattle.std.specs.Prelude.{◌≡◌, ◌<◌, ◌≤◌, ℕ, [], length, drop, slice_index, true, IfOk};
ghost use Rattle.std.specs.List.{AllByRecursion};
ghost use Rattle.era_base.specs.Flags.{has};
ghost use Rattle.era_base.specs.Runs.{ListExactly};
ghost use Rattle.era_base.specs.declared.limits.TheConstants.{MOST_BLOCKS, MOST_SETS};
ghost use Rattle.era_model.specs.EraRuns.{EndWithin};
ghost use Rattle.era_model.specs.MarkRuns.{SetEndsWithin, SetsEndWithin};
ghost use Rattle.era_model.specs.Validity.{AreValidMarks};
ghost use Rattle.era_meta.specs.AsRuns.{TellEntries, TellSets};

use crate::live_marks::LiveMarks;
use crate::live_set::LiveSet;
use crate::merging::ROOM;
use era_array::EraArray;
use era_base::{Memory, ReservedList};
use era_model::{MarkedSet, Marks};
use era_sets::BitSet;
use std::alloc::Global;

/// Puts the blocks from one up to another, both included, into a set.
fn mark_run(set: &mut BitSet, first: u32, last: u32)
    requires { (last < length set.old) × (length set.old ≤ MOST_BLOCKS) }
    ensures size { length set.new ≡ length set.old }
    ensures within { (block : ℕ) → first ≤ block → block ≤ last → has set.new block ≡ true }
    ensures others { (block : ℕ) → (first ≤ block → last < block)
        → has set.new block ≡ has set.old block }
{
    for block in first..last + 1 {
        set.mark(block);
    }
}

/// Makes a set that of the blocks of runs. It takes no memory.
fn take_set_runs(set: &mut BitSet, runs: &[(u32, u32)])
    requires { SetEndsWithin (length set.old) runs.now × (length set.old ≤ MOST_BLOCKS) }
    ensures size { length set.new ≡ length set.old }
    ensures told { ListExactly runs.now (has set.new) }
{
    set.clear();
    for back in 0..runs.len() {
        let run = runs[runs.len() - 1 - back];
        mark_run(set, run.0, run.1);
    }
}

/// Gives the blocks from one up to another, both included, an era.
fn fill_run(array: &mut EraArray, first: u32, last: u32, era: u32)
    requires { (last < length array.old) × (length array.old ≤ MOST_BLOCKS) }
    ensures size { length array.new ≡ length array.old }
    ensures within { (block : ℕ) → first ≤ block → block ≤ last
        → slice_index array.new block ≡ era }
    ensures others { (block : ℕ) → (first ≤ block → last < block)
        → slice_index array.new block ≡ slice_index array.old block }
{
    for block in first..last + 1 {
        array.put_entries(block, &[era]);
    }
}

/// Gives the blocks of runs their eras, where none has one. It takes no memory.
fn take_era_runs(array: &mut EraArray, runs: &[(u32, u32, u32)])
    requires none { (block : ℕ) → slice_index array.old block ≡ 0 }
    requires within { EndWithin (length array.old) runs.now × (length array.old ≤ MOST_BLOCKS) }
    ensures size { length array.new ≡ length array.old }
    ensures told { TellEntries runs.now (length array.old) array.new }
{
    for back in 0..runs.len() {
        let run = runs[runs.len() - 1 - back];
        fill_run(array, run.0, run.1, run.2);
    }
}

/// Archives sets of so many blocks from runs, where none is archived, each in the first spare one. It takes no memory.
fn take_sets(
    archive: &mut ReservedList<LiveSet, { ROOM }>,
    spare: &mut ReservedList<LiveSet, { ROOM }>,
    sets: &[MarkedSet],
    blocks: u32,
)
    requires none { archive.old ≡ [] }
    requires sizes { AllByRecursion (λ set. length set.blocks ≡ blocks) spare.old
        × (blocks ≤ MOST_BLOCKS) }
    requires within { SetsEndWithin blocks sets.now }
    requires enough { (length sets.now ≤ length spare.old) × (length sets.now ≤ MOST_SETS) }
    ensures sizes { AllByRecursion (λ set. length set.blocks ≡ blocks) archive.new }
    ensures told { TellSets sets.now blocks archive.new }
    ensures spare { spare.new ≡ drop (length sets.now) spare.old }
{
    for set in sets {
        let mut taken = spare.take_first().into_blocks();
        take_set_runs(&mut taken, set.blocks.as_slice());
        archive.push_reserved(LiveSet::new(set.era, taken));
    }
}

impl LiveMarks {
    /// The marks in memory of marks as runs. It takes the memory for all marks that follow.
    pub fn of_runs(alloc: Global, marks: &Marks) -> Result<LiveMarks, Memory>
        requires { AreValidMarks marks.now }
        ensures { IfOk result (λ live. live ≡ marks.now) }
    {
        let blocks = marks.geometry.blocks();
        let mut live = LiveMarks::new(alloc, &marks.geometry)?;
        take_era_runs(&mut live.array, marks.array.as_slice());
        take_set_runs(&mut live.current, marks.current.as_slice());
        take_sets(
            &mut live.archive,
            &mut live.spare,
            marks.archive.as_slice(),
            blocks,
        );
        live.era = marks.era;
        Ok(live)
    }
}
