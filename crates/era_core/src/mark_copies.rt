//! Marks as runs: copies of them, and the marks after an era switch.

ghost use Rattle.std.specs.Prelude.{◌≡◌, ◌<◌, ◌^◌, ℕ, true, IfOk, length, if◌then◌else◌};
ghost use Rattle.era_base.specs.Runs.{runs_cover};
ghost use Rattle.era_base.specs.declared.limits.TheConstants.{LAST_ERA};
ghost use Rattle.era_model.specs.MarkRuns.{eras_of_runs, flags_of_runs};
ghost use Rattle.era_model.specs.Marks.{rolled, transcribed, with_current_archived, with_oldest_merged};

use crate::entries::runs_of_entries;
use era_base::{MOST_SETS, Memory, Runs};
use era_model::{MarkedSet, Marks, SetList, is_covered, run_era};
use std::alloc::Global;

/// The same runs once more.
pub fn copy_runs(alloc: Global, runs: &Runs) -> Result<Runs, Memory>
    ensures { IfOk result (λ r. r ≡ runs.now) }
{
    let mut copy = Runs::new(alloc);
    for run in runs.as_slice() {
        copy.push(run.0, run.1)?;
    }
    Ok(copy)
}

/// The same sets once more.
fn copy_sets(alloc: Global, sets: &[MarkedSet]) -> Result<SetList, Memory>
    ensures { IfOk result (λ s. s ≡ sets.now) }
{
    let mut copy = SetList::new(alloc);
    for set in sets {
        copy.push(MarkedSet {
            era: set.era,
            blocks: copy_runs(alloc, &set.blocks)?,
        })?;
    }
    Ok(copy)
}

/// The entry of each of so many blocks.
fn entries_of(alloc: Global, runs: &[(u32, u32, u32)], blocks: u32) -> Result<Vec<u32>, Memory>
    ensures { IfOk result (λ entries. entries.items ≡ eras_of_runs 0 blocks runs.now) }
{
    let mut entries = Vec::new(alloc);
    for block in 0..blocks {
        entries.push(run_era(runs, block))?;
    }
    Ok(entries)
}

/// The same marks once more.
pub fn copy_marks(alloc: Global, marks: &Marks) -> Result<Marks, Memory>
    ensures { IfOk result (λ m. m ≡ marks.now) }
{
    let entries = entries_of(alloc, marks.array.as_slice(), marks.geometry.blocks())?;
    Ok(Marks {
        geometry: marks.geometry,
        era: marks.era,
        array: runs_of_entries(alloc, entries.as_slice())?,
        archive: copy_sets(alloc, marks.archive.as_slice())?,
        current: copy_runs(alloc, &marks.current)?,
    })
}

/// Gives the block the set's era as its entry, if it is in the set.
fn merge_entry(entry: &mut u32, block: usize, set: &MarkedSet)
    requires { block < 2 ^ 32 }
    ensures { entry.new ≡ (if runs_cover set.now.blocks block then set.now.era else entry.old) }
{
    if is_covered(set.blocks.as_slice(), block as u32) {
        *entry = set.era;
    }
}

/// Gives each block that is in the set the set's era as its entry.
fn merge_set(entries: &mut Vec<u32>, set: &MarkedSet)
    requires { length entries.old.items < 2 ^ 32 }
    ensures { entries.new.items ≡ transcribed
        record {
          era = set.now.era;
          blocks = flags_of_runs 0
              (length entries.old.items) set.now.blocks;
        }
        (λ block. true) 0 entries.old.items }
{
    for (block, entry) in entries.iter_mut().enumerate() {
        merge_entry(entry, block, set);
    }
}

/// The marks with the oldest archived set, if there is one, merged into the array.
fn with_oldest_in_array(alloc: Global, marks: &Marks) -> Result<Marks, Memory>
    ensures { IfOk result (λ m. m ≡ with_oldest_merged marks.now marks.now.archive) }
{
    let Some((oldest, later)) = marks.archive.as_slice().split_first() else {
        return copy_marks(alloc, marks);
    };
    let mut entries = entries_of(alloc, marks.array.as_slice(), marks.geometry.blocks())?;
    merge_set(&mut entries, oldest);
    Ok(Marks {
        geometry: marks.geometry,
        era: marks.era,
        array: runs_of_entries(alloc, entries.as_slice())?,
        archive: copy_sets(alloc, later)?,
        current: copy_runs(alloc, &marks.current)?,
    })
}

/// The marks with the current set archived under the era that ends, and the next era begun.
fn in_next_era(alloc: Global, marks: Marks) -> Result<Marks, Memory>
    requires { marks.era < LAST_ERA }
    ensures { IfOk result (λ m. m ≡ with_current_archived marks) }
{
    let mut archive = marks.archive;
    archive.push(MarkedSet {
        era: marks.era,
        blocks: marks.current,
    })?;
    Ok(Marks {
        geometry: marks.geometry,
        era: marks.era + 1,
        array: marks.array,
        archive,
        current: Runs::new(alloc),
    })
}

/// The marks after an era switch.
pub fn marks_after_switch(alloc: Global, marks: &Marks) -> Result<Marks, Memory>
    requires { marks.now.era < LAST_ERA }
    ensures { IfOk result (λ m. m ≡ rolled marks.now) }
{
    let before = if marks.archive.as_slice().len() < MOST_SETS as usize {
        copy_marks(alloc, marks)?
    } else {
        with_oldest_in_array(alloc, marks)?
    };
    in_next_era(alloc, before)
}
