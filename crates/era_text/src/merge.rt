//! The logical fold: marks with their archived sets merged into the era array.

ghost use Rattle.std.specs.Prelude.{◌≡◌, ◌<◌, ◌≤◌, ℕ, List, length, slice_index, IfOk, OnOk};
ghost use Rattle.era_base.specs.declared.limits.TheConstants.{MOST_BLOCKS};
ghost use Rattle.era_base.specs.Runs.{AreRuns};
ghost use Rattle.era_model.specs.EraRuns.{EndWithin, StandsBehindAll};
ghost use Rattle.era_model.specs.Merging.{merged_marks};
ghost use Rattle.era_text.specs.Folding.{ListEntries, RaisedBy, array_value, era_within, set_value, sets_value};

use era_base::{Memory, Runs};
use era_model::{EraRuns, MarkedSet, Marks, SetList};
use std::alloc::Global;

/// The marks with their archived sets merged into the era array: each block's entry is the greatest of its own and the
/// eras of the sets that have it. It takes four bytes a block, and the memory of the new marks.
pub fn fold(alloc: Global, marks: &Marks) -> Result<Marks, Memory>
    ensures { IfOk result (λ folded. folded ≡ merged_marks marks.now) }
{
    let mut entries = vec![in alloc; 0; marks.geometry.blocks() as usize]?;
    let raised = entries.as_mut_slice();
    raise_array(raised, marks.array.as_slice());
    raise_sets(raised, marks.archive.as_slice());
    let array = runs_of_entries(alloc, raised)?;
    let current = copy_of(alloc, marks.current.as_slice())?;
    Ok(Marks {
        geometry: marks.geometry,
        era: marks.era,
        array,
        archive: SetList::new(alloc),
        current,
    })
}

// Raises the entries of the blocks of a run to an era.
fn raise_run(entries: &mut [u32], first: u32, last: u32, era: u32)
    ensures { RaisedBy (era_within first last era) entries.old entries.new }
{
    let end = entries.len().min(last as usize + 1);
    let start = end.min(first as usize);
    for index in start..end {
        entries[index] = entries[index].max(era);
    }
}

// Raises the entries of the blocks of runs to an era.
fn raise_runs(entries: &mut [u32], runs: &[(u32, u32)], era: u32)
    ensures { RaisedBy (set_value era runs.now) entries.old entries.new }
{
    for run in runs {
        raise_run(entries, run.0, run.1, era);
    }
}

// Raises the entries of the blocks of runs of the array to their eras.
fn raise_array(entries: &mut [u32], runs: &[(u32, u32, u32)])
    ensures { RaisedBy (array_value runs.now) entries.old entries.new }
{
    for run in runs {
        raise_run(entries, run.0, run.1, run.2);
    }
}

// Raises the entries of the blocks of archived sets to their eras.
fn raise_sets(entries: &mut [u32], sets: &[MarkedSet])
    ensures { RaisedBy (sets_value sets.now) entries.old entries.new }
{
    for set in sets {
        raise_runs(entries, set.blocks.as_slice(), set.era);
    }
}

// Adds the run of the blocks from one on up to another, without that one, unless their era is 0.
fn add_run(runs: &mut EraRuns, first: u32, end: u32, era: u32) -> Result<(), Memory>
    requires some { first < end }
    requires behind { StandsBehindAll runs.old (first, first, era) }
    requires within { EndWithin first runs.old }
    ensures added { (entries : List ℕ) → ListEntries runs.old first entries
        → ((block : ℕ) → first ≤ block → block < end → slice_index entries block ≡ era)
        → OnOk result (ListEntries runs.new end entries) }
    ensures next { (other : ℕ) → (other ≡ era → ⊥)
        → OnOk result (StandsBehindAll runs.new (end, end, other)) }
{
    if era > 0 {
        runs.push(first, end - 1, era)?;
    }
    Ok(())
}

// The runs of equal entries other than 0.
fn runs_of_entries(alloc: Global, entries: &[u32]) -> Result<EraRuns, Memory>
    requires { length entries.now ≤ MOST_BLOCKS }
    ensures { IfOk result (λ runs. ListEntries runs (length entries.now) entries.now) }
{
    let mut runs = EraRuns::new(alloc);
    let Some(start) = entries.first() else {
        return Ok(runs);
    };
    let mut era = *start;
    let mut first = 0;
    for (index, entry) in entries.iter().enumerate() {
        if *entry != era {
            add_run(&mut runs, first, index as u32, era)?;
            first = index as u32;
            era = *entry;
        }
    }
    add_run(&mut runs, first, entries.len() as u32, era)?;
    Ok(runs)
}

// The same runs in memory of their own.
fn copy_of(alloc: Global, runs: &[(u32, u32)]) -> Result<Runs, Memory>
    requires { AreRuns runs.now }
    ensures { IfOk result (λ copy. copy ≡ runs.now) }
{
    let mut copy = Runs::new(alloc);
    for run in runs {
        copy.push(run.0, run.1)?;
    }
    Ok(copy)
}
