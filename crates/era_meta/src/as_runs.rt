//! Marks in memory as runs.

ghost use Rattle.std.specs.Prelude.{◌≡◌, ◌<◌, ◌≤◌, ℕ, List, length, slice_index, IfOk, OnOk};
ghost use Rattle.std.specs.List.{AllByRecursion};
ghost use Rattle.era_base.specs.Flags.{has};
ghost use Rattle.era_base.specs.declared.limits.TheConstants.{MOST_BLOCKS};
ghost use Rattle.era_model.specs.EraRuns.{EndWithin, StandsBehindAll};
ghost use Rattle.era_meta.specs.AsRuns.{TellEntries, TellSet, TellSets};

use crate::live_marks::LiveMarks;
use crate::live_set::LiveSet;
use era_base::{Memory, Runs};
use era_model::{EraRuns, MarkedSet, Marks, SetList};
use era_sets::BitSet;
use std::alloc::Global;

/// Adds the run of the blocks from one on up to another, without that one, unless their era is 0.
fn add_run(runs: &mut EraRuns, first: u32, end: u32, era: u32) -> Result<(), Memory>
    requires some { first < end }
    requires behind { StandsBehindAll runs.old (first, first, era) }
    requires within { EndWithin first runs.old }
    ensures added { (entries : List ℕ) → TellEntries runs.old first entries
        → ((block : ℕ) → first ≤ block → block < end → slice_index entries block ≡ era)
        → OnOk result (TellEntries runs.new end entries) }
    ensures next { (other : ℕ) → (other ≡ era → ⊥)
        → OnOk result (StandsBehindAll runs.new (end, end, other)) }
{
    if era > 0 {
        runs.push(first, end - 1, era)?;
    }
    Ok(())
}

/// The runs of equal entries other than 0.
fn runs_of_entries(alloc: Global, entries: &[u32]) -> Result<EraRuns, Memory>
    requires { length entries.now ≤ MOST_BLOCKS }
    ensures { IfOk result (λ runs. TellEntries runs (length entries.now) entries.now) }
{
    let mut runs = EraRuns::new(alloc);
    let Some(start) = entries.first() else {
        return Ok(runs);
    };
    let mut era = *start;
    let mut first = 0;
    for (index, entry) in entries.iter().enumerate() {
        if *entry != era {
            add_run(&mut runs, first, index as u32, era)?;
            first = index as u32;
            era = *entry;
        }
    }
    add_run(&mut runs, first, entries.len() as u32, era)?;
    Ok(runs)
}

/// The runs of a set.
fn runs_of_set(alloc: Global, set: &BitSet) -> Result<Runs, Memory>
    ensures { IfOk result (λ runs. TellSet runs (length set.now) (has set.now)) }
{
    let runs = set.runs(alloc)?;
    let _runs = runs.as_slice();
    Ok(runs)
}

/// The runs of archived sets of so many blocks.
fn runs_of_sets(alloc: Global, sets: &[LiveSet]) -> Result<SetList, Memory>
    ensures { (blocks : ℕ) → AllByRecursion (λ set. length set.blocks ≡ blocks) sets.now
        → IfOk result (λ told. TellSets told blocks sets.now) }
{
    let mut told = SetList::new(alloc);
    for set in sets {
        let blocks = runs_of_set(alloc, set.blocks())?;
        told.push(MarkedSet {
            era: set.era(),
            blocks,
        })?;
    }
    Ok(told)
}

impl LiveMarks {
    /// The marks as runs. It takes memory for the runs alone.
    pub fn to_marks(&self, alloc: Global) -> Result<Marks, Memory>
        ensures { IfOk result (λ marks. marks ≡ self.now) }
    {
        let _blocks = self.geometry.blocks();
        let array = runs_of_entries(alloc, self.array.as_slice())?;
        let archive = runs_of_sets(alloc, self.archive.as_slice())?;
        let current = runs_of_set(alloc, &self.current)?;
        Ok(Marks {
            geometry: self.geometry,
            era: self.era,
            array,
            archive,
            current,
        })
    }
}
