//! The era array as runs, from its entries.

ghost use Rattle.std.specs.Prelude.{◌≡◌, ◌≢◌, ◌<◌, ◌≤◌, ℕ, List, length, IfOk, OnOk};
ghost use Rattle.era_base.specs.declared.limits.TheConstants.{MOST_BLOCKS};
ghost use Rattle.era_core.specs.Entries.{AddsEntries};
ghost use Rattle.era_model.specs.EraRuns.{EndWithin, StandsBehindAll};
ghost use Rattle.era_model.specs.MarkRuns.{eras_of_runs};

use era_base::Memory;
use era_model::EraRuns;
use std::alloc::Global;

/// Adds the blocks from one on up to another, without that one, if they have an entry.
fn add_entries(runs: &mut EraRuns, first: u32, end: u32, era: u32) -> Result<(), Memory>
    requires behind { StandsBehindAll runs.old (first, first, era) }
    requires order { first ≤ end }
    ensures added { OnOk result (AddsEntries runs.old runs.new first end era) }
    ensures behind { (last next : ℕ) → first < end → next ≢ era
        → OnOk result (StandsBehindAll runs.new (end, last, next)) }
{
    if first < end && era != 0 {
        runs.push(first, end - 1, era)?;
    }
    Ok(())
}

/// The runs of the entries of at most 65,536 blocks.
pub fn runs_of_entries(alloc: Global, entries: &[u32]) -> Result<EraRuns, Memory>
    requires { length entries.now ≤ MOST_BLOCKS }
    ensures value { IfOk result (λ runs. eras_of_runs 0 (length entries.now) runs ≡ entries.now) }
    ensures within { IfOk result (EndWithin (length entries.now)) }
{
    let mut runs = EraRuns::new(alloc);
    let mut first = 0;
    let mut era = 0;
    for (index, entry) in entries.iter().enumerate() {
        if *entry != era {
            add_entries(&mut runs, first, index as u32, era)?;
            first = index as u32;
            era = *entry;
        }
    }
    add_entries(&mut runs, first, entries.len() as u32, era)?;
    Ok(runs)
}
