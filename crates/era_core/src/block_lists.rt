//! Lists block by block: made of runs, and compared with them.

ghost use Rattle.std.specs.Prelude.{◌≡◌, ◌↔◌, IfOk, IsTrue};
ghost use Rattle.era_model.specs.MarkRuns.{eras_of_runs, flags_of_runs, sets_of_runs};

use crate::block_set::BlockSet;
use era_base::Memory;
use era_model::{MarkedSet, is_covered, run_era};
use std::alloc::Global;

/// For each of so many blocks whether it lies in one of the runs.
pub fn flags_of(alloc: Global, blocks: u32, runs: &[(u32, u32)]) -> Result<Vec<bool>, Memory>
    ensures { IfOk result (λ flags. flags.items ≡ flags_of_runs 0 blocks runs.now) }
{
    let mut flags = Vec::new(alloc);
    for block in 0..blocks {
        flags.push(is_covered(runs, block))?;
    }
    Ok(flags)
}

/// Each block's entry.
pub fn entries_of(alloc: Global, blocks: u32, runs: &[(u32, u32, u32)]) -> Result<Vec<u64>, Memory>
    ensures { IfOk result (λ entries. entries.items ≡ eras_of_runs 0 blocks runs.now) }
{
    let mut entries = Vec::new(alloc);
    for block in 0..blocks {
        entries.push(u64::from(run_era(runs, block)))?;
    }
    Ok(entries)
}

/// The archived sets block by block.
pub fn sets_of(alloc: Global, blocks: u32, sets: &[MarkedSet]) -> Result<Vec<BlockSet>, Memory>
    ensures { IfOk result (λ tables. tables.items ≡ sets_of_runs blocks sets.now) }
{
    let mut tables = Vec::new(alloc);
    for set in sets {
        let flags = flags_of(alloc, blocks, set.blocks.as_slice())?;
        tables.push(BlockSet::new(u64::from(set.era), flags))?;
    }
    Ok(tables)
}

/// Copies of the sets.
pub fn copies_of(alloc: Global, sets: &[BlockSet]) -> Result<Vec<BlockSet>, Memory>
    ensures { IfOk result (λ tables. tables.items ≡ sets.now) }
{
    let mut tables = Vec::new(alloc);
    for set in sets {
        tables.push(set.copy(alloc)?)?;
    }
    Ok(tables)
}

/// Whether the flags are those of the runs.
pub fn are_flags(flags: &[bool], blocks: u32, runs: &[(u32, u32)]) -> bool
    ensures { IsTrue result ↔ (flags.now ≡ flags_of_runs 0 blocks runs.now) }
{
    if flags.len() != blocks as usize {
        return false;
    }
    for block in 0..blocks {
        if flags[block as usize] != is_covered(runs, block) {
            return false;
        }
    }
    true
}

/// Whether the entries are those of the runs.
pub fn are_entries(entries: &[u64], blocks: u32, runs: &[(u32, u32, u32)]) -> bool
    ensures { IsTrue result ↔ (entries.now ≡ eras_of_runs 0 blocks runs.now) }
{
    if entries.len() != blocks as usize {
        return false;
    }
    for block in 0..blocks {
        if entries[block as usize] != u64::from(run_era(runs, block)) {
            return false;
        }
    }
    true
}

/// Whether the set is this one.
fn is_set(set: &BlockSet, blocks: u32, marked: &MarkedSet) -> bool
    ensures { IsTrue result ↔ (set.now
        ≡ record { era = marked.now.era; blocks = flags_of_runs 0 blocks marked.now.blocks }) }
{
    set.era() == u64::from(marked.era) && are_flags(set.flags(), blocks, marked.blocks.as_slice())
}

/// Whether the sets are these.
pub fn are_sets(sets: &[BlockSet], blocks: u32, marked: &[MarkedSet]) -> bool
    ensures { IsTrue result ↔ (sets.now ≡ sets_of_runs blocks marked.now) }
{
    if sets.len() != marked.len() {
        return false;
    }
    for (index, set) in sets.iter().enumerate() {
        if !is_set(set, blocks, &marked[index]) {
            return false;
        }
    }
    true
}
