//! Runs of the blocks that pass a test.

ghost use Rattle.std.specs.Prelude.{◌≡◌, ◌≤◌, ◌<◌, ◌||◌, ◌&&◌, ℕ, nat_lt, nat_le, length, IfOk, OnOk};
ghost use Rattle.era_base.specs.Flags.{has};
ghost use Rattle.era_base.specs.declared.limits.TheConstants.{MOST_BLOCKS};
ghost use Rattle.era_base.specs.Runs.{EndsBefore, runs_cover};
ghost use Rattle.era_model.specs.Conditions.{ListsExactly};

use era_base::{Memory, Runs};
use std::alloc::Global;

/// Adds the blocks from one on up to another, without that one, if there are some.
fn add_blocks(runs: &mut Runs, first: u32, end: u32) -> Result<(), Memory>
    requires behind { EndsBefore runs.old first }
    ensures added { OnOk result ((block : ℕ)
        → runs_cover runs.new block
        ≡ (runs_cover runs.old block || (nat_le first block && nat_lt block end))) }
    ensures ends { (next : ℕ) → first < next → end < next → OnOk result (EndsBefore runs.new next) }
{
    if first < end {
        runs.push(first, end - 1)?;
    }
    Ok(())
}

/// The runs of the blocks whose flag is set.
pub fn runs_of_flags(alloc: Global, flags: &[bool]) -> Result<Runs, Memory>
    requires { length flags.now ≤ MOST_BLOCKS }
    ensures { IfOk result (λ runs. ListsExactly (length flags.now) (has flags.now) runs) }
{
    let mut runs = Runs::new(alloc);
    let mut first = 0;
    for (index, flag) in flags.iter().enumerate() {
        if !*flag {
            add_blocks(&mut runs, first, index as u32)?;
            first = index as u32 + 1;
        }
    }
    add_blocks(&mut runs, first, flags.len() as u32)?;
    Ok(runs)
}
