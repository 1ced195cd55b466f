//! Lists of blocks, as runs.

ghost use Rattle.std.specs.Prelude.{◌≡◌, ◌+◌, ◌<◌, ◌≤◌, ℕ, List, [], ◌∷◌, ◌++◌, IfOk, OnOk, OnErr};
ghost use Rattle.era_base.specs.Runs.{AreRuns, EndsBefore, ListExactly};

use crate::faults::Memory;
use crate::run_source::RunSource;
use std::alloc::Global;
use std::marker::Model;

/// Blocks as `(first, last)` pairs, both ends included, ascending and maximal.
#[derive(Debug, Drop)]
pub struct Runs {
    runs: Vec<(u32, u32)>,
}

impl Model for Runs {
    ghost Value = { List (ℕ × ℕ) };

    ghost view = { λ r. r.runs.items };

    ghost invariant = { λ r. AreRuns r.runs.items };
}

impl Runs {
    /// No blocks. It takes no memory.
    pub fn new(alloc: Global) -> Runs
        ensures { result ≡ [] }
    {
        Runs {
            runs: Vec::new(alloc),
        }
    }

    /// The listed blocks of a source. It takes memory for the runs alone.
    pub fn of<S: RunSource>(alloc: Global, source: &S) -> Result<Runs, Memory>
        ensures { IfOk result (λ runs. ListExactly runs (S.has source.now)) }
    {
        let mut runs = Runs::new(alloc);
        let mut from = 0;
        while let Some((first, last)) = source.next_run(from) {
            runs.push(first, last)?;
            from = last + 1;
        }
        Ok(runs)
    }

    /// Adds the run of the blocks `first` to `last`, both included, behind the others. It doesn't touch the last one.
    pub fn push(&mut self, first: u32, last: u32) -> Result<(), Memory>
        requires some { first ≤ last }
        requires behind { EndsBefore self.old first }
        ensures ok { OnOk result (self.new ≡ self.old ++ (first, last) ∷ []) }
        ensures err { OnErr result (self.new ≡ self.old) }
    {
        self.runs.push((first, last))?;
        Ok(())
    }

    /// The runs.
    pub fn as_slice(&self) -> &[(u32, u32)]
        ensures value { result.now ≡ self.now }
        ensures runs { AreRuns self.now }
    {
        self.runs.as_slice()
    }
}
