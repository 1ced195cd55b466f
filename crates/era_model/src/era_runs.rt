//! The era array as runs.

ghost use Rattle.std.specs.Prelude.{◌≡◌, ◌<◌, ◌≤◌, ℕ, List, [], ◌∷◌, ◌++◌, OnOk, OnErr};
ghost use Rattle.era_model.specs.EraRuns.{AreEraRuns, StandsBehindAll};

use era_base::Memory;
use std::alloc::Global;
use std::marker::Model;

/// Runs `(first, last, era)` of blocks with the same entry other than 0, ascending and maximal.
#[derive(Debug, Drop)]
pub struct EraRuns {
    runs: Vec<(u32, u32, u32)>,
}

impl Model for EraRuns {
    ghost Value = { List (ℕ × ℕ × ℕ) };

    ghost view = { λ r. r.runs.items };

    ghost invariant = { λ r. AreEraRuns r.runs.items };
}

impl EraRuns {
    /// No block has an entry. It takes no memory.
    pub fn new(alloc: Global) -> EraRuns
        ensures { result ≡ [] }
    {
        EraRuns {
            runs: Vec::new(alloc),
        }
    }

    /// Adds a run behind the others: it isn't empty, and doesn't touch a run of the same era.
    pub fn push(&mut self, first: u32, last: u32, era: u32) -> Result<(), Memory>
        requires some { first ≤ last }
        requires era { 0 < era }
        requires behind { StandsBehindAll self.old (first, last, era) }
        ensures ok { OnOk result (self.new ≡ self.old ++ (first, last, era) ∷ []) }
        ensures err { OnErr result (self.new ≡ self.old) }
    {
        self.runs.push((first, last, era))?;
        Ok(())
    }

    /// The runs.
    pub fn as_slice(&self) -> &[(u32, u32, u32)]
        ensures value { result.now ≡ self.now }
        ensures runs { AreEraRuns self.now }
    {
        self.runs.as_slice()
    }
}
