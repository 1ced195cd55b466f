//! The record of the calls of a disk in memory.

ghost use Rattle.std.specs.Prelude.{◌≡◌, ◌<◌, [], ◌∷◌, ◌++◌, vec_len, vec_capacity, OnOk};

use crate::made_call::MadeCall;
use era_base::Memory;
use std::alloc::Global;

/// The calls that were made, the first one first.
#[derive(Debug, Drop)]
pub struct CallRecord {
    pub calls: Vec<MadeCall>,
}

impl CallRecord {
    /// No call was made. It takes no memory.
    pub fn new(alloc: Global) -> CallRecord
        ensures { result.calls.items ≡ [] }
    {
        CallRecord {
            calls: Vec::new(alloc),
        }
    }

    /// Makes room for one more call.
    pub fn reserve(&mut self) -> Result<(), Memory>
        ensures room { OnOk result (vec_len self.new.calls < vec_capacity self.new.calls) }
        ensures same { self.new.calls.items ≡ self.old.calls.items }
    {
        self.calls.reserve(1)?;
        Ok(())
    }

    /// Adds a call. It takes no memory.
    pub fn add(&mut self, call: MadeCall)
        requires { vec_len self.old.calls < vec_capacity self.old.calls }
        ensures { self.new.calls.items ≡ self.old.calls.items ++ call ∷ [] }
    {
        match self.calls.push(call) {
            Ok(()) => {}
            Err(_) => unreachable!(),
        }
    }

    /// Forgets all calls. It takes no memory.
    pub fn clear(&mut self)
        ensures { self.new.calls.items ≡ [] }
    {
        self.calls.clear();
    }
}
