//! The numbers of the calls that fail.

ghost use Rattle.std.specs.Prelude.{◌≡◌, ◌↔◌, IsTrue, IfOk, OnOk, OnErr};
ghost use Rattle.era_disks.specs.Calls.{Calls, no_calls, NextFails, one_begun, also_failing, restarted};

use era_base::Memory;
use std::alloc::Global;
use std::marker::Model;

/// The calls of one kind, counted from 0: the numbers of those that fail, and how many were begun.
#[derive(Debug, Drop)]
pub struct CallList {
    failing: Vec<u64>,
    begun: u64,
}

impl Model for CallList {
    ghost Value = { Calls };

    ghost view = { λ calls. record { failing = calls.failing.items; begun = calls.begun } };
}

impl CallList {
    /// No call was begun, and none fails. It takes no memory.
    pub fn new(alloc: Global) -> CallList
        ensures { result ≡ no_calls }
    {
        CallList {
            failing: Vec::new(alloc),
            begun: 0,
        }
    }

    /// From now on the call with this number fails too.
    pub fn fail(&mut self, number: u64) -> Result<(), Memory>
        ensures ok { OnOk result (self.new ≡ also_failing number self.old) }
        ensures err { OnErr result (self.new ≡ self.old) }
    {
        self.failing.push(number)?;
        Ok(())
    }

    /// Begins a call, and tells whether it fails.
    pub fn begin(&mut self) -> bool
        ensures fails { IsTrue result ↔ NextFails self.old }
        ensures counted { self.new ≡ one_begun self.old }
    {
        let fails = self.failing.contains(&self.begun);
        self.begun = self.begun.saturating_add(1);
        fails
    }

    /// How many calls were begun, up to the greatest value of a `u64`.
    pub fn begun(&self) -> u64
        ensures { result ≡ self.now.begun }
    {
        self.begun
    }

    /// Calls of which the same ones fail, and none was begun.
    pub fn restart(&self, alloc: Global) -> Result<CallList, Memory>
        ensures { IfOk result (λ calls. calls ≡ restarted self.now) }
    {
        Ok(CallList {
            failing: Vec::from_slice(alloc, self.failing.as_slice())?,
            begun: 0,
        })
    }

    /// No call was begun, and none fails. It takes no memory.
    pub fn clear(&mut self)
        ensures { self.new ≡ no_calls }
    {
        self.failing.clear();
        self.begun = 0;
    }
}
