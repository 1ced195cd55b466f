//! The calls of a disk, kind by kind.

ghost use Rattle.std.specs.Prelude.{◌≡◌, IfOk, OnOk, OnErr};
ghost use Rattle.era_disks.specs.DiskCalls.{no_disk_calls, also_failing_call, restarted_calls};

use crate::call_list::CallList;
use era_base::Memory;
use std::alloc::Global;

/// A kind of calls of a disk, which are counted from 0.
#[derive(Clone, Copy, Debug, PartialEq, Eq)]
pub enum DiskCall {
    Read,
    Write,
    Sync,
}

/// The calls of a disk, kind by kind.
#[derive(Debug, Drop)]
pub struct DiskCalls {
    pub reads: CallList,
    pub writes: CallList,
    pub syncs: CallList,
}

impl DiskCalls {
    /// No call was begun, and none fails. It takes no memory.
    pub fn new(alloc: Global) -> DiskCalls
        ensures { result ≡ no_disk_calls }
    {
        DiskCalls {
            reads: CallList::new(alloc),
            writes: CallList::new(alloc),
            syncs: CallList::new(alloc),
        }
    }

    /// From now on the call of this kind with this number fails too.
    pub fn fail(&mut self, call: DiskCall, number: u64) -> Result<(), Memory>
        ensures ok { OnOk result (self.new ≡ also_failing_call call number self.old) }
        ensures err { OnErr result (self.new ≡ self.old) }
    {
        match call {
            DiskCall::Read => self.reads.fail(number),
            DiskCall::Write => self.writes.fail(number),
            DiskCall::Sync => self.syncs.fail(number),
        }
    }

    /// Calls of which the same ones fail, and none was begun.
    pub fn restart(&self, alloc: Global) -> Result<DiskCalls, Memory>
        ensures { IfOk result (λ calls. calls ≡ restarted_calls self.now) }
    {
        Ok(DiskCalls {
            reads: self.reads.restart(alloc)?,
            writes: self.writes.restart(alloc)?,
            syncs: self.syncs.restart(alloc)?,
        })
    }

    /// No call was begun, and none fails. It takes no memory.
    pub fn clear(&mut self)
        ensures { self.new ≡ no_disk_calls }
    {
        self.reads.clear();
        self.writes.clear();
        self.syncs.clear();
    }
}
