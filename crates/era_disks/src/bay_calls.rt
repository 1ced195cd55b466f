//! The calls of a bay, kind by kind.

ghost use Rattle.std.specs.Prelude.{◌≡◌, OnOk, OnErr};
ghost use Rattle.era_disks.specs.BayCalls.{no_bay_calls, also_failing_at};

use crate::call_list::CallList;
use era_base::Memory;
use std::alloc::Global;

/// A kind of calls of a bay, which are counted from 0.
#[derive(Clone, Copy, Debug, PartialEq, Eq)]
pub enum BayCall {
    Size,
    OpenMeta,
    OpenPart,
}

/// The calls of a bay, kind by kind.
#[derive(Debug, Drop)]
pub struct BayCalls {
    pub sizes: CallList,
    pub metas: CallList,
    pub parts: CallList,
}

impl BayCalls {
    /// No call was begun, and none fails. It takes no memory.
    pub fn new(alloc: Global) -> BayCalls
        ensures { result ≡ no_bay_calls }
    {
        BayCalls {
            sizes: CallList::new(alloc),
            metas: CallList::new(alloc),
            parts: CallList::new(alloc),
        }
    }

    /// From now on the call of this kind with this number fails too.
    pub fn fail(&mut self, call: BayCall, number: u64) -> Result<(), Memory>
        ensures ok { OnOk result (self.new ≡ also_failing_at call number self.old) }
        ensures err { OnErr result (self.new ≡ self.old) }
    {
        match call {
            BayCall::Size => self.sizes.fail(number),
            BayCall::OpenMeta => self.metas.fail(number),
            BayCall::OpenPart => self.parts.fail(number),
        }
    }
}
