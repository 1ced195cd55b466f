//! The past states of a disk in memory, which take no bytes.

use crate::mem_state::MemState;
use std::snapshot::Snapshot;

/// The states before the present one, for contracts alone.
#[derive(Drop)]
pub enum Past {
    Start,
    After(Snapshot<MemState>, Snapshot<Past>),
}

impl Past {
    ghost use Rattle.std.specs.Prelude.{◌≡◌, [], ◌∷◌, ◌++◌};
    ghost use Rattle.era_disks.specs.MemDisk.{past_of, state_of};

    /// The present state becomes the last of the past ones.
    pub fn pass(&mut self, now: &MemState)
        ensures { past_of self.new ≡ past_of self.old ++ state_of now.now ∷ [] }
    {
        let before = Snapshot::of(self);
        *self = Past::After(Snapshot::of(now), before);
    }
}
