//! What the metadata tells: lists of blocks, whole marks, and its status.

ghost use Rattle.std.specs.Prelude.{◌≡◌, ◌/◌, true, false, IfOk};
ghost use Rattle.era_base.specs.Calls.{Now};
ghost use Rattle.era_base.specs.Flags.{has};
ghost use Rattle.era_model.specs.Conditions.{ListsExactly};
ghost use Rattle.era_model.specs.Marks.{blocks_of_marks, written_since};
ghost use Rattle.era_model.specs.Usage.{held_block};

use crate::metadata::Meta;
use crate::page_laws::used_blocks_are_a_usage;
use crate::usage::used_blocks;
use era_base::{Disk, Memory, Runs};
use era_model::Marks;
use std::alloc::Global;

/// The metadata block in which the snapshot's root stands.
const HELD_BLOCK: u32 = 2;

impl<D: Disk> Meta<D> {
    ghost use Rattle.era_meta.specs.Held.{snapshot_marks};
    ghost use Rattle.era_meta.specs.MetaCalls.{IsStanding};
    ghost use Rattle.era_meta.specs.Status.{TellsUsage};

    /// Whether a snapshot is held.
    pub fn held(&self) -> bool
        ensures { result ≡ self.now.snapshot.is_held }
    {
        self.snapshot.is_held
    }

    /// Whether the block is marked in the present era. It takes no memory.
    pub fn marked(&self, block: u32) -> bool
        ensures { result ≡ has self.now.marks.current block }
    {
        self.marks.is_marked(block)
    }

    /// The blocks that were marked in the era or a later one. Era 0 means the same as 1. It takes memory for the runs
    /// alone.
    pub fn since(&self, alloc: Global, era: u32) -> Result<Runs, Memory>
        ensures { IfOk result (ListsExactly (blocks_of_marks self.now.marks)
            (written_since self.now.marks era)) }
    {
        self.marks.since(alloc, era)
    }

    /// The blocks that were marked in the era or a later one by the time the snapshot was taken, where one is held. Era 0
    /// means the same as 1. It reads no disk, and takes memory for the runs alone.
    pub fn snap_since(&self, alloc: Global, era: u32) -> Result<Runs, Memory>
        requires { self.now.snapshot.is_held ≡ true }
        ensures { IfOk result (ListsExactly (blocks_of_marks self.now.snapshot.marks)
            (written_since self.now.snapshot.marks era)) }
    {
        self.snapshot.marks.since(alloc, era)
    }

    /// The marks, as runs.
    pub fn marks(&self, alloc: Global) -> Result<Marks, Memory>
        ensures { IfOk result (λ marks. marks ≡ self.now.marks) }
    {
        self.marks.to_marks(alloc)
    }

    /// The snapshot's marks, as runs; `None` exactly where none is held. It reads no disk.
    pub fn held_marks(&self, alloc: Global) -> Result<Option<Marks>, Memory>
        ensures { IfOk result (λ held. held ≡ snapshot_marks self.now.snapshot) }
    {
        if self.snapshot.is_held {
            let marks = self.snapshot.marks.to_marks(alloc)?;
            Ok(Some(marks))
        } else {
            Ok(None)
        }
    }

    /// How many metadata blocks are used, how many whole ones the disk has, the present era, and the block of the
    /// snapshot's root, if one is held. A page that the snapshot shares with the marks counts once. It takes no memory.
    pub fn status(&self) -> (u32, u64, u32, Option<u32>)
        requires standing { IsStanding D.Disk self.now }
        requires stored { self.now.unstored ≡ false }
        ensures used { Now D.Disk (λ now. TellsUsage self.now result.0) self.now.slots.disk }
        ensures total { result.1 ≡ D.sectors self.now.slots.disk / 8 }
        ensures era { result.2 ≡ self.now.marks.era }
        ensures held { result.3 ≡ held_block (snapshot_marks self.now.snapshot) }
    {
        used_blocks_are_a_usage();
        let used = used_blocks(&self.root, self.snapshot.held_root());
        let total = self.slots.disk.sectors() / 8;
        let held = if self.snapshot.is_held {
            Some(HELD_BLOCK)
        } else {
            None
        };
        (used, total, self.marks.era(), held)
    }
}
