//! The calls of a commit.

ghost use Rattle.std.specs.Prelude.{◌≡◌, ◌+◌, ◌*◌, ◌≤◌, true, length, OnOk, OnErr};
ghost use Rattle.era_base.specs.Calls.{EachMoment, Now, MakesCalls, SameDisk};
ghost use Rattle.era_base.specs.Faults.{HasCount};
ghost use Rattle.era_slots.specs.Slot.{page_of};
ghost use Rattle.era_slots.specs.Promise.{Begins, PutsPage, Commits};
ghost use Rattle.era_slots.specs.Calls.{StandFor, KeepsTarget, SameSlots, CanPut, CanCommit, HasBegun, ClosesGate, StoresBody, FailsToStore};

use crate::slots::Slots;
use crate::steps::{close_gate, open_gate, write_body};
use era_base::Disk;

impl<D: Disk> Slots<D> {
    /// Closes the gate of the slot of the next commit and syncs, by one write and one sync: at Ok the gate's sector is
    /// zeros, and nothing is pending. Where that gate is known to be closed it makes no device call. The error is the
    /// disk's count of faults, which rose; then the gate may still be open, and `begin` may be called again. It takes
    /// no memory.
    pub fn begin(&mut self) -> Result<(), u64>
        requires room { 24 ≤ D.sectors self.old.disk }
        requires stands { Now D.Disk (StandFor self.old) self.old.disk }
        ensures moments { EachMoment D.Disk
            (Begins self.old.target self.old.number self.old.may_be_open)
            self.old.disk self.new.disk }
        ensures stands { Now D.Disk (StandFor self.new) self.new.disk }
        ensures begun { HasBegun result self.old self.new }
        ensures closed { self.old.may_be_open ≡ true
            → OnOk result (ClosesGate D.Disk self.old.target self.old.disk self.new.disk) }
        ensures same { KeepsTarget self.old self.new
            × SameDisk D.Disk self.old.disk self.new.disk }
        ensures cause { HasCount (D.faults self.old.disk) (D.faults self.new.disk) result }
    {
        if !self.may_be_open {
            return Ok(());
        }
        close_gate(&mut self.disk, self.target)?;
        self.may_be_open = false;
        Ok(())
    }

    /// Writes the 4,096 bytes of a page into a metadata block behind the slots, by one write. The page is pending until
    /// the next commit. No block but this one changes: the caller puts no block that the committed body needs. The
    /// error is the disk's count of faults, which rose; then a read of the block may give anything. It takes no memory.
    pub fn put_page(&mut self, block: u32, bytes: &[u8]) -> Result<(), u64>
        requires stands { Now D.Disk (StandFor self.old) self.old.disk }
        requires page { CanPut D.Disk self.old block bytes.now }
        ensures moments { EachMoment D.Disk
            (PutsPage self.old.target self.old.number block) self.old.disk self.new.disk }
        ensures stands { Now D.Disk (StandFor self.new) self.new.disk }
        ensures put { OnOk result
            (Now D.Disk (λ now. page_of block now.seen ≡ bytes.now) self.new.disk) }
        ensures calls { MakesCalls D.Disk 1 self.old.disk self.new.disk }
        ensures same { SameSlots self.old self.new
            × SameDisk D.Disk self.old.disk self.new.disk }
        ensures cause { HasCount (D.faults self.old.disk) (D.faults self.new.disk) result }
    {
        let Ok(()) = self.disk.write(u64::from(block) * 8, bytes) else {
            return Err(self.disk.faults());
        };
        Ok(())
    }

    /// Writes the number of the commit and the 3,576 bytes of its body, syncs, opens the gate over them by a sector of
    /// 1 and then zeros, and syncs: two writes and two syncs. From the second write on a crash may leave the new body
    /// in place of the old one. The error is the disk's count of faults, which rose; then the committed body is as
    /// before. It takes no memory.
    pub fn commit(&mut self, body: &[u8]) -> Result<(), u64>
        requires stands { Now D.Disk (StandFor self.old) self.old.disk }
        requires commit { CanCommit D.Disk self.old body.now }
        ensures moments { EachMoment D.Disk
            (Commits self.old.target self.old.number body.now) self.old.disk self.new.disk }
        ensures stands { Now D.Disk (StandFor self.new) self.new.disk }
        ensures stored { OnOk result (StoresBody D.Disk body.now self.old self.new) }
        ensures failed { OnErr result (FailsToStore D.Disk body.now self.old self.new) }
        ensures disk { SameDisk D.Disk self.old.disk self.new.disk }
        ensures cause { HasCount (D.faults self.old.disk) (D.faults self.new.disk) result }
    {
        write_body(&mut self.disk, self.target, self.number + 1, body)?;
        self.may_be_open = true;
        open_gate(&mut self.disk, self.target)?;
        self.may_be_open = self.number > 0;
        self.number += 1;
        self.target = 1 - self.target;
        Ok(())
    }

    /// Reads the 4,096 bytes of a metadata block, by one read. The error is the disk's count of faults, which rose. It
    /// takes no memory.
    pub fn read_page(&mut self, block: u32, into: &mut [u8]) -> Result<(), u64>
        requires page { (block * 8 + 8 ≤ D.sectors self.old.disk) × (length into.old ≡ 4096) }
        ensures moments { EachMoment D.Disk
            (λ before now. now ≡ before) self.old.disk self.new.disk }
        ensures stands { Now D.Disk (StandFor self.old) self.old.disk
            → Now D.Disk (StandFor self.new) self.new.disk }
        ensures read { OnOk result
            (Now D.Disk (λ now. into.new ≡ page_of block now.seen) self.new.disk) }
        ensures calls { MakesCalls D.Disk 1 self.old.disk self.new.disk }
        ensures same { SameSlots self.old self.new
            × SameDisk D.Disk self.old.disk self.new.disk }
        ensures cause { HasCount (D.faults self.old.disk) (D.faults self.new.disk) result }
    {
        let Ok(()) = self.disk.read(u64::from(block) * 8, into) else {
            return Err(self.disk.faults());
        };
        Ok(())
    }

    /// Gives the disk back. It takes no memory.
    pub fn into_disk(self) -> D
        ensures { result ≡ self.disk }
    {
        let Slots { disk, .. } = self;
        disk
    }
}
