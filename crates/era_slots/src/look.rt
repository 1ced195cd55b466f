//! The first sync of a disk, and the first bytes of its slots.

ghost use Rattle.std.specs.Prelude.{◌≤◌, OnOk, MatchResult};
ghost use Rattle.era_base.specs.CrashModel.{SameBut};
ghost use Rattle.era_base.specs.Calls.{EachMoment, Now, MakesCalls, SameDisk};
ghost use Rattle.era_base.specs.Faults.{HasCount};
ghost use Rattle.era_slots.specs.Calls.{IsFront, HasFronts, FailsToRead};

use era_base::Disk;

/// Syncs, then reads the first bytes of slot 0 and of slot 1 of a disk of at least 3 metadata blocks: some whole
/// sectors of each, at most 4,096 bytes. It judges nothing that it reads, and writes nothing. The error is the disk's
/// count of faults, which rose, and no call follows the one that failed. It takes no memory.
pub fn read_slots<D: Disk>(disk: &mut D, first: &mut [u8], second: &mut [u8]) -> Result<(), u64>
    requires buffers { IsFront first.old × IsFront second.old }
    requires room { 24 ≤ D.sectors disk.old }
    ensures moments { EachMoment D.Disk (SameBut 0 0) disk.old disk.new }
    ensures read { OnOk result (Now D.Disk (HasFronts first.new second.new) disk.new) }
    ensures calls { MatchResult result (λ _. MakesCalls D.Disk 3 disk.old disk.new)
        (λ _. FailsToRead D.Disk disk.old disk.new) }
    ensures disk { SameDisk D.Disk disk.old disk.new }
    ensures cause { HasCount (D.faults disk.old) (D.faults disk.new) result }
{
    let Ok(()) = disk.sync() else {
        return Err(disk.faults());
    };
    let Ok(()) = disk.read(0, first) else {
        return Err(disk.faults());
    };
    let Ok(()) = disk.read(8, second) else {
        return Err(disk.faults());
    };
    Ok(())
}
