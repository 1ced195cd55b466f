//! A write that is on the disk once it is answered.

ghost use Rattle.std.specs.Prelude.{◌≡◌, ◌+◌, ◌*◌, true, length, OnOk};
ghost use Rattle.era_base.specs.CrashModel.{LiesOn, SameBut};
ghost use Rattle.era_base.specs.Faults.{HasCount};
ghost use Rattle.era_base.specs.Calls.{EachMoment, Now, MakesCalls, SameDisk, IsOnDisk, WritesThenSyncs};

use crate::disk::Disk;

/// Writes whole sectors from sector `first` on and syncs, by one write and, where that answered Ok, one sync. At Ok the
/// bytes are on the disk, and nothing is pending. The error is the disk's count of faults, which rose: after a failed
/// write, which isn't followed by a sync, a read of the sectors may give any bytes; after a failed sync it gives those
/// that were written, and all that was pending still is.
pub fn write_synced<D: Disk>(disk: &mut D, first: u64, bytes: &[u8]) -> Result<(), u64>
    requires { LiesOn (D.sectors disk.old) first (length bytes.now) }
    ensures told { D.tells ≡ true → WritesThenSyncs first bytes.now result
        (D.history disk.old) (D.history disk.new) }
    ensures moments { EachMoment D.Disk (SameBut (first * 512) (first * 512 + length bytes.now))
        disk.old disk.new }
    ensures written { OnOk result (Now D.Disk (IsOnDisk (first * 512) bytes.now) disk.new) }
    ensures calls { OnOk result (MakesCalls D.Disk 2 disk.old disk.new) }
    ensures disk { SameDisk D.Disk disk.old disk.new }
    ensures cause { HasCount (D.faults disk.old) (D.faults disk.new) result }
{
    let Ok(()) = disk.write(first, bytes) else {
        return Err(disk.faults());
    };
    let Ok(()) = disk.sync() else {
        return Err(disk.faults());
    };
    Ok(())
}
