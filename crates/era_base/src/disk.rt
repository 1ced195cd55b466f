//! A disk: sectors of 512 bytes that are read, written and synced.
//!
//! A sector is pending from the beginning of a write of it until a sync that begins later answers Ok, and a crash may
//! leave any bytes in pending sectors. An `impl` that wraps a real device and tells of it must count the sectors of a
//! write as pending in the state after the write: it vouches that a crash inside the call leaves no other images.

ghost use Rattle.std.specs.Prelude.{◌≡◌, ℕ, Bool, true, length};
ghost use Rattle.era_base.specs.Faults.{HasCause};
ghost use Rattle.era_base.specs.CrashModel.{History, IsWhole, LiesOn};
ghost use Rattle.era_base.specs.Disk.{Place, Reads, Writes, Syncs};

use crate::faults::Failed;

/// A disk of a fixed number of sectors.
pub trait Disk {
    /// Whether disks of this type tell of their content.
    ghost tells: { Bool };

    /// The device and the first sector of it that is the disk's.
    ghost place: { Self → Place };

    /// How many sectors the disk has.
    ghost sectors: { Self → ℕ };

    /// The states of the disk, one for each moment up to now. Each read, write and sync is one moment.
    ghost history: { Self → History };

    /// How often the disk has failed.
    ghost faults: { Self → ℕ };

    /// The number of sectors of 512 bytes.
    fn sectors(&self) -> u64
        ensures { result ≡ sectors self.now };

    /// Reads whole sectors from sector `first` on.
    fn read(&mut self, first: u64, into: &mut [u8]) -> Result<(), Failed>
        requires { LiesOn (sectors self.old) first (length into.old) }
        ensures told { tells ≡ true
            → Reads first into.new result (history self.old) (history self.new) }
        ensures size { sectors self.new ≡ sectors self.old }
        ensures place { place self.new ≡ place self.old }
        ensures cause { HasCause (faults self.old) (faults self.new) result };

    /// Writes whole sectors from sector `first` on. They are pending until a later sync answers Ok. After a failure
    /// a read of them may give any bytes, until they are written again.
    fn write(&mut self, first: u64, bytes: &[u8]) -> Result<(), Failed>
        requires { LiesOn (sectors self.old) first (length bytes.now) }
        ensures told { tells ≡ true
            → Writes first bytes.now result (history self.old) (history self.new) }
        ensures size { sectors self.new ≡ sectors self.old }
        ensures place { place self.new ≡ place self.old }
        ensures cause { HasCause (faults self.old) (faults self.new) result };

    /// Makes all that was written last over a crash. After a failure what was pending is still pending.
    fn sync(&mut self) -> Result<(), Failed>
        ensures told { tells ≡ true → Syncs result (history self.old) (history self.new) }
        ensures size { sectors self.new ≡ sectors self.old }
        ensures place { place self.new ≡ place self.old }
        ensures cause { HasCause (faults self.old) (faults self.new) result };

    /// How often the disk has failed, up to the greatest value of a `u64`.
    fn faults(&self) -> u64
        ensures { result ≡ faults self.now };

    /// The present state has as many bytes and flags as the disk has sectors.
    ghost whole: { (disk : Self) → tells ≡ true → IsWhole (sectors disk) (history disk).now };
}
