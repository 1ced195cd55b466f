//! Whether a sync of a device has failed. That goes from a disk to the other disks of its device through a flag that they
//! share, of which contracts know nothing, and through the bay with each disk that is put back.

ghost use Rattle.std.specs.Prelude.{◌≡◌, ◌||◌, false, IfOk, IsTrue};

use era_base::Memory;
use std::alloc::Global;
use std::sync::Arc;
use std::sync::atomic::{AtomicBool, Ordering};

/// What a disk or a bay knows of the syncs of a device.
#[derive(Drop)]
pub struct SyncFlag {
    flag: Arc<AtomicBool, Global>,
    failed: bool,
}

impl SyncFlag {
    ghost use Rattle.era_disks.specs.SyncFlags.{has_failed};

    /// The flag of a device of which no sync has failed.
    pub fn new(alloc: Global) -> Result<SyncFlag, Memory>
        ensures { IfOk result (λ syncs. has_failed syncs ≡ false) }
    {
        let flag = Arc::new(alloc, AtomicBool::new(false))?;
        Ok(SyncFlag {
            flag,
            failed: false,
        })
    }

    /// The device's flag for one more of its disks, which knows what is known here.
    pub fn share(&self) -> Result<SyncFlag, Memory>
        ensures { IfOk result (λ syncs. has_failed syncs ≡ has_failed self.now) }
    {
        let flag = Arc::try_clone(&self.flag)?;
        Ok(SyncFlag {
            flag,
            failed: self.failed,
        })
    }

    /// Whether a sync of the device has failed, as it is known here or as another disk of the device has told.
    pub fn has_failed(&mut self) -> bool
        ensures told { result ≡ has_failed self.new }
        ensures stays { IsTrue (has_failed self.old) → IsTrue (has_failed self.new) }
    {
        if self.flag.load(Ordering::SeqCst) {
            self.failed = true;
        }
        self.failed
    }

    /// A sync has failed, which all disks of the device are told.
    pub fn fail(&mut self)
        ensures { IsTrue (has_failed self.new) }
    {
        self.flag.store(true, Ordering::SeqCst);
        self.failed = true;
    }

    /// Learns what a disk of the device knows.
    pub fn learn(&mut self, other: &SyncFlag)
        ensures { has_failed self.new ≡ (has_failed self.old || has_failed other.now) }
    {
        self.failed |= other.failed;
    }
}
