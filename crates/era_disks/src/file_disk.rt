//! A part of an open file, as a disk. Once a sync of its device has failed, nothing of it is trusted any more.

ghost use Rattle.std.specs.Prelude.{◌≡◌, ◌+◌, ◌*◌, ◌<◌, ◌≤◌, ◌^◌, [], false, length, IsErr, IsTrue, OnErr, option_map};
ghost use Rattle.era_base.specs.CrashModel.{LiesOn};
ghost use Rattle.era_base.specs.Faults.{HasCause, Rose};

use crate::fault_count::FaultCount;
use crate::sync_flag::SyncFlag;
use era_base::{Disk, Failed, Name};
use std::fs::File;
use std::io;
use std::os::unix::fs::FileExt;

/// Sectors of an open file. After a failed sync every call of each disk of the device fails: the system may have dropped
/// what was pending, and it tells this once.
#[derive(Drop)]
pub struct FileDisk {
    device: Name,
    first: u64,
    sectors: u64,
    file: File,
    writable: bool,
    syncs: SyncFlag,
    faults: FaultCount,
    ghost limited: { (first + sectors) * 512 < 2 ^ 64 },
}

impl FileDisk {
    ghost use Rattle.era_disks.specs.FileDisk.{place_of, sectors_of, is_stopped};
    ghost use Rattle.era_disks.specs.SyncFlags.{has_failed};

    /// So many sectors of an open file, from sector `first` on, with the flag of its device. Where the file isn't open for
    /// writing, each write is a fault.
    pub fn new(
        device: Name,
        first: u64,
        sectors: u64,
        file: File,
        writable: bool,
        syncs: SyncFlag,
    ) -> FileDisk
        requires { (first + sectors) * 512 < 2 ^ 64 }
        ensures place { place_of result ≡ record { device = device; first = first } }
        ensures size { sectors_of result ≡ sectors }
        ensures flag { is_stopped result ≡ has_failed syncs }
        ensures faults { result.faults.count ≡ 0 }
    {
        FileDisk {
            device,
            first,
            sectors,
            file,
            writable,
            syncs,
            faults: FaultCount::new(),
        }
    }

    /// The name of the device.
    pub fn device(&self) -> &str
        ensures { result.now ≡ self.now.device }
    {
        self.device.as_str()
    }

    /// The first sector of the device that is the disk's.
    pub fn first(&self) -> u64
        ensures { result ≡ self.now.first }
    {
        self.first
    }

    /// What is known of the syncs of the device.
    pub fn syncs(&self) -> &SyncFlag
        ensures { has_failed result.now ≡ is_stopped self.now }
    {
        &self.syncs
    }

    /// One more failure.
    fn fail(&mut self, reason: io::Error) -> Failed
        ensures later { self.old.faults.count ≤ self.new.faults.count }
        ensures rose { Rose self.old.faults.count self.new.faults.count }
        ensures same { self.new ≡ record self.old { faults = self.new.faults } }
    {
        self.faults.rise(reason);
        Failed
    }

    /// One more failure after a failed sync of the device, whose reason the disk tells that made it.
    fn stop(&mut self) -> Failed
        ensures later { self.old.faults.count ≤ self.new.faults.count }
        ensures rose { Rose self.old.faults.count self.new.faults.count }
        ensures same { self.new ≡ record self.old { faults = self.new.faults } }
    {
        self.faults.rise_again();
        Failed
    }

    /// The device, and the system's reason of the first failure that was this disk's own.
    pub fn into_failure(self) -> Option<(Name, io::Error)>
        ensures { result ≡ option_map (λ reason. (self.device, reason)) self.faults.first }
    {
        let FileDisk { device, faults, .. } = self;
        faults.first.map(|reason| (device, reason))
    }
}

impl Disk for FileDisk {
    ghost use Rattle.era_disks.specs.FileDisk.{is_stopped};

    ghost tells = { false };

    ghost place = { λ d. record { device = d.device; first = d.first } };

    ghost sectors = { λ d. d.sectors };

    ghost history = { λ _. record { past = []; now = record { seen = []; pending = [] } } };

    ghost faults = { λ d. d.faults.count };

    ghost whole = { λ _ tells. Prim.cc };

    fn sectors(&self) -> u64 {
        self.sectors
    }

    fn read(&mut self, first: u64, into: &mut [u8]) -> Result<(), Failed>
        requires { LiesOn self.old.sectors first (length into.old) }
        ensures place { (self.new.device ≡ self.old.device) × (self.new.first ≡ self.old.first) }
        ensures size { self.new.sectors ≡ self.old.sectors }
        ensures cause { HasCause self.old.faults.count self.new.faults.count result }
        ensures stopped { IsTrue (is_stopped self.old)
            → IsErr result × IsTrue (is_stopped self.new) }
    {
        if self.syncs.has_failed() {
            return Err(self.stop());
        }
        match self.file.read_exact_at(into, (self.first + first) * 512) {
            Ok(()) => Ok(()),
            Err(reason) => Err(self.fail(reason)),
        }
    }

    fn write(&mut self, first: u64, bytes: &[u8]) -> Result<(), Failed>
        requires { LiesOn self.old.sectors first (length bytes.now) }
        ensures place { (self.new.device ≡ self.old.device) × (self.new.first ≡ self.old.first) }
        ensures size { self.new.sectors ≡ self.old.sectors }
        ensures cause { HasCause self.old.faults.count self.new.faults.count result }
        ensures stopped { IsTrue (is_stopped self.old)
            → IsErr result × IsTrue (is_stopped self.new) }
        ensures reading { self.old.writable ≡ false → IsErr result }
    {
        if self.syncs.has_failed() {
            return Err(self.stop());
        }
        if !self.writable {
            return Err(self.fail(read_only()));
        }
        match self.file.write_all_at(bytes, (self.first + first) * 512) {
            Ok(()) => Ok(()),
            Err(reason) => Err(self.fail(reason)),
        }
    }

    fn sync(&mut self) -> Result<(), Failed>
        ensures place { (self.new.device ≡ self.old.device) × (self.new.first ≡ self.old.first) }
        ensures size { self.new.sectors ≡ self.old.sectors }
        ensures cause { HasCause self.old.faults.count self.new.faults.count result }
        ensures stopped { IsTrue (is_stopped self.old) → IsErr result }
        ensures stops { OnErr result (IsTrue (is_stopped self.new)) }
    {
        if self.syncs.has_failed() {
            return Err(self.stop());
        }
        match self.file.sync_data() {
            Ok(()) => Ok(()),
            Err(reason) => {
                self.syncs.fail();
                Err(self.fail(reason))
            }
        }
    }

    fn faults(&self) -> u64 {
        self.faults.count
    }
}

/// Why a write failed that wasn't tried.
fn read_only() -> io::Error {
    io::Error::new(
        io::ErrorKind::PermissionDenied,
        "it can be opened for reading alone",
    )
}
