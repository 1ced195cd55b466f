//! A bay in memory. A lent disk has a copy of its sectors, and `put_back` moves them into the device.

ghost use Rattle.era_disks.specs.Loans.{loans_of};
ghost use Rattle.era_disks.specs.Devices.{LieWithin};

use crate::bay_calls::{BayCall, BayCalls};
use crate::device::{Device, find_device};
use crate::disk_calls::{DiskCall, DiskCalls};
use crate::fuse::{Fuse, FuseEnd, learn, share};
use crate::loans::Loans;
use crate::mem_disk::MemDisk;
use crate::mem_state::MemState;
use crate::tear::Tear;
use era_base::{Bay, BayError, Bytes, Disk, Memory, Name};
use std::alloc::Global;

/// Devices in memory, by name, the loans of them, the calls of the bay that fail, and the fuse of its disks.
#[derive(Drop)]
pub struct MemBay {
    pub alloc: Global,
    pub devices: Vec<Device>,
    pub loans: Loans<MemDisk>,
    pub calls: BayCalls,
    pub fuse: Option<FuseEnd>,
    pub faults: u64,
    pub ghost within: { LieWithin devices.items (loans_of loans.entries.items) },
}

impl MemBay {
    ghost use Rattle.std.specs.Prelude.{◌≡◌, ℕ, List, ◌+◌, ◌*◌, ◌≤◌, [], ◌∷◌, ◌++◌, length, take, drop, replicate, Some, None, IfOk, IfSome, IfNone, OnOk, OnErr, IsErrOf, ◌↔◌};
    ghost use Rattle.era_base.specs.Bay.{new_loan, HasContent, SameReadsBut, ReadsAs, NowReadsAs, IsFree, IsOut, EndsLoan, HasBayCause};
    ghost use Rattle.era_disks.specs.MemDisk.{place_of, sectors_of, history_of};
    ghost use Rattle.era_disks.specs.Calls.{one_more};
    ghost use Rattle.era_disks.specs.BayCalls.{no_bay_calls, also_failing_at};
    ghost use Rattle.era_disks.specs.DiskCalls.{no_disk_calls, also_failing_call};
    ghost use Rattle.era_disks.specs.declared.disk_calls.DiskCalls.{DiskCalls};
    ghost use Rattle.era_disks.specs.MemBay.{sizes_of, reads_of, bay_loans, bay_faults, calls_of, state_in, SameCalls, ForgetsCalls, IsIdle, IsLentAnew, IsRefusedAt, LiesAt, CountsFault, TakesDisk};
    ghost use Rattle.era_disks.specs.Crashed.{Crashes};
    ghost use Rattle.era_disks.specs.Fuses.{IsUnburnt, LearnsFuse};
    ghost use Rattle.era_disks.specs.declared.mem_state.MemState.{MemState};
    ghost use Rattle.era_disks.specs.Devices.{IsFoundAt, device_of, device_length};

    /// A bay that holds no device, has no fuse, and of which no call fails. It takes no memory.
    pub fn new(alloc: Global) -> MemBay
        ensures none { (name : List ℕ) → sizes_of result name ≡ None }
        ensures loans { bay_loans result ≡ [] }
        ensures faults { bay_faults result ≡ 0 }
        ensures calls { (result.calls ≡ no_bay_calls) × (result.fuse ≡ None) }
    {
        MemBay {
            alloc,
            devices: Vec::new(alloc),
            loans: Loans::new(alloc),
            calls: BayCalls::new(alloc),
            fuse: None,
            faults: 0,
        }
    }

    /// The number of sectors of a device.
    fn size_of(&self, name: &str) -> Option<u64>
        ensures { result ≡ sizes_of self.now name.now }
    {
        match find_device(self.devices.as_slice(), name) {
            Some(index) => Some(self.devices[index].sectors()),
            None => None,
        }
    }

    /// One more failure.
    fn refuse<T>(&mut self) -> Result<T, BayError>
        ensures failed { IsErrOf result BayError.Failed }
        ensures cause { HasBayCause (bay_faults self.old) (bay_faults self.new) result }
        ensures counted { self.new ≡ record self.old { faults = one_more self.old.faults } }
    {
        self.faults = self.faults.saturating_add(1);
        Err(BayError::Failed)
    }

    /// Lends a part of the device at an index.
    fn lend(
        &mut self,
        index: usize,
        name: &str,
        first: u64,
        sectors: u64,
    ) -> Result<MemDisk, Memory>
        requires { LiesAt self.old name.now index first sectors }
        ensures place { IfOk result (λ disk. place_of disk
            ≡ record { device = name.now; first = first }) }
        ensures size { IfOk result (λ disk. sectors_of disk ≡ sectors) }
        ensures anew { IfOk result (λ disk. IsLentAnew self.old name.now disk) }
        ensures loans { IfOk result (λ disk. bay_loans self.new ≡ bay_loans self.old
            ++ new_loan disk ∷ []) }
        ensures err { OnErr result (bay_loans self.new ≡ bay_loans self.old) }
        ensures rest { (self.new.devices ≡ self.old.devices)
            × (bay_faults self.new ≡ bay_faults self.old)
            × (self.new.calls ≡ self.old.calls) × (self.new.fuse ≡ self.old.fuse) }
    {
        self.loans.reserve()?;
        let device = Name::from_text(self.alloc, name)?;
        let fuse = share(&self.fuse, self.alloc)?;
        let disk = self.devices[index].lend(self.alloc, first, sectors, fuse)?;
        self.loans.begin(device, first, &disk);
        Ok(disk)
    }

    /// Lends a part of the device at an index, where no sector of it is lent.
    fn open_at(
        &mut self,
        index: usize,
        name: &str,
        first: u64,
        sectors: u64,
    ) -> Result<MemDisk, BayError>
        requires { LiesAt self.old name.now index first sectors }
        ensures place { IfOk result (λ disk. (place_of disk
            ≡ record { device = name.now; first = first })
            × (sectors_of disk ≡ sectors) × IsLentAnew self.old name.now disk) }
        ensures content { IfOk result (λ disk.
            ReadsAs (reads_of self.old) name.now first sectors (history_of disk).now) }
        ensures free { OnOk result
            (IsFree place_of sectors_of (bay_loans self.old) name.now first sectors) }
        ensures loans { IfOk result (λ disk. bay_loans self.new ≡ bay_loans self.old
            ++ new_loan disk ∷ []) }
        ensures refused { OnErr result (bay_loans self.new ≡ bay_loans self.old)
            × (IsErrOf result BayError.Failed ↔ IsRefusedAt self.old name.now first sectors) }
        ensures rest { (self.new.devices ≡ self.old.devices) × (self.new.calls ≡ self.old.calls)
            × (self.new.fuse ≡ self.old.fuse) }
        ensures cause { CountsFault self.old self.new result }
    {
        if self.loans.is_free(name, first, sectors) {
            match self.lend(index, name, first, sectors) {
                Ok(disk) => Ok(disk),
                Err(Memory) => Err(BayError::Memory),
            }
        } else {
            self.refuse()
        }
    }

    /// Ends the last loan that is out at the disk's place.
    fn end_loan(&mut self, disk: &MemDisk)
        requires { (index : ℕ) × IsOut place_of sectors_of (bay_loans self.old)
            (place_of disk.now) (sectors_of disk.now) index }
        ensures loans { EndsLoan place_of sectors_of disk.now
            (bay_loans self.old) (bay_loans self.new) }
        ensures rest { (self.new.devices ≡ self.old.devices)
            × (bay_faults self.new ≡ bay_faults self.old)
            × (self.new.calls ≡ self.old.calls) × (self.new.fuse ≡ self.old.fuse) }
    {
        self.loans.end(disk.device.as_str(), disk.first, disk);
    }

    /// Moves the sectors of a disk into its device, and learns what it knows of the fuse.
    fn take_in(&mut self, disk: MemDisk)
        requires { disk.first + sectors_of disk
            ≤ device_length (device_of self.old.devices.items disk.device) }
        ensures content { NowReadsAs (reads_of self.new) disk.device disk.first
            (sectors_of disk) (history_of disk).now }
        ensures others { SameReadsBut disk.device disk.first (sectors_of disk)
            (reads_of self.old) (reads_of self.new) }
        ensures taken { TakesDisk self.old self.new disk }
        ensures sizes { (name : List ℕ) → sizes_of self.new name ≡ sizes_of self.old name }
        ensures calls { ForgetsCalls disk.device self.old self.new }
        ensures rest { (bay_loans self.new ≡ bay_loans self.old)
            × (bay_faults self.new ≡ bay_faults self.old) × (self.new.calls ≡ self.old.calls) }
        ensures fuse { LearnsFuse disk.fuse self.old.fuse self.new.fuse }
    {
        let MemDisk {
            device,
            first,
            state,
            fuse,
            ..
        } = disk;
        learn(&mut self.fuse, &fuse);
        match find_device(self.devices.as_slice(), device.as_str()) {
            Some(index) => self.devices[index].take_back(first as usize, state),
            None => {}
        }
    }
}

impl Bay for MemBay {
    ghost use Rattle.std.specs.Prelude.{◌≡◌, ◌↔◌, ◌⊎◌, ℕ, ◌+◌, ◌≤◌, [], ◌∷◌, ◌++◌, Some, None, IfOk, OnOk, OnErr, IsErrOf};
    ghost use Rattle.era_base.specs.Bay.{new_loan, ReadsAs, NowReadsAs, SameReads, SameReadsBut, KeepsSizes, IsFree, IsOut, EndsLoan, HasBayCause};
    ghost use Rattle.era_disks.specs.Fuses.{LearnsFuse};
    ghost use Rattle.era_disks.specs.Calls.{NextFails, one_begun, one_more};
    ghost use Rattle.era_disks.specs.MemDisk.{place_of, sectors_of, history_of};
    ghost use Rattle.era_disks.specs.MemBay.{sizes_of, reads_of, bay_loans, bay_faults, SameCalls, ForgetsCalls, IsLentAnew, WontLend, CountsFault, TakesDisk};

    type D = MemDisk;

    ghost sizes = { sizes_of };

    ghost reads = { reads_of };

    ghost loans = { bay_loans };

    ghost faults = { bay_faults };

    fn size(&mut self, name: &str) -> Result<u64, BayError>
        ensures told { IfOk result (λ size. sizes_of self.new name.now ≡ Some size) }
        ensures sizes { KeepsSizes (sizes_of self.old) (sizes_of self.new) }
        ensures reads { SameReads (reads_of self.old) (reads_of self.new) }
        ensures loans { bay_loans self.new ≡ bay_loans self.old }
        ensures cause { CountsFault self.old self.new result }
        ensures refused { IsErrOf result BayError.Failed ↔ (NextFails self.old.calls.sizes
            ⊎ (sizes_of self.old name.now ≡ None)) }
        ensures never { IsErrOf result BayError.Memory → ⊥ }
        ensures calls { (self.new.calls
            ≡ record self.old.calls { sizes = one_begun self.old.calls.sizes })
            × SameCalls self.old self.new × (self.new.fuse ≡ self.old.fuse) }
    {
        if self.calls.sizes.begin() {
            return self.refuse();
        }
        match self.size_of(name) {
            Some(size) => Ok(size),
            None => self.refuse(),
        }
    }

    fn open_meta(&mut self, name: &str) -> Result<MemDisk, BayError>
        ensures lent { IfOk result (λ disk. (place_of disk
            ≡ record { device = name.now; first = 0 }) × IsLentAnew self.old name.now disk) }
        ensures whole { IfOk result (λ disk. sizes_of self.new name.now ≡ Some (sectors_of disk)) }
        ensures content { IfOk result (λ disk.
            ReadsAs (reads_of self.old) name.now 0 (sectors_of disk) (history_of disk).now) }
        ensures free { IfOk result (λ disk.
            IsFree place_of sectors_of (bay_loans self.old) name.now 0 (sectors_of disk)) }
        ensures loans { IfOk result (λ disk. bay_loans self.new ≡ bay_loans self.old
            ++ new_loan disk ∷ []) }
        ensures refused { OnErr result (bay_loans self.new ≡ bay_loans self.old)
            × (IsErrOf result BayError.Failed
            ↔ WontLend self.old.calls.metas self.old name.now 0 (λ size. size)) }
        ensures same { KeepsSizes (sizes_of self.old) (sizes_of self.new)
            × SameReads (reads_of self.old) (reads_of self.new)
            × (self.new.calls ≡ record self.old.calls { metas = one_begun self.old.calls.metas })
            × SameCalls self.old self.new × (self.new.fuse ≡ self.old.fuse) }
        ensures cause { CountsFault self.old self.new result }
    {
        if self.calls.metas.begin() {
            return self.refuse();
        }
        match find_device(self.devices.as_slice(), name) {
            Some(index) => {
                let sectors = self.devices[index].sectors();
                self.open_at(index, name, 0, sectors)
            }
            None => self.refuse(),
        }
    }

    fn open_part(&mut self, name: &str, first: u64, sectors: u64) -> Result<MemDisk, BayError>
        requires { (size : ℕ) → sizes_of self.old name.now ≡ Some size → first + sectors ≤ size }
        ensures lent { IfOk result (λ disk. (place_of disk
            ≡ record { device = name.now; first = first })
            × (sectors_of disk ≡ sectors) × IsLentAnew self.old name.now disk) }
        ensures content { IfOk result (λ disk.
            ReadsAs (reads_of self.old) name.now first sectors (history_of disk).now) }
        ensures free { OnOk result
            (IsFree place_of sectors_of (bay_loans self.old) name.now first sectors) }
        ensures loans { IfOk result (λ disk. bay_loans self.new ≡ bay_loans self.old
            ++ new_loan disk ∷ []) }
        ensures refused { OnErr result (bay_loans self.new ≡ bay_loans self.old)
            × (IsErrOf result BayError.Failed
            ↔ WontLend self.old.calls.parts self.old name.now first (λ _. sectors)) }
        ensures same { KeepsSizes (sizes_of self.old) (sizes_of self.new)
            × SameReads (reads_of self.old) (reads_of self.new)
            × (self.new.calls ≡ record self.old.calls { parts = one_begun self.old.calls.parts })
            × SameCalls self.old self.new × (self.new.fuse ≡ self.old.fuse) }
        ensures cause { CountsFault self.old self.new result }
    {
        if self.calls.parts.begin() {
            return self.refuse();
        }
        match find_device(self.devices.as_slice(), name) {
            Some(index) => self.open_at(index, name, first, sectors),
            None => self.refuse(),
        }
    }

    fn put_back(&mut self, disk: MemDisk)
        requires { (index : ℕ) × IsOut place_of sectors_of (bay_loans self.old)
            (place_of disk) (sectors_of disk) index }
        ensures loans { EndsLoan place_of sectors_of disk
            (bay_loans self.old) (bay_loans self.new) }
        ensures content { NowReadsAs (reads_of self.new) disk.device disk.first
            (sectors_of disk) (history_of disk).now }
        ensures others { SameReadsBut disk.device disk.first (sectors_of disk)
            (reads_of self.old) (reads_of self.new) }
        ensures taken { TakesDisk self.old self.new disk }
        ensures same { KeepsSizes (sizes_of self.old) (sizes_of self.new)
            × (bay_faults self.new ≡ bay_faults self.old) }
        ensures calls { ForgetsCalls disk.device self.old self.new }
        ensures fuse { LearnsFuse disk.fuse self.old.fuse self.new.fuse }
    {
        self.end_loan(&disk);
        self.take_in(disk);
    }

    fn faults(&self) -> u64 {
        self.faults
    }
}
