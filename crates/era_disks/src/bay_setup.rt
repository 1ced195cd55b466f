//! What a bay in memory holds and how it is to fail: devices, failing calls, a fuse, and crashes.

use crate::bay_calls::BayCall;
use crate::device::{Device, find_device};
use crate::disk_calls::{DiskCall, DiskCalls};
use crate::fuse::{Fuse, FuseEnd};
use crate::mem_bay::MemBay;
use crate::mem_state::MemState;
use crate::tear::Tear;
use era_base::{Bytes, Memory, Name};
use std::alloc::Global;

impl MemBay {
    ghost use Rattle.std.specs.Prelude.{◌≡◌, ℕ, List, ◌*◌, replicate, Some, None, IfOk, IfSome, IfNone, OnOk, OnErr};
    ghost use Rattle.era_base.specs.Bay.{HasContent};
    ghost use Rattle.era_disks.specs.BayCalls.{also_failing_at};
    ghost use Rattle.era_disks.specs.DiskCalls.{no_disk_calls, also_failing_call};
    ghost use Rattle.era_disks.specs.declared.disk_calls.DiskCalls.{DiskCalls};
    ghost use Rattle.era_disks.specs.MemBay.{sizes_of, reads_of, bay_loans, bay_faults, calls_of, state_in, SameCalls, IsIdle};
    ghost use Rattle.era_disks.specs.Crashed.{Crashes};
    ghost use Rattle.era_disks.specs.Fuses.{IsUnburnt};
    ghost use Rattle.era_disks.specs.declared.mem_state.MemState.{MemState};

    /// Adds a device of zeros.
    pub fn add(&mut self, name: &str, sectors: u64) -> Result<(), Memory>
        requires { sizes_of self.old name.now ≡ None }
        ensures size { OnOk result (sizes_of self.new name.now ≡ Some sectors) }
        ensures zeros { OnOk result
            (HasContent (reads_of self.new) name.now sectors (replicate (sectors * 512) 0)) }
        ensures calls { OnOk result (calls_of self.new name.now ≡ Some no_disk_calls) }
        ensures others { (other : List ℕ) → (other ≡ name.now → ⊥)
            → (sizes_of self.new other ≡ sizes_of self.old other)
            × ((sector : ℕ) → reads_of self.new other sector ≡ reads_of self.old other sector)
            × (calls_of self.new other ≡ calls_of self.old other) }
        ensures err { OnErr result (self.new.devices.items ≡ self.old.devices.items) }
        ensures rest { (bay_loans self.new ≡ bay_loans self.old)
            × (bay_faults self.new ≡ bay_faults self.old)
            × (self.new.calls ≡ self.old.calls) × (self.new.fuse ≡ self.old.fuse) }
    {
        let device = Device {
            name: Name::from_text(self.alloc, name)?,
            state: MemState::new(self.alloc, sectors as usize)?,
            calls: DiskCalls::new(self.alloc),
        };
        self.devices.push(device)?;
        Ok(())
    }

    /// The bytes of a device that the bay holds, and `None` for any other name.
    pub fn content(&self, alloc: Global, name: &str) -> Result<Option<Bytes>, Memory>
        ensures held { IfOk result (λ held. IfSome held (λ bytes.
            (sectors : ℕ) × (sizes_of self.now name.now ≡ Some sectors)
            × HasContent (reads_of self.now) name.now sectors bytes)) }
        ensures none { IfOk result (λ held. IfNone held (sizes_of self.now name.now ≡ None)) }
    {
        match find_device(self.devices.as_slice(), name) {
            Some(index) => Ok(Some(self.devices[index].content(alloc)?)),
            None => Ok(None),
        }
    }

    /// From now on the call of the bay of this kind with this number fails. Each kind is counted from 0.
    pub fn fail(&mut self, call: BayCall, number: u64) -> Result<(), Memory>
        ensures ok { OnOk result (self.new
            ≡ record self.old { calls = also_failing_at call number self.old.calls }) }
        ensures err { OnErr result (self.new ≡ self.old) }
    {
        self.calls.fail(call, number)
    }

    /// From now on, until a disk of the device is put back, the call of this kind with this number fails in each disk
    /// of it that is lent. Each kind of calls of a disk is counted from 0. A name that the bay doesn't hold changes nothing.
    pub fn fail_disk(&mut self, name: &str, call: DiskCall, number: u64) -> Result<(), Memory>
        ensures listed { (calls : DiskCalls) → calls_of self.old name.now ≡ Some calls
            → OnOk result (calls_of self.new name.now
            ≡ Some (also_failing_call call number calls)) }
        ensures others { (other : List ℕ) → (other ≡ name.now → ⊥)
            → calls_of self.new other ≡ calls_of self.old other }
        ensures err { OnErr result (SameCalls self.old self.new) }
        ensures sizes { (other : List ℕ) → sizes_of self.new other ≡ sizes_of self.old other }
        ensures reads { (other : List ℕ) (sector : ℕ)
            → reads_of self.new other sector ≡ reads_of self.old other sector }
        ensures rest { (bay_loans self.new ≡ bay_loans self.old)
            × (bay_faults self.new ≡ bay_faults self.old)
            × (self.new.calls ≡ self.old.calls) × (self.new.fuse ≡ self.old.fuse) }
    {
        match find_device(self.devices.as_slice(), name) {
            Some(index) => self.devices[index].fail(call, number),
            None => Ok(()),
        }
    }

    /// Puts a fuse into the bay, in place of any other, while nothing is lent. From now on each disk that is lent has
    /// it: the write that it names and every later call of all of them fail, until a crash.
    pub fn set_fuse(&mut self, fuse: Fuse) -> Result<(), Memory>
        requires idle { (name : List ℕ) → IsIdle self.old name }
        ensures ok { OnOk result ((end : FuseEnd) × (self.new ≡ record self.old { fuse = Some end })
            × IsUnburnt fuse end) }
        ensures err { OnErr result (self.new ≡ self.old) }
    {
        self.fuse = Some(FuseEnd::new(self.alloc, fuse)?);
        Ok(())
    }

    /// Turns a device into one of its crash images, and takes the fuse out of the bay. A name that the bay doesn't hold
    /// changes no device. Where memory is refused, which may be so for `Fill` alone, some of the pending sectors are
    /// torn, and all still pend.
    pub fn crash(&mut self, name: &str, tear: Tear) -> Result<(), Memory>
        requires idle { IsIdle self.old name.now }
        ensures torn { (before : MemState) → state_in self.old name.now ≡ Some before
            → (after : MemState) × (state_in self.new name.now ≡ Some after)
            × Crashes tear before after result }
        ensures sizes { (other : List ℕ) → sizes_of self.new other ≡ sizes_of self.old other }
        ensures others { (other : List ℕ) → (other ≡ name.now → ⊥)
            → state_in self.new other ≡ state_in self.old other }
        ensures rest { (bay_loans self.new ≡ bay_loans self.old)
            × (bay_faults self.new ≡ bay_faults self.old) }
        ensures calls { (self.new.calls ≡ self.old.calls) × ((other : List ℕ)
            → calls_of self.new other ≡ calls_of self.old other) }
        ensures fuse { self.new.fuse ≡ None }
    {
        self.fuse = None;
        match find_device(self.devices.as_slice(), name) {
            Some(index) => self.devices[index].crash(self.alloc, tear),
            None => Ok(()),
        }
    }
}
