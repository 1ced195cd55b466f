//! A device of a bay in memory.

ghost use Rattle.std.specs.Prelude.{◌≡◌, ◌≢◌, [], ◌∷◌, ◌++◌, ◌+◌, ◌≤◌, length, take, drop, position, Some, None, IfSome, IfNone, IfOk, OnOk, OnErr};
ghost use Rattle.era_disks.specs.Devices.{IsFoundAt, device_of, has_name};
ghost use Rattle.era_disks.specs.DiskCalls.{no_disk_calls, also_failing_call, restarted_calls};
ghost use Rattle.era_disks.specs.MemDisk.{place_of, sectors_of, faults_of, starved_of, HasNewRecord};
ghost use Rattle.era_disks.specs.MemParts.{IsPartOf, TakesPart};
ghost use Rattle.era_disks.specs.Crashed.{Crashes};
ghost use Rattle.era_disks.specs.Rows.{bytes_of};

use crate::disk_calls::{DiskCall, DiskCalls};
use crate::fuse::FuseEnd;
use crate::mem_disk::MemDisk;
use crate::mem_state::MemState;
use crate::rows::{append_row, copy_kept, copy_rows};
use crate::tear::Tear;
use era_base::{Bytes, Memory, Name};
use std::alloc::Global;

/// A device by name: its sectors, and the calls that fail of each disk of it that is lent.
#[derive(Drop)]
pub struct Device {
    pub name: Name,
    pub state: MemState,
    pub calls: DiskCalls,
}

impl Device {
    /// Copies `sectors` sectors from sector `first` on into a disk with this end of a fuse, if any.
    pub fn lend(
        &self,
        alloc: Global,
        first: u64,
        sectors: u64,
        fuse: Option<FuseEnd>,
    ) -> Result<MemDisk, Memory>
        requires { first + sectors ≤ length self.now.state.rows.items }
        ensures place { IfOk result (λ disk. place_of disk
            ≡ record { device = self.now.name; first = first }) }
        ensures part { IfOk result (λ disk. IsPartOf first sectors self.now.state disk.state) }
        ensures size { IfOk result (λ disk. sectors_of disk ≡ sectors) }
        ensures calls { IfOk result (λ disk. disk.calls ≡ restarted_calls self.now.calls) }
        ensures fresh { IfOk result (λ disk. (faults_of disk ≡ 0) × (starved_of disk ≡ 0)
            × HasNewRecord disk) }
        ensures fuse { IfOk result (λ disk. disk.fuse ≡ fuse) }
    {
        let from = first as usize;
        let to = from + sectors as usize;
        let device = Name::from_text(alloc, self.name.as_str())?;
        let rows = copy_rows(alloc, &self.state.rows[from..to])?;
        let pending = Vec::from_slice(alloc, &self.state.pending[from..to])?;
        let calls = self.calls.restart(alloc)?;
        let kept = copy_kept(alloc, &self.state.kept[from..to])?;
        let state = MemState {
            rows,
            pending,
            kept,
        };
        Ok(MemDisk::of(alloc, device, first, state, calls, fuse))
    }

    /// The number of sectors.
    pub fn sectors(&self) -> u64
        ensures { result ≡ length self.now.state.rows.items }
    {
        self.state.rows.len() as u64
    }

    /// From now on the call of this kind with this number fails of each disk that is lent, until a disk is put back.
    pub fn fail(&mut self, call: DiskCall, number: u64) -> Result<(), Memory>
        ensures ok { OnOk result (self.new.calls ≡ also_failing_call call number self.old.calls) }
        ensures err { OnErr result (self.new.calls ≡ self.old.calls) }
        ensures name { self.new.name ≡ self.old.name }
        ensures rows { self.new.state.rows.items ≡ self.old.state.rows.items }
    {
        self.calls.fail(call, number)
    }

    /// Becomes one of its crash images.
    pub fn crash(&mut self, alloc: Global, tear: Tear) -> Result<(), Memory>
        ensures torn { Crashes tear self.old.state self.new.state result }
        ensures size { length self.new.state.rows.items ≡ length self.old.state.rows.items }
        ensures rest { (self.new.name ≡ self.old.name) × (self.new.calls ≡ self.old.calls) }
    {
        self.state.crash(alloc, tear)
    }

    /// All bytes of the device.
    pub fn content(&self, alloc: Global) -> Result<Bytes, Memory>
        ensures { IfOk result (λ bytes. bytes ≡ bytes_of self.now.state.rows.items) }
    {
        let rows = self.state.rows.as_slice();
        let mut bytes = Vec::new(alloc);
        for row in rows {
            append_row(&mut bytes, row)?;
        }
        Ok(Bytes::from_vec(bytes))
    }

    /// Takes the sectors of a lent disk back, and forgets the calls that fail. It takes no memory.
    pub fn take_back(&mut self, first: usize, mut state: MemState)
        requires { first + length state.rows.items ≤ length self.old.state.rows.items }
        ensures name { self.new.name ≡ self.old.name }
        ensures calls { self.new.calls ≡ no_disk_calls }
        ensures part { TakesPart first state self.old.state self.new.state }
    {
        let sectors = state.rows.len();
        self.state.rows[first..first + sectors].swap_with_slice(state.rows.as_mut_slice());
        self.state.pending[first..first + sectors].copy_from_slice(state.pending.as_slice());
        self.state.kept[first..first + sectors].swap_with_slice(state.kept.as_mut_slice());
        self.calls.clear();
    }
}

/// The index of the first device with a name.
pub fn find_device(devices: &[Device], name: &str) -> Option<usize>
    ensures some { IfSome result (λ index. IsFoundAt devices.now name.now index) }
    ensures none { IfNone result (device_of devices.now name.now ≡ None) }
{
    match position_of(devices, name) {
        Some(index) => Some(index),
        None => None,
    }
}

/// The index of the first device with a name.
fn position_of(devices: &[Device], name: &str) -> Option<usize>
    ensures { result ≡ position (has_name name.now) devices.now }
{
    devices
        .iter()
        .position(|device| device.name.as_str() == name)
}
