//! A disk in memory. What was never written takes no data.

ghost use Rattle.std.specs.Prelude.{◌≡◌, ◌↔◌, true, false};
ghost use Rattle.era_disks.specs.CallRecord.{IsReplayed};

use crate::call_record::CallRecord;
use crate::disk_calls::{DiskCall, DiskCalls};
use crate::failure_counts::FailureCounts;
use crate::fuse::{Fuse, FuseEnd, begin_write, has_burnt};
use crate::made_call::MadeCall;
use crate::mem_state::MemState;
use crate::past::Past;
use crate::tear::Tear;
use era_base::{Disk, Failed, Memory, Name};
use std::alloc::Global;
use std::snapshot::Snapshot;

/// Sectors in memory, the place that they have, which calls fail, and which calls were made. The pending sectors are
/// those that the record of calls says, from those that were pending as it began.
#[derive(Drop)]
pub struct MemDisk {
    pub alloc: Global,
    pub device: Name,
    pub first: u64,
    pub state: MemState,
    pub past: Past,
    pub calls: DiskCalls,
    pub fuse: Option<FuseEnd>,
    pub made: CallRecord,
    pub began: Snapshot<Vec<bool>>,
    pub counts: FailureCounts,
    pub ghost replayed: { IsReplayed began.value.items made.calls.items state.pending.items },
}

impl MemDisk {
    ghost use Rattle.std.specs.Prelude.{◌≡◌, ℕ, [], Some, None, true, IfOk, OnOk, OnErr};
    ghost use Rattle.era_disks.specs.Crashed.{Crashes};
    ghost use Rattle.era_disks.specs.DiskCalls.{no_disk_calls, also_failing_call};
    ghost use Rattle.era_disks.specs.Fuses.{IsUnburnt};
    ghost use Rattle.era_disks.specs.MemDisk.{place_of, sectors_of, history_of, synced_in, past_of, faults_of, starved_of, blank_state, HasNewRecord};

    /// A whole device of zeros, of which nothing is pending. No call of it fails. Disks in memory tell of their content.
    pub fn new(alloc: Global, name: &str, sectors: u64) -> Result<MemDisk, Memory>
        ensures tells { ⟦<MemDisk as Disk>⟧.tells ≡ true }
        ensures place { IfOk result (λ disk. place_of disk
            ≡ record { device = name.now; first = 0 }) }
        ensures size { IfOk result (λ disk. sectors_of disk ≡ sectors) }
        ensures zeros { IfOk result (λ disk. history_of disk
            ≡ record { past = []; now = blank_state sectors }) }
        ensures synced { IfOk result (λ disk. synced_in disk ≡ (history_of disk).now.seen) }
        ensures counts { IfOk result (λ disk. (faults_of disk ≡ 0) × (starved_of disk ≡ 0)) }
        ensures calls { IfOk result (λ disk. (disk.calls ≡ no_disk_calls) × (disk.fuse ≡ None)) }
        ensures made { IfOk result HasNewRecord }
    {
        let device = Name::from_text(alloc, name)?;
        let state = MemState::new(alloc, sectors as usize)?;
        let calls = DiskCalls::new(alloc);
        Ok(MemDisk::of(alloc, device, 0, state, calls, None))
    }

    /// A disk of these sectors at a place, with these calls and this end of a fuse, if any. It takes no memory.
    pub fn of(
        alloc: Global,
        device: Name,
        first: u64,
        state: MemState,
        calls: DiskCalls,
        fuse: Option<FuseEnd>,
    ) -> MemDisk
        ensures place { place_of result ≡ record { device = device; first = first } }
        ensures state { result.state ≡ state }
        ensures past { past_of result.past ≡ [] }
        ensures counts { (faults_of result ≡ 0) × (starved_of result ≡ 0) }
        ensures calls { (result.calls ≡ calls) × (result.fuse ≡ fuse) }
        ensures made { HasNewRecord result }
    {
        let began = Snapshot::of(&state.pending);
        MemDisk {
            alloc,
            device,
            first,
            state,
            past: Past::Start,
            calls,
            fuse,
            made: CallRecord::new(alloc),
            began,
            counts: FailureCounts::new(),
        }
    }

    /// From now on the call of this kind with this number fails. Each kind is counted from 0.
    pub fn fail(&mut self, call: DiskCall, number: u64) -> Result<(), Memory>
        ensures ok { OnOk result (self.new
            ≡ record self.old { calls = also_failing_call call number self.old.calls }) }
        ensures err { OnErr result (self.new ≡ self.old) }
    {
        self.calls.fail(call, number)
    }

    /// Puts a fuse into this disk alone, in place of any other. The write that it names and every later call fail.
    pub fn set_fuse(&mut self, fuse: Fuse) -> Result<(), Memory>
        ensures ok { OnOk result ((end : FuseEnd) × (self.new ≡ record self.old { fuse = Some end })
            × IsUnburnt fuse end) }
        ensures err { OnErr result (self.new ≡ self.old) }
    {
        self.fuse = Some(FuseEnd::new(self.alloc, fuse)?);
        Ok(())
    }

    /// Becomes one of its crash images, as after a new start: nothing is pending, its moments and its record begin anew,
    /// and its fuse is out. Where memory is refused, which may be so for `Fill` alone, some of the pending sectors are
    /// torn, and all still pend.
    pub fn crash(&mut self, tear: Tear) -> Result<(), Memory>
        ensures torn { Crashes tear self.old.state self.new.state result }
        ensures anew { ((history_of self.new).past ≡ []) × HasNewRecord self.new
            × (self.new.fuse ≡ None) }
        ensures same { (place_of self.new ≡ place_of self.old)
            × (sectors_of self.new ≡ sectors_of self.old) }
        ensures rest { (faults_of self.new ≡ faults_of self.old)
            × (starved_of self.new ≡ starved_of self.old)
            × (self.new.calls ≡ self.old.calls) }
    {
        self.past = Past::Start;
        self.fuse = None;
        self.made.clear();
        let result = self.state.crash(self.alloc, tear);
        self.began = Snapshot::of(&self.state.pending);
        result
    }

    /// The calls that were made of it since it was made or lent, or since its last crash; the first one first.
    pub fn made(&self) -> &[MadeCall]
        ensures { result.now ≡ self.now.made.calls.items }
    {
        self.made.calls.as_slice()
    }

    /// How often memory was refused.
    pub fn starved(&self) -> u64
        ensures { result ≡ starved_of self.now }
    {
        self.counts.starved
    }
}

impl Disk for MemDisk {
    ghost use Rattle.std.specs.Prelude.{◌≡◌, ◌⊎◌, true, ◌+◌, ◌/◌, length, MatchResult};
    ghost use Rattle.era_base.specs.CrashModel.{LiesOn, IsWhole};
    ghost use Rattle.era_base.specs.Disk.{Reads, Writes, Syncs};
    ghost use Rattle.era_base.specs.Faults.{HasCause};
    ghost use Rattle.era_disks.specs.Calls.{NextFails, one_begun};
    ghost use Rattle.era_disks.specs.Fuses.{IsBurnt, KeepsFuse, PassesFuse};
    ghost use Rattle.era_disks.specs.Rows.{length-bytes_of};
    ghost use Rattle.era_disks.specs.MemDisk.{place_of, sectors_of, history_of, synced_in, faults_of, Fails, Notes};

    ghost tells = { true };

    ghost place = { place_of };

    ghost sectors = { sectors_of };

    ghost history = { history_of };

    ghost faults = { faults_of };

    fn sectors(&self) -> u64 {
        self.state.rows.len() as u64
    }

    fn read(&mut self, first: u64, into: &mut [u8]) -> Result<(), Failed>
        requires { LiesOn (sectors_of self.old) first (length into.old) }
        ensures told { Reads first into.new result (history_of self.old) (history_of self.new) }
        ensures same { (sectors_of self.new ≡ sectors_of self.old)
            × (place_of self.new ≡ place_of self.old) }
        ensures cause { HasCause (faults_of self.old) (faults_of self.new) result }
        ensures fails { Fails self.old.calls.reads self.old self.new result }
        ensures noted { Notes (MadeCall.Read first (length into.old / 512))
            self.old self.new result }
        ensures fuse { KeepsFuse self.old.fuse self.new.fuse }
        ensures calls { (self.new.calls
            ≡ record self.old.calls { reads = one_begun self.old.calls.reads })
            × (synced_in self.new ≡ synced_in self.old) }
    {
        self.past.pass(&self.state);
        let listed = self.calls.reads.begin();
        let burnt = has_burnt(&mut self.fuse);
        let Ok(()) = self.made.reserve() else {
            return Err(self.counts.starve());
        };
        let sectors = (into.len() / 512) as u64;
        let answered = answers(listed, burnt);
        self.made.add(MadeCall::Read {
            first,
            sectors,
            answered,
        });
        if !answered {
            return Err(self.counts.fail());
        }
        self.state.read(first as usize, into);
        Ok(())
    }

    fn write(&mut self, first: u64, bytes: &[u8]) -> Result<(), Failed>
        requires { LiesOn (sectors_of self.old) first (length bytes.now) }
        ensures told { Writes first bytes.now result (history_of self.old) (history_of self.new)
            × (NextFails self.old.calls.writes ⊎ IsBurnt self.new.fuse
            → (history_of self.new).now.seen ≡ (history_of self.old).now.seen) }
        ensures same { (sectors_of self.new ≡ sectors_of self.old)
            × (place_of self.new ≡ place_of self.old) }
        ensures cause { HasCause (faults_of self.old) (faults_of self.new) result }
        ensures fails { Fails self.old.calls.writes self.old self.new result }
        ensures noted { Notes (MadeCall.Write first (length bytes.now / 512))
            self.old self.new result }
        ensures fuse { PassesFuse self.old.device (self.old.first + first)
            self.old.fuse self.new.fuse }
        ensures calls { (self.new.calls
            ≡ record self.old.calls { writes = one_begun self.old.calls.writes })
            × (synced_in self.new ≡ synced_in self.old) }
    {
        self.past.pass(&self.state);
        let listed = self.calls.writes.begin();
        let burnt = begin_write(&mut self.fuse, self.device.as_str(), self.first, first);
        let Ok(()) = self.made.reserve() else {
            return Err(self.counts.starve());
        };
        let sectors = bytes.len() / 512;
        self.state.mark(first as usize, sectors);
        if !answers(listed, burnt) {
            self.made.add(MadeCall::Write {
                first,
                sectors: sectors as u64,
                answered: false,
            });
            return Err(self.counts.fail());
        }
        let put = self.state.put(self.alloc, first as usize, bytes);
        self.made.add(MadeCall::Write {
            first,
            sectors: sectors as u64,
            answered: put.is_ok(),
        });
        match put {
            Ok(()) => Ok(()),
            Err(Memory) => Err(self.counts.starve()),
        }
    }

    fn sync(&mut self) -> Result<(), Failed>
        ensures told { Syncs result (history_of self.old) (history_of self.new) }
        ensures same { (sectors_of self.new ≡ sectors_of self.old)
            × (place_of self.new ≡ place_of self.old) }
        ensures cause { HasCause (faults_of self.old) (faults_of self.new) result }
        ensures fails { Fails self.old.calls.syncs self.old self.new result }
        ensures noted { Notes MadeCall.Sync self.old self.new result }
        ensures fuse { KeepsFuse self.old.fuse self.new.fuse }
        ensures calls { self.new.calls
            ≡ record self.old.calls { syncs = one_begun self.old.calls.syncs } }
        ensures synced { MatchResult result (λ _. synced_in self.new
            ≡ (history_of self.new).now.seen)
            (λ _. synced_in self.new ≡ synced_in self.old) }
    {
        self.past.pass(&self.state);
        let listed = self.calls.syncs.begin();
        let burnt = has_burnt(&mut self.fuse);
        let Ok(()) = self.made.reserve() else {
            return Err(self.counts.starve());
        };
        let answered = answers(listed, burnt);
        self.made.add(MadeCall::Sync { answered });
        if !answered {
            return Err(self.counts.fail());
        }
        self.state.clean();
        Ok(())
    }

    fn faults(&self) -> u64 {
        self.counts.faults
    }

    ghost whole = { λ disk told. record { bytes = length-bytes_of disk.state.rows.items; flags = disk.state.same } };
}

/// Whether a call that is listed to fail or not answers, where the fuse has burnt or not.
fn answers(listed: bool, burnt: bool) -> bool
    ensures { (result ≡ true) ↔ ((listed ≡ false) × (burnt ≡ false)) }
{
    !listed && !burnt
}
