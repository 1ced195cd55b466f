//! How a keeper takes a snapshot and drops it: the commit, and then the draw.

ghost use Rattle.std.specs.Prelude.{◌≡◌, true, false};
ghost use Rattle.era_model.specs.declared.opening.Opening.{Opening};

use crate::keeper::Keeper;
use era_base::{CmdId, Disk};
use era_gate::{Gate, Pass};
use era_model::{Answer, Device, Event, Kind, Why};

/// The metadata block in which the snapshot's root stands.
const HELD_BLOCK: u32 = 2;

impl<D: Disk> Keeper<D> {
    ghost use Rattle.era_keeper.specs.Calls.{MayCall, MayDraw, SameKeeper};
    ghost use Rattle.era_keeper.specs.InStoredEra.{SnapWent, UnsnapWent};
    ghost use Rattle.era_keeper.specs.Keepers.{KeeperFits, KeeperStands};
    ghost use Rattle.era_keeper.specs.Results.{AnswersCount};
    ghost use Rattle.era_keeper.specs.SnapshotResults.{SnapDid, UnsnapDid};

    /// Takes a snapshot by one commit, in an era that is stored and where none is held.
    fn snap_stored(&mut self, gate: &Gate, pass: &mut Pass, id: CmdId) -> Answer
        requires may { MayDraw D.Disk 1 gate.now self.old pass.old id 1 }
        requires none { self.old.meta.snapshot.is_held ≡ false }
        requires stored { self.old.meta.unstored ≡ false }
        ensures fits { KeeperFits D.Disk self.new }
        ensures stands { (opening : Opening) → KeeperStands D.Disk opening self.old
            → KeeperStands D.Disk opening self.new }
        ensures went { SnapWent D.Disk id result self.old self.new pass.old pass.new }
        ensures same { SameKeeper D.Disk self.old self.new }
        ensures cause { AnswersCount (D.faults self.old.meta.slots.disk)
            (D.faults self.new.meta.slots.disk) result }
    {
        match self.meta.take_snap() {
            Ok(()) => {
                self.meta.crashes_now();
                let block = HELD_BLOCK;
                self.note(gate, pass, Event::Snap { id, block });
                Answer::Snap(block)
            }
            Err(count) => {
                self.meta.crashes_now();
                let kind = Kind::TakeSnap;
                let why = Why::MetaFault(count);
                self.note(gate, pass, Event::Refused { id, kind, why });
                Answer::Fault(Device::Meta, count)
            }
        }
    }

    /// Takes a snapshot of the marks, at metadata block 2, and draws it. `Held` with that block comes exactly where one is
    /// held; then nothing was done. A `Fault` tells the disk's count of faults, which rose: of the storing of an unstored
    /// era before all this, or of the snapshot's commit; then none is held. Each answer but `Snap` draws the refusal. It
    /// takes no memory.
    pub fn snap(&mut self, gate: &Gate, pass: &mut Pass, id: CmdId) -> Answer
        requires may { MayCall D.Disk gate.now self.old pass.old id 1 }
        ensures fits { KeeperFits D.Disk self.new }
        ensures stands { (opening : Opening) → KeeperStands D.Disk opening self.old
            → KeeperStands D.Disk opening self.new }
        ensures did { SnapDid D.Disk id result self.old self.new pass.old pass.new }
        ensures same { SameKeeper D.Disk self.old self.new }
        ensures cause { AnswersCount (D.faults self.old.meta.slots.disk)
            (D.faults self.new.meta.slots.disk) result }
    {
        if self.meta.held() {
            let kind = Kind::TakeSnap;
            let why = Why::Held(HELD_BLOCK);
            self.tell(gate, pass, id, Event::Refused { id, kind, why });
            return Answer::Held(HELD_BLOCK);
        }
        match self.begin(gate, pass, id, Kind::TakeSnap) {
            Ok(()) => self.snap_stored(gate, pass, id),
            Err(count) => Answer::Fault(Device::Meta, count),
        }
    }

    /// Drops the snapshot by one commit, in an era that is stored and where one is held.
    fn unsnap_stored(&mut self, gate: &Gate, pass: &mut Pass, id: CmdId) -> Answer
        requires may { MayDraw D.Disk 1 gate.now self.old pass.old id 1 }
        requires held { self.old.meta.snapshot.is_held ≡ true }
        requires stored { self.old.meta.unstored ≡ false }
        ensures fits { KeeperFits D.Disk self.new }
        ensures stands { (opening : Opening) → KeeperStands D.Disk opening self.old
            → KeeperStands D.Disk opening self.new }
        ensures went { UnsnapWent D.Disk id result self.old self.new pass.old pass.new }
        ensures same { SameKeeper D.Disk self.old self.new }
        ensures cause { AnswersCount (D.faults self.old.meta.slots.disk)
            (D.faults self.new.meta.slots.disk) result }
    {
        match self.meta.drop_snap() {
            Ok(()) => {
                self.meta.crashes_now();
                self.note(gate, pass, Event::Dropped { id });
                Answer::Fine
            }
            Err(count) => {
                self.meta.crashes_now();
                let kind = Kind::DropSnap;
                let why = Why::MetaFault(count);
                self.note(gate, pass, Event::Refused { id, kind, why });
                Answer::Fault(Device::Meta, count)
            }
        }
    }

    /// Drops the snapshot, and draws that. `NoSnap` comes exactly where none is held; then nothing was done. A `Fault` tells
    /// the disk's count of faults, which rose: of the storing of an unstored era before all this, or of the commit without
    /// the snapshot; then it is held as before. Each answer but `Fine` draws the refusal. It takes no memory.
    pub fn unsnap(&mut self, gate: &Gate, pass: &mut Pass, id: CmdId) -> Answer
        requires may { MayCall D.Disk gate.now self.old pass.old id 1 }
        ensures fits { KeeperFits D.Disk self.new }
        ensures stands { (opening : Opening) → KeeperStands D.Disk opening self.old
            → KeeperStands D.Disk opening self.new }
        ensures did { UnsnapDid D.Disk id result self.old self.new pass.old pass.new }
        ensures same { SameKeeper D.Disk self.old self.new }
        ensures cause { AnswersCount (D.faults self.old.meta.slots.disk)
            (D.faults self.new.meta.slots.disk) result }
    {
        if !self.meta.held() {
            let kind = Kind::DropSnap;
            let why = Why::NoSnap;
            self.tell(gate, pass, id, Event::Refused { id, kind, why });
            return Answer::NoSnap;
        }
        match self.begin(gate, pass, id, Kind::DropSnap) {
            Ok(()) => self.unsnap_stored(gate, pass, id),
            Err(count) => Answer::Fault(Device::Meta, count),
        }
    }
}
