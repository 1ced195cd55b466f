//! How a keeper moves the era: the exchange, the draw of the switch, and the commit.

ghost use Rattle.std.specs.Prelude.{◌≡◌, ◌+◌, ◌<◌, ◌≤◌, false};
ghost use Rattle.era_base.specs.Faults.{HasCount};
ghost use Rattle.era_base.specs.declared.limits.TheConstants.{LAST_ERA};
ghost use Rattle.era_model.specs.declared.opening.Opening.{Opening};

use crate::keeper::Keeper;
use era_base::{CmdId, Disk, LAST_ERA};
use era_gate::{Gate, Pass, Rolled};
use era_model::{Answer, Device, Event, Kind, Why, last_eras_are_bounded, switch_keeps_last_eras};

impl<D: Disk> Keeper<D> {
    ghost use Rattle.era_keeper.specs.Calls.{MayCall, MayDraw, SameKeeper};
    ghost use Rattle.era_keeper.specs.Keepers.{KeeperFits, KeeperStands};
    ghost use Rattle.era_keeper.specs.Results.{AnswersCount, CheckpointDid, CheckpointWent, SwitchWent};
    ghost use Rattle.era_keeper.specs.Steps.{IsMoved};

    /// Draws the switch to an era to which an exchange moved, and stores it by one commit; where that fails the refusal is
    /// drawn, and the era stands in memory alone.
    fn switch(&mut self, gate: &Gate, pass: &mut Pass, id: CmdId, era: u32) -> Result<(), u64>
        requires moved { IsMoved D.Disk gate.now self.old pass.old id era }
        ensures fits { KeeperFits D.Disk self.new }
        ensures stands { (opening : Opening) → KeeperStands D.Disk opening self.old
            → KeeperStands D.Disk opening self.new }
        ensures went { SwitchWent D.Disk id era result self.old self.new pass.old pass.new }
        ensures same { SameKeeper D.Disk self.old self.new }
        ensures cause { HasCount (D.faults self.old.meta.slots.disk)
            (D.faults self.new.meta.slots.disk) result }
    {
        self.meta.marks.are_valid();
        switch_keeps_last_eras();
        last_eras_are_bounded();
        self.meta.crashes_now();
        self.note(gate, pass, Event::Roll { id, era });
        match self.meta.roll() {
            Ok(()) => Ok(()),
            Err(count) => {
                self.meta.crashes_now();
                let kind = Kind::Checkpoint;
                let why = Why::MetaFault(count);
                self.note(gate, pass, Event::Refused { id, kind, why });
                Err(count)
            }
        }
    }

    /// Clears the spare bitmap and makes the one exchange, in an era that is stored and isn't the last one.
    fn checkpoint_stored(&mut self, gate: &Gate, pass: &mut Pass, id: CmdId) -> Answer
        requires may { MayDraw D.Disk 1 gate.now self.old pass.old id 2 }
        requires below { self.old.meta.marks.era < LAST_ERA }
        requires stored { self.old.meta.unstored ≡ false }
        ensures fits { KeeperFits D.Disk self.new }
        ensures stands { (opening : Opening) → KeeperStands D.Disk opening self.old
            → KeeperStands D.Disk opening self.new }
        ensures went { CheckpointWent D.Disk id result self.old self.new pass.old pass.new }
        ensures same { SameKeeper D.Disk self.old self.new }
        ensures cause { AnswersCount (D.faults self.old.meta.slots.disk)
            (D.faults self.new.meta.slots.disk) result }
    {
        gate.clear_spare(&mut self.seat);
        match gate.roll(&mut self.seat, pass) {
            Rolled::Moved(era) => match self.switch(gate, pass, id, era) {
                Ok(()) => Answer::EraIs(era),
                Err(count) => Answer::Fault(Device::Meta, count),
            },
            Rolled::Kept(inside) => {
                self.tell(gate, pass, id, Event::Kept { id, inside });
                Answer::Kept(inside)
            }
        }
    }

    /// Moves to the next era. In the last one the answer is `End`, and the refusal is drawn. Else the spare bitmap is cleared
    /// and one exchange made: where it finds stripes inside, the answer is `Kept` with their number; else the switch is
    /// drawn and stored by one commit. A `Fault` tells the disk's count of faults, which rose: of the storing of an unstored
    /// era before all this, or of that commit, and then the next era stands in memory alone. It takes no memory.
    pub fn checkpoint(&mut self, gate: &Gate, pass: &mut Pass, id: CmdId) -> Answer
        requires may { MayCall D.Disk gate.now self.old pass.old id 2 }
        ensures fits { KeeperFits D.Disk self.new }
        ensures stands { (opening : Opening) → KeeperStands D.Disk opening self.old
            → KeeperStands D.Disk opening self.new }
        ensures did { CheckpointDid D.Disk id result self.old self.new pass.old pass.new }
        ensures same { SameKeeper D.Disk self.old self.new }
        ensures cause { AnswersCount (D.faults self.old.meta.slots.disk)
            (D.faults self.new.meta.slots.disk) result }
    {
        if self.meta.marks.era() == LAST_ERA {
            let kind = Kind::Checkpoint;
            let why = Why::End;
            self.tell(gate, pass, id, Event::Refused { id, kind, why });
            return Answer::End;
        }
        match self.begin(gate, pass, id, Kind::Checkpoint) {
            Ok(()) => self.checkpoint_stored(gate, pass, id),
            Err(count) => Answer::Fault(Device::Meta, count),
        }
    }
}
