//! What a keeper tells: its status, and lists of blocks.

ghost use Rattle.std.specs.Prelude.{◌≡◌, false, [], ◌∷◌};
ghost use Rattle.era_model.specs.declared.event.Event.TheVariants.{Status};
ghost use Rattle.era_model.specs.declared.opening.Opening.{Opening};

use crate::keeper::Keeper;
use crate::usage::usage_within;
use era_base::{CmdId, Disk};
use era_gate::{Gate, Pass};
use era_model::{Answer, Device, Event, Kind};

impl<D: Disk> Keeper<D> {
    ghost use Rattle.era_keeper.specs.Answers.{IsStatus, StatusDid};
    ghost use Rattle.era_keeper.specs.Calls.{Drew, MayCall, MayDraw, SameKeeper, SameRest};
    ghost use Rattle.era_keeper.specs.Keepers.{KeeperFits, KeeperStands};
    ghost use Rattle.era_keeper.specs.Results.{AnswersCount};

    /// Tells the status of an era that is stored.
    fn status_stored(
        &mut self,
        gate: &Gate,
        pass: &mut Pass,
        id: CmdId,
    ) -> (u32, u64, u32, Option<u32>)
        requires may { MayDraw D.Disk 1 gate.now self.old pass.old id 1 }
        requires stored { self.old.meta.unstored ≡ false }
        ensures fits { KeeperFits D.Disk self.new }
        ensures stands { (opening : Opening) → KeeperStands D.Disk opening self.old
            → KeeperStands D.Disk opening self.new }
        ensures status { IsStatus D.Disk self.old.meta result.0 result.1 result.2 result.3 }
        ensures drew { Drew (Status id result.0 result.1 result.2 result.3 ∷ [])
            self.old self.new pass.old pass.new }
        ensures same { SameRest self.old self.new }
    {
        let (counted, total, era, held) = self.meta.status();
        let used = usage_within(&self.meta, counted);
        let event = Event::Status {
            id,
            used,
            total,
            era,
            held,
        };
        self.tell(gate, pass, id, event);
        (used, total, era, held)
    }

    /// Tells the used metadata blocks, how many there are, the present era, and the block of the snapshot's root. A `Fault`
    /// is that of the storing of an unstored era, with the disk's count of faults, which rose. It takes no memory.
    pub fn status(&mut self, gate: &Gate, pass: &mut Pass, id: CmdId) -> Answer
        requires may { MayCall D.Disk gate.now self.old pass.old id 1 }
        ensures fits { KeeperFits D.Disk self.new }
        ensures stands { (opening : Opening) → KeeperStands D.Disk opening self.old
            → KeeperStands D.Disk opening self.new }
        ensures did { StatusDid D.Disk id result self.old self.new pass.old pass.new }
        ensures same { SameKeeper D.Disk self.old self.new }
        ensures cause { AnswersCount (D.faults self.old.meta.slots.disk)
            (D.faults self.new.meta.slots.disk) result }
    {
        match self.begin(gate, pass, id, Kind::Status) {
            Ok(()) => {
                let (used, total, era, held) = self.status_stored(gate, pass, id);
                Answer::Status(used, total, era, held)
            }
            Err(count) => Answer::Fault(Device::Meta, count),
        }
    }
}
