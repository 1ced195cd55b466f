//! How a keeper digests archived sets: the commit of a step, and then the draw.

ghost use Rattle.std.specs.Prelude.{◌≡◌, false};
ghost use Rattle.era_model.specs.declared.opening.Opening.{Opening};

use crate::keeper::Keeper;
use era_base::{CmdId, Disk};
use era_gate::{Gate, Pass};
use era_model::{Answer, Device, Event, Kind, Why, digest_keeps_last_eras};

impl<D: Disk> Keeper<D> {
    ghost use Rattle.era_keeper.specs.Calls.{MayCall, MayDraw, SameKeeper};
    ghost use Rattle.era_keeper.specs.InStoredEra.{DigestWent};
    ghost use Rattle.era_keeper.specs.Keepers.{KeeperFits, KeeperStands};
    ghost use Rattle.era_keeper.specs.Results.{AnswersCount, DigestDid};

    /// Makes a digest step by one commit, in an era that is stored.
    fn digest_stored(&mut self, gate: &Gate, pass: &mut Pass, id: CmdId) -> Answer
        requires may { MayDraw D.Disk 1 gate.now self.old pass.old id 1 }
        requires stored { self.old.meta.unstored ≡ false }
        ensures fits { KeeperFits D.Disk self.new }
        ensures stands { (opening : Opening) → KeeperStands D.Disk opening self.old
            → KeeperStands D.Disk opening self.new }
        ensures went { DigestWent D.Disk id result self.old self.new pass.old pass.new }
        ensures same { SameKeeper D.Disk self.old self.new }
        ensures cause { AnswersCount (D.faults self.old.meta.slots.disk)
            (D.faults self.new.meta.slots.disk) result }
    {
        self.meta.marks.are_valid();
        digest_keeps_last_eras();
        let kind = Kind::Digest;
        match self.meta.digest_step() {
            Ok(None) => {
                let why = Why::Idle;
                self.tell(gate, pass, id, Event::Refused { id, kind, why });
                Answer::Idle
            }
            Ok(Some((era, page))) => {
                self.meta.crashes_now();
                self.note(gate, pass, Event::Digest { id, era, page });
                Answer::Digest(era, page)
            }
            Err(count) => {
                self.meta.crashes_now();
                let why = Why::MetaFault(count);
                self.note(gate, pass, Event::Refused { id, kind, why });
                Answer::Fault(Device::Meta, count)
            }
        }
    }

    /// Works on the oldest archived set by one commit: it transcribes the least page of the era array that has a block of
    /// the set with another era as its entry, or drops the set where there is none, and draws the set's era and the page, or
    /// the era alone. `Idle` comes exactly where no set is archived. A `Fault` tells the disk's count of faults, which rose:
    /// of the storing of an unstored era before all this, or of the step's commit; then some set is archived, and the marks
    /// are as before. Each answer but `Digest` draws the refusal. It takes no memory.
    pub fn digest(&mut self, gate: &Gate, pass: &mut Pass, id: CmdId) -> Answer
        requires may { MayCall D.Disk gate.now self.old pass.old id 1 }
        ensures fits { KeeperFits D.Disk self.new }
        ensures stands { (opening : Opening) → KeeperStands D.Disk opening self.old
            → KeeperStands D.Disk opening self.new }
        ensures did { DigestDid D.Disk id result self.old self.new pass.old pass.new }
        ensures same { SameKeeper D.Disk self.old self.new }
        ensures cause { AnswersCount (D.faults self.old.meta.slots.disk)
            (D.faults self.new.meta.slots.disk) result }
    {
        match self.begin(gate, pass, id, Kind::Digest) {
            Ok(()) => self.digest_stored(gate, pass, id),
            Err(count) => Answer::Fault(Device::Meta, count),
        }
    }
}
