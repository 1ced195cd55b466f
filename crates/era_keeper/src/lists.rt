//! How a keeper lists blocks. This alone of its calls takes memory.

ghost use Rattle.std.specs.Prelude.{◌≡◌, false, IfOk};
ghost use Rattle.era_model.specs.declared.opening.Opening.{Opening};

use crate::keeper::Keeper;
use era_base::{CmdId, Disk, Memory, Runs};
use era_gate::{Gate, Pass};
use era_model::{Answer, Device, Event, Kind, Why};
use std::alloc::Global;

/// The same runs once more.
fn copy_runs(alloc: Global, runs: &Runs) -> Result<Runs, Memory>
    ensures { IfOk result (λ copy. copy ≡ runs.now) }
{
    let mut copy = Runs::new(alloc);
    for run in runs.as_slice() {
        copy.push(run.0, run.1)?;
    }
    Ok(copy)
}

impl<D: Disk> Keeper<D> {
    ghost use Rattle.era_keeper.specs.Answers.{CanList, ListDid, ListsSince};
    ghost use Rattle.era_keeper.specs.Calls.{MayCall, MayDraw, SameKeeper};
    ghost use Rattle.era_keeper.specs.InStoredEra.{ListWent};
    ghost use Rattle.era_keeper.specs.Keepers.{KeeperFits, KeeperStands};
    ghost use Rattle.era_keeper.specs.Results.{AnswersCount};

    /// The blocks since an era, by the marks or by the snapshot.
    fn since(&self, alloc: Global, since: u32, snap: bool) -> Result<Runs, Memory>
        requires { CanList snap self.now }
        ensures { IfOk result (ListsSince self.now since snap) }
    {
        if snap {
            self.meta.snap_since(alloc, since)
        } else {
            self.meta.since(alloc, since)
        }
    }

    /// The same blocks twice: for the entry, and for the answer.
    fn since_twice(&self, alloc: Global, since: u32, snap: bool) -> Result<(Runs, Runs), Memory>
        requires { CanList snap self.now }
        ensures { IfOk result (λ runs. (runs.0 ≡ runs.1)
            × ListsSince self.now since snap runs.1) }
    {
        let runs = self.since(alloc, since, snap)?;
        let copy = copy_runs(alloc, &runs)?;
        Ok((copy, runs))
    }

    /// Lists blocks in an era that is stored, by the snapshot only where one is held.
    fn list_stored(
        &mut self,
        alloc: Global,
        gate: &Gate,
        pass: &mut Pass,
        id: CmdId,
        since: u32,
        snap: bool,
    ) -> Answer
        requires may { MayDraw D.Disk 1 gate.now self.old pass.old id 1 }
        requires can { CanList snap self.old }
        requires stored { self.old.meta.unstored ≡ false }
        ensures fits { KeeperFits D.Disk self.new }
        ensures stands { (opening : Opening) → KeeperStands D.Disk opening self.old
            → KeeperStands D.Disk opening self.new }
        ensures went { ListWent id since snap result self.old self.new pass.old pass.new }
        ensures same { SameKeeper D.Disk self.old self.new }
        ensures cause { AnswersCount (D.faults self.old.meta.slots.disk)
            (D.faults self.new.meta.slots.disk) result }
    {
        match self.since_twice(alloc, since, snap) {
            Ok((blocks, runs)) => {
                let event = Event::List {
                    id,
                    since,
                    snap,
                    blocks,
                };
                self.tell(gate, pass, id, event);
                Answer::Blocks(runs)
            }
            Err(_) => {
                let kind = Kind::List;
                let why = Why::Memory;
                self.tell(gate, pass, id, Event::Refused { id, kind, why });
                Answer::Memory
            }
        }
    }

    /// Lists the blocks since an era, by the marks, or by the snapshot as `snap` asks. `NoSnap` comes exactly where the
    /// snapshot is asked for and none is held. A `Fault` is that of the storing of an unstored era, with the disk's count of
    /// faults, which rose. It takes memory for the runs alone, twice, and `Memory` comes where that is refused. Each answer
    /// but `Blocks` draws the refusal.
    pub fn list(
        &mut self,
        alloc: Global,
        gate: &Gate,
        pass: &mut Pass,
        id: CmdId,
        since: u32,
        snap: bool,
    ) -> Answer
        requires may { MayCall D.Disk gate.now self.old pass.old id 1 }
        ensures fits { KeeperFits D.Disk self.new }
        ensures stands { (opening : Opening) → KeeperStands D.Disk opening self.old
            → KeeperStands D.Disk opening self.new }
        ensures did { ListDid D.Disk id since snap result self.old self.new pass.old pass.new }
        ensures same { SameKeeper D.Disk self.old self.new }
        ensures cause { AnswersCount (D.faults self.old.meta.slots.disk)
            (D.faults self.new.meta.slots.disk) result }
    {
        if snap && !self.meta.held() {
            let kind = Kind::List;
            let why = Why::NoSnap;
            self.tell(gate, pass, id, Event::Refused { id, kind, why });
            return Answer::NoSnap;
        }
        match self.begin(gate, pass, id, Kind::List) {
            Ok(()) => self.list_stored(alloc, gate, pass, id, since, snap),
            Err(count) => Answer::Fault(Device::Meta, count),
        }
    }
}
