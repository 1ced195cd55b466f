//! How a keeper stores an era that a failed checkpoint left unstored, and refuses what couldn't begin.

ghost use Rattle.std.specs.Prelude.{◌≡◌, true, false, OnOk, OnErr, [], ◌∷◌};
ghost use Rattle.era_base.specs.Faults.{HasCount};
ghost use Rattle.era_model.specs.declared.event.Event.TheVariants.{Refused};
ghost use Rattle.era_model.specs.declared.event.Why.TheVariants.{MetaFault};
ghost use Rattle.era_model.specs.declared.opening.Opening.{Opening};

use crate::keeper::Keeper;
use era_base::{CmdId, Disk};
use era_gate::{Gate, Pass};
use era_model::{Event, Kind, Why};

impl<D: Disk> Keeper<D> {
    ghost use Rattle.era_keeper.specs.Calls.{Drew, MayCall, MayDraw, SameKeeper, SameMemory, SameRest};
    ghost use Rattle.era_keeper.specs.Keepers.{FitsAfter, KeeperFits, KeeperStands};
    ghost use Rattle.era_keeper.specs.Steps.{IsNewCount};
    ghost use Rattle.era_keeper.specs.Storing.{BeginDid, FailsToStoreEra, HasStoredEra};

    /// Stores an era that a failed checkpoint left unstored; where there is none it does nothing. The error is the disk's
    /// count of faults, which rose; then it is unstored as before. It draws nothing and takes no memory.
    pub(crate) fn store_era(&mut self) -> Result<(), u64>
        requires fits { KeeperFits D.Disk self.old }
        ensures fits { FitsAfter D.Disk 1 self.new }
        ensures stands { (opening : Opening) → KeeperStands D.Disk opening self.old
            → KeeperStands D.Disk opening self.new }
        ensures ok { OnOk result (HasStoredEra D.Disk self.old.meta self.new.meta
            × (self.new.meta.unstored ≡ false)) }
        ensures err { OnErr result
            (FailsToStoreEra D.Disk self.old.meta.unstored self.old.meta self.new.meta
            × (self.new.meta.unstored ≡ true)) }
        ensures memory { SameMemory self.old self.new }
        ensures same { SameKeeper D.Disk self.old self.new }
        ensures cause { HasCount (D.faults self.old.meta.slots.disk)
            (D.faults self.new.meta.slots.disk) result }
    {
        if self.meta.unstored() {
            self.meta.store()?;
        }
        Ok(())
    }

    /// Draws that a command is refused, since the unstored era couldn't be stored: `count` is that of the failed storing. It
    /// makes no device call and takes no memory.
    pub(crate) fn refuse_fault(
        &mut self,
        gate: &Gate,
        pass: &mut Pass,
        id: CmdId,
        kind: Kind,
        count: u64,
    )
        requires may { MayDraw D.Disk 2 gate.now self.old pass.old id 1 }
        requires unstored { self.old.meta.unstored ≡ true }
        ensures fits { KeeperFits D.Disk self.new }
        ensures stands { (opening : Opening) → IsNewCount D.Disk self.old count
            → KeeperStands D.Disk opening self.old → KeeperStands D.Disk opening self.new }
        ensures drew { Drew (Refused id kind (MetaFault count) ∷ []) self.old self.new
            pass.old pass.new }
        ensures same { SameRest self.old self.new }
    {
        let why = Why::MetaFault(count);
        self.tell(gate, pass, id, Event::Refused { id, kind, why });
    }

    /// Begins a command: an era that is unstored is stored, and where that fails the refusal is drawn. The error is the disk's
    /// count of faults, which rose.
    pub(crate) fn begin(
        &mut self,
        gate: &Gate,
        pass: &mut Pass,
        id: CmdId,
        kind: Kind,
    ) -> Result<(), u64>
        requires may { MayCall D.Disk gate.now self.old pass.old id 1 }
        ensures did { BeginDid D.Disk id kind result self.old self.new pass.old pass.new }
        ensures stands { (opening : Opening) → KeeperStands D.Disk opening self.old
            → KeeperStands D.Disk opening self.new }
        ensures same { SameKeeper D.Disk self.old self.new }
        ensures cause { HasCount (D.faults self.old.meta.slots.disk)
            (D.faults self.new.meta.slots.disk) result }
    {
        if let Err(count) = self.store_era() {
            self.refuse_fault(gate, pass, id, kind, count);
            return Err(count);
        }
        Ok(())
    }
}
