//! How a keeper marks a block: the request, the commit, the draw of the mark, and the bit.

ghost use Rattle.std.specs.Prelude.{◌≡◌, ◌<◌, true, false, OnOk};
ghost use Rattle.era_base.specs.Faults.{HasCount};
ghost use Rattle.era_base.specs.Flags.{has};
ghost use Rattle.era_gate.specs.Calls.{has_mark};
ghost use Rattle.era_model.specs.Marks.{blocks_of_marks, marks_last_era};
ghost use Rattle.era_model.specs.declared.opening.Opening.{Opening};

use crate::keeper::Keeper;
use era_base::{CmdId, Disk};
use era_gate::{Gate, Pass};
use era_model::{Event, Kind, Why, last_eras_are_bounded, mark_gives_last_era};

impl<D: Disk> Keeper<D> {
    ghost use Rattle.era_keeper.specs.Calls.{MayCall, MayDraw, SameKeeper};
    ghost use Rattle.era_keeper.specs.Keepers.{KeeperFits, KeeperStands};
    ghost use Rattle.era_keeper.specs.Results.{MarkDid, MarkWent};

    /// Marks a block that has no mark in the present era, which is stored: it draws the request, stores the mark by one
    /// commit, and draws the mark, or the refusal.
    fn mark_stored(
        &mut self,
        gate: &Gate,
        pass: &mut Pass,
        id: CmdId,
        block: u32,
    ) -> Result<(), u64>
        requires may { MayDraw D.Disk 1 gate.now self.old pass.old id 2 }
        requires block { (block < blocks_of_marks self.old.meta.marks)
            × (has self.old.meta.marks.current block ≡ false) }
        requires stored { self.old.meta.unstored ≡ false }
        ensures fits { KeeperFits D.Disk self.new }
        ensures stands { (opening : Opening) → KeeperStands D.Disk opening self.old
            → KeeperStands D.Disk opening self.new }
        ensures went { MarkWent D.Disk id block result self.old self.new pass.old pass.new }
        ensures same { SameKeeper D.Disk self.old self.new }
        ensures cause { HasCount (D.faults self.old.meta.slots.disk)
            (D.faults self.new.meta.slots.disk) result }
    {
        self.meta.marks.are_valid();
        mark_gives_last_era();
        last_eras_are_bounded();
        let era = self.meta.marks.era();
        self.tell(gate, pass, id, Event::Tried { id, block, era });
        match self.meta.mark(block) {
            Ok(()) => {
                self.meta.crashes_now();
                self.note(gate, pass, Event::Mark { id, block, era });
                Ok(())
            }
            Err(count) => {
                self.meta.crashes_now();
                let kind = Kind::Write;
                let why = Why::MetaFault(count);
                self.note(gate, pass, Event::Refused { id, kind, why });
                Err(count)
            }
        }
    }

    /// Marks a block that has no mark in the present era: an era that is unstored is stored first, and where that fails
    /// the refusal is drawn.
    fn mark_unmarked(
        &mut self,
        gate: &Gate,
        pass: &mut Pass,
        id: CmdId,
        block: u32,
    ) -> Result<(), u64>
        requires may { MayCall D.Disk gate.now self.old pass.old id 2 }
        requires block { (block < blocks_of_marks self.old.meta.marks)
            × (has self.old.meta.marks.current block ≡ false) }
        ensures fits { KeeperFits D.Disk self.new }
        ensures stands { (opening : Opening) → KeeperStands D.Disk opening self.old
            → KeeperStands D.Disk opening self.new }
        ensures did { MarkDid D.Disk false id block result self.old self.new pass.old pass.new }
        ensures same { SameKeeper D.Disk self.old self.new }
        ensures cause { HasCount (D.faults self.old.meta.slots.disk)
            (D.faults self.new.meta.slots.disk) result }
    {
        match self.begin(gate, pass, id, Kind::Write) {
            Ok(()) => self.mark_stored(gate, pass, id, block),
            Err(count) => Err(count),
        }
    }

    /// Sets the bit of a block that has its mark of the present era.
    fn set_bit(&mut self, gate: &Gate, block: u32)
        requires fits { KeeperFits D.Disk self.old }
        requires table { self.old.seat.table ≡ gate.now.table }
        requires block { block < gate.now.plan.blocks }
        requires marked { marks_last_era self.old.meta.marks block ≡ self.old.meta.marks.era }
        ensures same { self.new ≡ self.old }
        ensures marked { has_mark block self.new.seat.part.state.era
            self.new.seat.part.state.entries ≡ true }
    {
        gate.set(&mut self.seat, block);
    }

    /// Marks the block for a write of the command: where it has no mark in the present era, the mark is asked for, stored
    /// by one commit, and drawn. Then the block's bit is set. The error is the disk's count of faults, which rose; then the
    /// block has no mark, and the refusal is drawn. It takes no memory.
    pub fn mark_for(
        &mut self,
        gate: &Gate,
        pass: &mut Pass,
        id: CmdId,
        block: u32,
    ) -> Result<(), u64>
        requires may { MayCall D.Disk gate.now self.old pass.old id 2 }
        requires block { (block < gate.now.plan.blocks)
            × (block < blocks_of_marks self.old.meta.marks) }
        ensures fits { KeeperFits D.Disk self.new }
        ensures stands { (opening : Opening) → KeeperStands D.Disk opening self.old
            → KeeperStands D.Disk opening self.new }
        ensures did { MarkDid D.Disk (has self.old.meta.marks.current block) id block result
            self.old self.new pass.old pass.new }
        ensures marked { OnOk result (has_mark block self.new.seat.part.state.era
            self.new.seat.part.state.entries ≡ true) }
        ensures same { SameKeeper D.Disk self.old self.new }
        ensures cause { HasCount (D.faults self.old.meta.slots.disk)
            (D.faults self.new.meta.slots.disk) result }
    {
        self.meta.marks.are_valid();
        mark_gives_last_era();
        last_eras_are_bounded();
        if self.meta.marked(block) {
            self.set_bit(gate, block);
            return Ok(());
        }
        match self.mark_unmarked(gate, pass, id, block) {
            Ok(()) => {
                self.set_bit(gate, block);
                Ok(())
            }
            Err(count) => Err(count),
        }
    }
}
