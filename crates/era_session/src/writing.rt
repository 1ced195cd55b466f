//! How a session writes: an earlier write is resolved, the block is marked, and only then its bytes
//! are written.

ghost use Rattle.std.specs.Prelude.{◌≡◌, ◌≤◌, ◌/◌, ◌%◌, false, length};
ghost use Rattle.era_base.specs.Faults.{HasCount};
ghost use Rattle.era_gate.specs.Calls.{has_gone};
ghost use Rattle.era_model.specs.declared.opening.Opening.{Opening};
ghost use Rattle.era_session.specs.Desks.{AnswersCounts, DeskFits, DeskStands, SameDesk, desk};
ghost use Rattle.era_session.specs.Marking.{AfterMarking, MarkingDrew, MayMark};
ghost use Rattle.era_session.specs.Writes.{HasAsked, MayWrite, WriteDrew, WriteWent};

use crate::session::Session;
use era_base::{CmdId, Disk};
use era_gate::{Gate, Pass};
use era_keeper::Keeper;
use era_model::{Answer, Device};
use era_notes::Room;
use era_stripe::Stripe;

/// Enters the gate, and asks the keeper for the block's mark of the present era. At Ok the block
/// has it, and the stripe is inside and has seen it. The error is the metadata disk's count of
/// faults, which rose: then the stripe has left the gate.
fn mark_block<D: Disk>(
    gate: &Gate,
    keeper: &mut Keeper<D>,
    stripe: &mut Stripe<D>,
    pass: &mut Pass,
    id: CmdId,
    block: u32,
) -> Result<(), u64>
    requires may { MayMark D.Disk gate.now (desk stripe.old keeper.old pass.old) id block }
    ensures after { AfterMarking D.Disk gate.now block result
        (desk stripe.new keeper.new pass.new) }
    ensures stands { (opening : Opening)
        → DeskStands D.Disk opening (desk stripe.old keeper.old pass.old)
        → DeskStands D.Disk opening (desk stripe.new keeper.new pass.new) }
    ensures asked { HasAsked D.Disk id block result
        (desk stripe.old keeper.old pass.old) (desk stripe.new keeper.new pass.new) }
    ensures drew { MarkingDrew id block result
        (desk stripe.old keeper.old pass.old) (desk stripe.new keeper.new pass.new) }
    ensures same { SameDesk D.Disk
        (desk stripe.old keeper.old pass.old) (desk stripe.new keeper.new pass.new) }
    ensures cause { HasCount (D.faults keeper.old.meta.slots.disk)
        (D.faults keeper.new.meta.slots.disk) result }
{
    stripe.enter(gate, pass, id);
    match keeper.mark_for(gate, pass, id, block) {
        Ok(()) => {
            stripe.be_shown(gate, &mut keeper.seat, block);
            Ok(())
        }
        Err(count) => {
            stripe.leave(gate, pass);
            Err(count)
        }
    }
}

/// Writes whole sectors of a block of the stripe, from the block's sector `first` on. First an
/// earlier write whose outcome isn't known is resolved, then the block is marked, and only then the
/// bytes are written and synced. `Fine` says that they are durable. A `Fault` of the metadata disk
/// says that the block got no mark, and nothing was written; one of the data device that an earlier
/// write couldn't be resolved, and nothing was written, or that the write is cut. It tells the
/// device's count of faults, which rose. It takes no memory.
fn write_block<D: Disk>(
    gate: &Gate,
    keeper: &mut Keeper<D>,
    stripe: &mut Stripe<D>,
    pass: &mut Pass,
    id: CmdId,
    block: u32,
    first: u32,
    bytes: &[u8],
) -> Answer
    requires may { MayWrite D.Disk gate.now (desk stripe.old keeper.old pass.old) id block first
        (length bytes.now) }
    ensures fits { DeskFits D.Disk gate.now (desk stripe.new keeper.new pass.new) }
    ensures stands { (opening : Opening)
        → DeskStands D.Disk opening (desk stripe.old keeper.old pass.old)
        → DeskStands D.Disk opening (desk stripe.new keeper.new pass.new) }
    ensures went { WriteWent D.Disk id block first bytes.now result
        (desk stripe.old keeper.old pass.old) (desk stripe.new keeper.new pass.new) }
    ensures drew { WriteDrew id block first bytes.now result
        (desk stripe.old keeper.old pass.old) (desk stripe.new keeper.new pass.new) }
    ensures same { SameDesk D.Disk
        (desk stripe.old keeper.old pass.old) (desk stripe.new keeper.new pass.new) }
    ensures cause { AnswersCounts D.Disk result
        (desk stripe.old keeper.old pass.old) (desk stripe.new keeper.new pass.new) }
{
    if let Err(count) = stripe.settle(gate, pass, id) {
        stripe.refuse(gate, pass, id, count);
        return Answer::Fault(Device::Data, count);
    }
    if let Err(count) = mark_block(gate, keeper, stripe, pass, id, block) {
        return Answer::Fault(Device::Meta, count);
    }
    match stripe.write_seen(gate, pass, id, block, first, bytes) {
        Ok(()) => Answer::Fine,
        Err(count) => Answer::Fault(Device::Data, count),
    }
}

impl<D: Disk> Session<D> {
    ghost use Rattle.era_session.specs.AtStripes.{WriteDid, session_place};
    ghost use Rattle.era_session.specs.Sessions.{DrawsAtMost, MayCommand, SameSession, SessionFits, SessionStands};
    ghost use Rattle.era_stripe.specs.Results.{only};

    /// Writes whole sectors from `sector` of the origin on. `marking` is the command's room at the
    /// keeper, and `room` that at the stripe, with as many bytes. Where the sectors lie in no one
    /// block of the origin the answer is `Range`, and nothing was done. Otherwise the write goes
    /// through at the stripe of its block: `Fine` says that the bytes are durable and the block is
    /// marked, and a `Fault` tells the count of the device that failed, which rose. It takes no
    /// memory and waits for nobody.
    pub fn write(
        &mut self,
        marking: Room,
        room: Room,
        id: CmdId,
        sector: u64,
        bytes: &[u8],
    ) -> Answer
        requires may { MayCommand D.Disk self.old id }
        requires once { has_gone id self.old.pass.part.lanes ≡ false }
        requires bytes { (length bytes.now ≤ room) × (length bytes.now % 512 ≡ 0) }
        ensures fits { SessionFits D.Disk self.new }
        ensures stands { (opening : Opening) → SessionStands D.Disk opening self.old
            → SessionStands D.Disk opening self.new }
        ensures did { WriteDid D.Disk (session_place self.old sector (length bytes.now / 512)) id
            bytes.now result self.old self.new }
        ensures keeps { DrawsAtMost 24 (only id) self.old.pass self.new.pass }
        ensures same { SameSession D.Disk self.old self.new }
    {
        let Some((block, first)) = self.geometry.place_of(sector, (bytes.len() / 512) as u64) else {
            return Answer::Range;
        };
        self.keeper.admit(marking);
        let stripe = &mut self.stripes[(block / self.each) as usize];
        stripe.admit(room);
        write_block(
            &self.gate,
            &mut self.keeper,
            stripe,
            &mut self.pass,
            id,
            block,
            first,
            bytes,
        )
    }
}
