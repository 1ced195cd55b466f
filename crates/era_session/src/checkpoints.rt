//! How a session moves its era.

ghost use Rattle.std.specs.Prelude.{◌≡◌, ◌<◌, ◌≤◌, true, length, vec_len, List};
ghost use Rattle.era_gate.specs.Passes.{no_write};
ghost use Rattle.era_keeper.specs.Results.{CheckpointDid};
ghost use Rattle.era_model.specs.declared.event.Event.{Event};
ghost use Rattle.era_model.specs.declared.opening.Opening.{Opening};
ghost use Rattle.era_notes.specs.declared.room.TheConstants.{ROOM_ENTRIES};
ghost use Rattle.era_session.specs.Checkpoints.{MaySettleAt, StripeSettled};
ghost use Rattle.era_session.specs.Receipts.{PassDrew};
ghost use Rattle.era_stripe.specs.Calls.{SameStripe};
ghost use Rattle.era_stripe.specs.Stripes.{IsAtRest, StripeFits, StripeStands};

use crate::session::Session;
use era_base::{CmdId, Disk};
use era_gate::{Gate, Pass};
use era_model::Answer;
use era_notes::Room;
use era_stripe::Stripe;

/// Resolves a stripe's cut write for a checkpoint, if there is one; where it can't be resolved it is passed over, and the
/// stripe stays inside.
fn settle_stripe<D: Disk>(
    gate: &Gate,
    stripe: &mut Stripe<D>,
    pass: &mut Pass,
    room: Room,
    by: CmdId,
)
    requires may { MaySettleAt D.Disk gate.now stripe.old pass.old by }
    ensures fits { StripeFits D.Disk stripe.new × IsAtRest stripe.new }
    ensures stands { (opening : Opening) → StripeStands D.Disk opening stripe.old
        → StripeStands D.Disk opening stripe.new }
    ensures did { (events : List Event)
        × StripeSettled D.Disk by events stripe.old stripe.new pass.old pass.new }
    ensures same { SameStripe D.Disk stripe.old stripe.new }
{
    stripe.admit(room);
    if let Err(count) = stripe.settle(gate, pass, by) {
        stripe.pass_over(gate, pass, by, count);
    }
}

impl<D: Disk> Session<D> {
    ghost use Rattle.era_session.specs.Checkpoints.{CheckpointWent, SettledAt, Settlings};
    ghost use Rattle.era_session.specs.Sessions.{DrawsAtMost, MayCommand, MayDraw, SameSession, SessionFits, SessionStands};

    /// Moves to the next era. `rooms` has a room for each stripe, and `room` is that at the keeper. First each stripe's cut
    /// write is resolved, if it has one; those that can't be are passed over. Then the keeper clears the spare bitmap and
    /// makes the one exchange. In the last era the answer is `End`; where the exchange finds stripes inside it is `Kept` with
    /// their number, and the era stays; otherwise the switch is stored by one commit, and the answer is `EraIs`. A `Fault`
    /// tells the metadata disk's count, which rose. It takes no memory and waits for nobody.
    pub fn checkpoint(&mut self, rooms: Vec<Room>, room: Room, id: CmdId) -> Answer
        requires may { MayCommand D.Disk self.old id }
        requires rooms { vec_len rooms ≡ length self.old.stripes.items }
        ensures fits { SessionFits D.Disk self.new }
        ensures stands { (opening : Opening) → SessionStands D.Disk opening self.old
            → SessionStands D.Disk opening self.new }
        ensures did { CheckpointWent D.Disk id result self.old self.new }
        ensures keeps { DrawsAtMost 24 no_write self.old.pass self.new.pass }
        ensures same { SameSession D.Disk self.old self.new }
    {
        self.settle_all(rooms, id);
        self.keeper.admit(room);
        self.keeper.checkpoint(&self.gate, &mut self.pass, id)
    }

    /// Resolves or passes over the cut write of one stripe.
    fn settle_at(&mut self, index: usize, room: Room, by: CmdId)
        requires may { MayDraw D.Disk 1 self.old by }
        requires stripe { index < length self.old.stripes.items }
        ensures fits { SessionFits D.Disk self.new }
        ensures stands { (opening : Opening) → SessionStands D.Disk opening self.old
            → SessionStands D.Disk opening self.new }
        ensures did { (events : List Event)
            × SettledAt D.Disk by index events self.old self.new }
        ensures same { SameSession D.Disk self.old self.new }
    {
        let stripe = &mut self.stripes[index];
        settle_stripe(&self.gate, stripe, &mut self.pass, room, by);
    }

    /// Resolves or passes over the cut write of each stripe, in order.
    fn settle_all(&mut self, mut rooms: Vec<Room>, by: CmdId)
        requires may { MayCommand D.Disk self.old by }
        requires rooms { vec_len rooms ≡ length self.old.stripes.items }
        ensures fits { SessionFits D.Disk self.new }
        ensures stands { (opening : Opening) → SessionStands D.Disk opening self.old
            → SessionStands D.Disk opening self.new }
        ensures did { Settlings D.Disk by (length self.old.stripes.items) self.old self.new }
        ensures same { SameSession D.Disk self.old self.new }
    {
        for index in 0..self.stripes.len() {
            let Some(room) = rooms.pop() else {
                unreachable!()
            };
            self.settle_at(index, room, by);
        }
    }
}
