//! How a session reads.

ghost use Rattle.std.specs.Prelude.{◌≡◌, ◌*◌, ◌≤◌, vec_len};
ghost use Rattle.era_gate.specs.Passes.{no_write};
ghost use Rattle.era_model.specs.declared.opening.Opening.{Opening};
ghost use Rattle.era_session.specs.Reads.{BlockWasRead, MayReadBlock};
ghost use Rattle.era_session.specs.Sessions.{DrawsAtMost};
ghost use Rattle.era_stripe.specs.Calls.{SameStripe};
ghost use Rattle.era_stripe.specs.Stripes.{IsAtRest, StripeFits, StripeStands};

use crate::session::Session;
use era_base::{Bytes, CmdId, Disk};
use era_gate::{Gate, Pass};
use era_model::{Answer, Device};
use era_notes::Room;
use era_stripe::Stripe;

/// Reads `count` sectors of one block at its stripe, from `sector` of the origin on. One read is the only call of a disk. The
/// answer is `Found`, or a `Fault` with the part's count of faults, which rose.
fn read_block<D: Disk>(
    gate: &Gate,
    stripe: &mut Stripe<D>,
    pass: &mut Pass,
    room: Room,
    mut into: Vec<u8>,
    id: CmdId,
    sector: u64,
    count: u32,
) -> Answer
    requires may { MayReadBlock D.Disk gate.now stripe.old pass.old id sector count }
    requires memory { (count * 512 ≤ vec_len into) × (count * 512 ≤ room) }
    ensures fits { StripeFits D.Disk stripe.new × IsAtRest stripe.new }
    ensures stands { (opening : Opening) → StripeStands D.Disk opening stripe.old
        → StripeStands D.Disk opening stripe.new }
    ensures did { BlockWasRead D.Disk id sector count result stripe.old stripe.new pass.old
        pass.new }
    ensures keeps { DrawsAtMost 1 no_write pass.old pass.new }
    ensures same { SameStripe D.Disk stripe.old stripe.new }
{
    into.truncate(count as usize * 512);
    stripe.admit(room);
    match stripe.read(gate, pass, id, sector, into.as_mut_slice()) {
        Ok(()) => Answer::Found(Bytes::from_vec(into)),
        Err(faults) => Answer::Fault(Device::Data, faults),
    }
}

impl<D: Disk> Session<D> {
    ghost use Rattle.era_session.specs.AtStripes.{session_place};
    ghost use Rattle.era_session.specs.Reads.{ReadDid};
    ghost use Rattle.era_session.specs.Sessions.{MayCommand, SameSession, SessionFits, SessionStands};

    /// Reads `count` sectors from `sector` of the origin on. `into` is a buffer for their bytes, and `room` the room of the
    /// command at its stripe. The answer is `Range` where the sectors lie in no one block; then nothing is done. Otherwise the
    /// sectors are read at the stripe of their block by one call: it is `Found` with their bytes, or a `Fault` with the part's
    /// count of faults, which rose. It resolves no cut write, takes no memory and waits for nobody.
    pub fn read(&mut self, room: Room, into: Vec<u8>, id: CmdId, sector: u64, count: u32) -> Answer
        requires may { MayCommand D.Disk self.old id }
        requires memory { (count * 512 ≤ vec_len into) × (count * 512 ≤ room) }
        ensures fits { SessionFits D.Disk self.new }
        ensures stands { (opening : Opening) → SessionStands D.Disk opening self.old
            → SessionStands D.Disk opening self.new }
        ensures did { ReadDid D.Disk (session_place self.old sector count) id sector count result
            self.old self.new }
        ensures keeps { DrawsAtMost 1 no_write self.old.pass self.new.pass }
        ensures same { SameSession D.Disk self.old self.new }
    {
        let Some((block, _)) = self.geometry.place_of(sector, u64::from(count)) else {
            return Answer::Range;
        };
        let stripe = &mut self.stripes[(block / self.each) as usize];
        read_block(
            &self.gate,
            stripe,
            &mut self.pass,
            room,
            into,
            id,
            sector,
            count,
        )
    }
}
