//! How a session ends.

ghost use Rattle.std.specs.Prelude.{◌≡◌, ◌≤◌, ◌+◌, ◌++◌, List, length, map, vec_len, vec_capacity};
ghost use Rattle.era_base.specs.Calls.{Now};
ghost use Rattle.era_gate.specs.Acts.{Act};
ghost use Rattle.era_keeper.specs.Keepers.{view_of as keeper_view};
ghost use Rattle.era_keeper.specs.Recovery.{LeavesDurable};
ghost use Rattle.era_model.specs.declared.opening.Opening.{Opening};
ghost use Rattle.era_notes.specs.Notes.{own_history};
ghost use Rattle.era_session.specs.Ends.{disks_of, seats_of};

use crate::session::Session;
use era_base::Disk;
use era_gate::StripeSeat;
use era_stripe::Stripe;

/// What a session leaves: how many places its gate drew, its parts in the order of the stripes, and its metadata disk.
#[derive(Drop)]
pub struct Ended<D> {
    pub places: u64,
    pub parts: Vec<D>,
    pub meta: D,
}

/// Hands over the parts and the seats of stripes, in their order.
fn hand_over<D: Disk>(stripes: Vec<Stripe<D>>, parts: &mut Vec<D>, seats: &mut Vec<StripeSeat>)
    requires parts { vec_len parts.old + vec_len stripes ≤ vec_capacity parts.old }
    requires seats { vec_len seats.old + vec_len stripes ≤ vec_capacity seats.old }
    ensures parts { parts.new.items ≡ parts.old.items ++ disks_of stripes.items }
    ensures seats { seats.new.items ≡ seats.old.items ++ seats_of stripes.items }
{
    let mut rest = stripes.into_iter();
    while let Some(stripe) = rest.next() {
        let (disk, seat, _) = stripe.close();
        parts.push_reserved(disk);
        seats.push_reserved(seat);
    }
    rest.destroy_empty();
}

impl<D: Disk> Session<D> {
    ghost use Rattle.era_session.specs.Ends.{DrewActs};
    ghost use Rattle.era_session.specs.Sessions.{SessionFits, SessionStands};

    /// Ends the session: its gate is closed with all its seats, and each disk is handed over as it is. Cut writes stay cut,
    /// and their stripes inside. It makes no device call, takes no memory and waits for nobody.
    pub fn close(self) -> Ended<D>
        requires fits { SessionFits D.Disk self }
        ensures acts { (acts : List Act) × DrewActs self result.places acts }
        ensures parts { result.parts.items ≡ disks_of self.stripes.items }
        ensures meta { result.meta ≡ self.keeper.meta.slots.disk }
        ensures durable { (opening : Opening) → SessionStands D.Disk opening self
            → Now D.Disk
            (LeavesDurable (own_history opening (keeper_view D.Disk self.keeper).notes))
            result.meta }
    {
        self.keeper.leaves_durable();
        let Session {
            gate,
            keeper,
            stripes,
            pass,
            geometry: _,
            each: _,
            mut seats,
            mut parts,
        } = self;
        hand_over(stripes, &mut parts, &mut seats);
        let (meta, seat, _) = keeper.close();
        let places = gate.close(seat, seats, pass);
        Ended {
            places,
            parts,
            meta: meta.into_disk(),
        }
    }
}
