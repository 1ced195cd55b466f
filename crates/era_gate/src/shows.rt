//! How a stripe sees a block by the keeper's mark of it.

ghost use Rattle.std.specs.Prelude.{◌≡◌, ◌<◌, true, [], ◌∷◌};
ghost use Rattle.era_gate.specs.Calls.{has_mark, sees};
ghost use Rattle.era_gate.specs.Parts.{keeper_view, stripe_view};
ghost use Rattle.era_gate.specs.Plays.{IsKeeperWithStripe, keeper_of, part_of, with_stripes, without_stripe};

use crate::about::About;
use crate::board::{Board, Place};
use crate::gate::Gate;
use crate::plays::{PassOff, Show, StripeIn};
use crate::seats::{KeeperSeat, StripeSeat};
use std::marker::Brand;
use std::mem;

/// A stripe's seat joins the keeper's, and a seat that has no part stands in for it.
#[tactic(auto, using(crate::proofs::Showing::stripe_at, crate::proofs::Placed::give_off_at))]
fn join_stripe(board: &Board, place: &mut Place, seat: &mut Place)
    requires tables { (place.old.table_id ≡ board.now.shared.table_id)
        × (seat.old.table_id ≡ board.now.shared.table_id) }
    requires words { 0 < board.now.shared.table_id.words }
    requires keeper { place.old.me ≡ (keeper_view (keeper_of place.old.me.0), []) }
    requires stripe { seat.old.me ≡ (stripe_view (part_of seat.old.me.0), []) }
    ensures table { place.new.table_id ≡ place.old.table_id }
    ensures view { place.new.me
        ≡ (with_stripes (part_of seat.old.me.0 ∷ []) place.old.me.0, []) }
{
    let empty = board.shared.split_seat::<PassOff>(place);
    let other = mem::replace(seat, empty);
    board.shared.join_seat::<StripeIn>(place, other);
}

/// The stripe's seat becomes one of its own again, and has seen the block of `B`, which the keeper marked.
#[tactic(auto, using(crate::proofs::Showing::show_at))]
fn split_stripe<B: About>(board: &Board, place: &mut Place, _block: u32) -> Place
    requires table { place.old.table_id ≡ board.now.shared.table_id }
    requires words { 0 < board.now.shared.table_id.words }
    requires view { IsKeeperWithStripe place.old.me }
    requires inside { (part_of place.old.me.0).state.inside ≡ true }
    requires marked { has_mark B.number (keeper_of place.old.me.0).state.era
        (keeper_of place.old.me.0).state.entries ≡ true }
    ensures table { place.new.table_id ≡ place.old.table_id }
    ensures view { place.new.me ≡ (without_stripe place.old.me.0, []) }
    ensures tables { result.table_id ≡ place.old.table_id }
    ensures other { result.me
        ≡ (stripe_view (sees (part_of place.old.me.0) true B.number), []) }
{
    board.shared.split_seat::<Show<B>>(place)
}

impl Gate {
    /// The keeper shows a stripe that is inside a block that it marked in the present era. The stripe has seen it until it
    /// leaves, as if it had looked and found the bit set. It draws nothing, takes no memory and waits for nobody.
    pub fn show(&self, keeper: &mut KeeperSeat, seat: &mut StripeSeat, block: u32)
        requires tables { (keeper.old.table ≡ self.now.table) × (seat.old.table ≡ self.now.table) }
        requires inside { seat.old.part.state.inside ≡ true }
        requires marked { has_mark block keeper.old.part.state.era keeper.old.part.state.entries
            ≡ true }
        ensures keeper { keeper.new ≡ keeper.old }
        ensures seat { seat.new ≡ record {
          table = seat.old.table;
          part = sees seat.old.part true block;
        } }
    {
        join_stripe(&self.board, &mut keeper.place, &mut seat.place);
        seat.place = split_stripe::<Brand>(&self.board, &mut keeper.place, block);
    }
}
