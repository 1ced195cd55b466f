//! How a gate ends: its seats and its pass come back, and tell of all its acts.

ghost use Rattle.std.specs.Prelude.{◌≡◌, ◌<◌, ℕ, true, List, length, All, [], ◌∷◌};
ghost use Rattle.era_gate.specs.Acts.{Act};
ghost use Rattle.era_gate.specs.Calls.{StripeToken, has_lane};
ghost use Rattle.era_gate.specs.Plays.{IsBoard, IsGathered, IsKeeperAt, keeper_of, with_stripes};
ghost use Rattle.era_gate.specs.Tells.{Tells, parts_of};

use crate::board::{Board, Place};
use crate::gate::Gate;
use crate::plays::StripeIn;
use crate::seats::{KeeperSeat, Pass, StripeSeat};
use crate::steps::take_in;

/// The stripes' seats join the keeper's.
fn stripes_in(board: &Board, place: &mut Place, mut stripes: Vec<StripeSeat>)
    requires table { place.old.table_id ≡ board.now.shared.table_id }
    requires words { 0 < board.now.shared.table_id.words }
    requires seats { All (λ (seat : StripeToken). seat.table ≡ board.now.shared.table_id)
        stripes.items }
    requires view { IsKeeperAt place.old.me }
    ensures table { place.new.table_id ≡ place.old.table_id }
    ensures view { place.new.me
        ≡ (with_stripes (parts_of stripes.items) place.old.me.0, []) }
{
    while let Some(seat) = stripes.pop() {
        board.shared.join_seat::<StripeIn>(place, seat.place);
    }
}

/// Frees the table: how many places were drawn.
fn places_of(board: Board, place: Place) -> u64
    requires table { place.table_id ≡ board.shared.table_id }
    requires board { IsBoard board.shared.table_id board.shared.key }
    requires view { IsGathered place.me }
    requires stripes { length place.me.0.stripes ≡ board.shared.key.stripes }
    requires lanes { (l : ℕ) → l < 65 → has_lane l place.me.0.pass.lanes ≡ true }
    ensures tells { (acts : List Act) × Tells board.shared.key result place.me.0.stripes
        (keeper_of place.me.0) place.me.0.pass.lanes acts }
{
    let closed = board.close_with(place);
    let places = closed.word(1);
    closed.free();
    places
}

impl Gate {
    /// Ends the gate, with all its seats and a pass of all lanes: how many places were drawn. There are legal acts of
    /// which the seats and the pass tell, each stripe once.
    pub fn close(self, keeper: KeeperSeat, stripes: Vec<StripeSeat>, pass: Pass) -> u64
        requires tables { (keeper.table ≡ self.table) × (pass.table ≡ self.table) }
        requires seats { All (λ (seat : StripeToken). seat.table ≡ self.table) stripes.items }
        requires stripes { length stripes.items ≡ self.plan.stripes }
        requires lanes { (l : ℕ) → l < 65 → has_lane l pass.part.lanes ≡ true }
        ensures tells { (acts : List Act) × Tells self.plan result (parts_of stripes.items)
            keeper.part pass.part.lanes acts }
    {
        let Gate { board, words: _ } = self;
        let KeeperSeat { mut place, era: _ } = keeper;
        let Pass { mut badge } = pass;
        take_in(&board, &mut place, &mut badge);
        stripes_in(&board, &mut place, stripes);
        places_of(board, place)
    }
}
