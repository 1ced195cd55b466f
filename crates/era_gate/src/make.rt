//! How a gate is made, with its seats and its first pass.

ghost use Rattle.std.specs.Prelude.{◌≡◌, ℕ, ◌<◌, ◌≤◌, ◌^◌, true, [], ◌∷◌, IfOk, OnOk};
ghost use Rattle.era_base.specs.Flags.{tabulate};
ghost use Rattle.era_gate.specs.Calls.{AreStripeSeats, new_seat, plan_of};
ghost use Rattle.era_gate.specs.Parts.{new_stripe, new_keeper, new_pass, has_lane, first_view, pass_view};
ghost use Rattle.era_gate.specs.Plays.{IsBoard, IsRow, IsFirstStripe, IsLastKeeper, first_words, without_stripe, without_keeper};
ghost use Rattle.era_gate.specs.Rule.{IsPlan};

use crate::board::{Board, Place};
use crate::gate::Gate;
use crate::plan::Plan;
use crate::plays::{KeeperOff, StripeOff};
use crate::seats::{KeeperSeat, Pass, StripeSeat};
use era_base::{Geometry, Memory};
use std::alloc::Global;

impl Gate {
    /// A gate over an origin of this geometry, in this era, for 1 to 16 stripes: with the keeper's seat, the stripes'
    /// seats in order, and a pass of all 65 lanes and all draws. It alone takes memory.
    #[tactic(auto, using(crate::proofs::Making::all_lanes))]
    pub fn make(
        alloc: Global,
        geometry: Geometry,
        era: u32,
        stripes: u32,
    ) -> Result<(Gate, KeeperSeat, Vec<StripeSeat>, Pass), Memory>
        requires stripes { (0 < stripes) × (stripes ≤ 16) }
        ensures plan { IfOk result (λ r. r.0.plan ≡ plan_of geometry era stripes) }
        ensures keeper { IfOk result (λ r.
            r.1 ≡ record { table = r.0.table; part = new_keeper era }) }
        ensures stripes { IfOk result (λ r. AreStripeSeats r.0.table r.2.items stripes) }
        ensures pass { IfOk result (λ r.
            r.3 ≡ record { table = r.0.table; part = new_pass }) }
        ensures lanes { IfOk result (λ r. (l : ℕ) → l < 65
            → has_lane l r.3.part.lanes ≡ true) }
    {
        let plan = plan_for(geometry, era, stripes);
        let (board, mut place) = board_for(alloc, plan)?;
        let seats = stripes_off(alloc, &board, &mut place, stripes)?;
        let keeper = keeper_off(&board, &mut place, era);
        let pass = Pass {
            badge: place.into_badge(),
        };
        let gate = Gate {
            board,
            words: plan.words as usize,
        };
        Ok((gate, keeper, seats, pass))
    }
}

/// The plan of a gate.
fn plan_for(geometry: Geometry, era: u32, stripes: u32) -> Plan
    requires { stripes ≤ 16 }
    ensures plan { result ≡ plan_of geometry era stripes }
    ensures fits { IsPlan result }
{
    let blocks = geometry.blocks();
    Plan {
        stripes,
        blocks,
        words: u64::from(blocks.div_ceil(64)),
        era,
    }
}

/// The words of the gate.
fn words_for(alloc: Global, plan: &Plan) -> Result<Vec<u64>, Memory>
    requires { IsPlan plan.now }
    ensures { IfOk result (λ words. words.items ≡ first_words plan.now) }
{
    let count = plan.words as usize;
    let mut words = vec![in alloc; 0; 2 + 2 * count]?;
    words[0] = u64::from(plan.era) << 32;
    Ok(words)
}

/// The table of the gate, and a seat that has all parts.
fn board_for(alloc: Global, plan: Plan) -> Result<(Board, Place), Memory>
    requires { IsPlan plan }
    ensures board { IfOk result (λ r. IsBoard r.0.shared.table_id r.0.shared.key
        × (r.0.shared.key ≡ plan)) }
    ensures place { IfOk result (λ r. (r.1.table_id ≡ r.0.shared.table_id)
        × (r.1.me ≡ (first_view plan, []))) }
{
    let words = words_for(alloc, &plan)?;
    let (board, place) = Board::of_words(alloc, words.as_slice(), &plan)?;
    Ok((board, place))
}

/// The first stripe goes to a seat of its own.
fn stripe_off(board: &Board, place: &mut Place, _stripe: u32) -> StripeSeat
    requires table { place.old.table_id ≡ board.now.shared.table_id }
    requires words { 0 < board.now.shared.table_id.words }
    requires view { IsFirstStripe _stripe place.old.me }
    ensures table { place.new.table_id ≡ place.old.table_id }
    ensures view { place.new.me ≡ (without_stripe place.old.me.0, []) }
    ensures seat { result ≡ new_seat place.old.table_id _stripe }
{
    let seat = board.shared.split_seat::<StripeOff>(place);
    StripeSeat {
        place: seat,
        era: 0,
    }
}

/// Each of the stripes goes to a seat of its own.
fn stripes_off(
    alloc: Global,
    board: &Board,
    place: &mut Place,
    stripes: u32,
) -> Result<Vec<StripeSeat>, Memory>
    requires table { place.old.table_id ≡ board.now.shared.table_id }
    requires words { 0 < board.now.shared.table_id.words }
    requires view { IsRow 0 stripes place.old.me.0 place.old.me }
    ensures table { place.new.table_id ≡ place.old.table_id }
    ensures view { OnOk result (IsRow stripes stripes place.old.me.0 place.new.me) }
    ensures seats { IfOk result (λ seats.
        AreStripeSeats place.old.table_id seats.items stripes) }
{
    let mut seats = Vec::new(alloc);
    for stripe in 0..stripes {
        let seat = stripe_off(board, place, stripe);
        seats.push(seat)?;
    }
    Ok(seats)
}

/// The keeper goes to a seat of its own.
fn keeper_off(board: &Board, place: &mut Place, era: u32) -> KeeperSeat
    requires table { place.old.table_id ≡ board.now.shared.table_id }
    requires words { 0 < board.now.shared.table_id.words }
    requires view { IsLastKeeper era place.old.me }
    ensures table { place.new.table_id ≡ place.old.table_id }
    ensures view { place.new.me ≡ (without_keeper place.old.me.0, []) }
    ensures seat { result ≡ record { table = place.old.table_id; part = new_keeper era } }
{
    let seat = board.shared.split_seat::<KeeperOff>(place);
    KeeperSeat { place: seat, era }
}
