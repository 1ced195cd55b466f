//! Passes cut in two, made one, and taught of stays.

ghost use Rattle.std.specs.Prelude.{◌≡◌, ◌≤◌, ◌<◌, [], ◌∷◌};
ghost use Rattle.era_gate.specs.Calls.{cut_down, cut_off, joined_pass, learns};
ghost use Rattle.era_gate.specs.Passes.{AreCutAt, AreJoined, KeepsPass, KnowsBegun, KnowsEnded, no_write};
ghost use Rattle.era_gate.specs.Parts.{pass_in, pass_view};
ghost use Rattle.era_gate.specs.Plays.{IsStripeAt, part_of, without_pass};

use crate::about::About;
use crate::board::{Board, Place};
use crate::gate::Gate;
use crate::parts::View;
use crate::plays::{LanesIn, LanesOff, Learn};
use crate::seats::{Pass, StripeSeat};
use crate::steps::take_in;
use atomic_table::Badge;
use std::marker::Brand;
use std::mem;

/// Cuts the lanes from the number of `B` on off a pass, with the budget of `B`.
#[tactic(auto, using(crate::proofs::PassCuts::split_at))]
fn lanes_off<B: About>(
    board: &Board,
    badge: &mut Badge<View>,
    _first: u32,
    _budget: u64,
) -> Badge<View>
    requires table { badge.old.table_id ≡ board.now.shared.table_id }
    requires words { 0 < board.now.shared.table_id.words }
    requires pass { badge.old.views ≡ pass_view (pass_in badge.old.views) ∷ [] }
    requires budget { B.budget ≤ (pass_in badge.old.views).budget }
    ensures tables { (badge.new.table_id ≡ badge.old.table_id)
        × (result.table_id ≡ badge.old.table_id) }
    ensures pass { badge.new.views
        ≡ pass_view (cut_down (pass_in badge.old.views) B.number B.budget) ∷ [] }
    ensures other { result.views
        ≡ pass_view (cut_off (pass_in badge.old.views) B.number B.budget) ∷ [] }
{
    let mut seat = mem::replace(badge, Badge::blank()).into_seat::<()>();
    let other = board.shared.split_seat::<LanesOff<B>>(&mut seat);
    *badge = seat.into_badge();
    other.into_badge()
}

/// Makes two passes one.
#[tactic(auto, using(crate::proofs::PassCuts::join_at))]
fn lanes_in(board: &Board, badge: &mut Badge<View>, other: Badge<View>)
    requires tables { (badge.old.table_id ≡ board.now.shared.table_id)
        × (other.table_id ≡ board.now.shared.table_id) }
    requires words { 0 < board.now.shared.table_id.words }
    requires pass { badge.old.views ≡ pass_view (pass_in badge.old.views) ∷ [] }
    requires other { other.views ≡ pass_view (pass_in other.views) ∷ [] }
    ensures table { badge.new.table_id ≡ badge.old.table_id }
    ensures pass { badge.new.views
        ≡ pass_view (joined_pass (pass_in badge.old.views) (pass_in other.views)) ∷ [] }
{
    let mut seat = mem::replace(badge, Badge::blank()).into_seat::<()>();
    board
        .shared
        .join_seat::<LanesIn>(&mut seat, other.into_seat::<()>());
    *badge = seat.into_badge();
}

/// The pass of a stripe's seat becomes one of its own again, and knows of the stripe's stays.
#[tactic(auto, using(crate::proofs::Learning::learn_at))]
fn learn_off(board: &Board, place: &mut Place, badge: &mut Badge<View>)
    requires table { place.old.table_id ≡ board.now.shared.table_id }
    requires words { 0 < board.now.shared.table_id.words }
    requires seat { IsStripeAt place.old.me }
    ensures table { place.new.table_id ≡ place.old.table_id }
    ensures view { place.new.me ≡ (without_pass place.old.me.0, []) }
    ensures pass { badge.new.views
        ≡ pass_view (learns place.old.me.0.pass (part_of place.old.me.0)) ∷ [] }
    ensures tables { badge.new.table_id ≡ place.old.table_id }
{
    let other = board.shared.split_seat::<Learn>(place);
    *badge = other.into_badge();
}

impl Gate {
    /// The pass learns of the stripe's stays: that each has begun, and that all but a present one have ended.
    pub fn learn(&self, seat: &mut StripeSeat, pass: &mut Pass)
        requires tables { (seat.old.table ≡ self.now.table) × (pass.old.table ≡ self.now.table) }
        ensures seat { seat.new ≡ seat.old }
        ensures pass { pass.new ≡ record {
          table = pass.old.table;
          part = learns pass.old.part seat.old.part;
        } }
        ensures keeps { KeepsPass 0 no_write pass.old pass.new }
        ensures begun { KnowsBegun seat.new.part pass.new.part }
        ensures ended { KnowsEnded seat.new.part pass.new.part }
    {
        take_in(&self.board, &mut seat.place, &mut pass.badge);
        learn_off(&self.board, &mut seat.place, &mut pass.badge);
    }

    /// Cuts a second pass off: the lanes from `first` on with their receipts, and so many draws. Both have the floor and
    /// know the stays that the pass had and knew.
    pub fn split_pass(&self, pass: &mut Pass, first: u32, budget: u64) -> Pass
        requires table { pass.old.table ≡ self.now.table }
        requires budget { budget ≤ pass.old.part.budget }
        ensures pass { pass.new ≡ record {
          table = pass.old.table;
          part = cut_down pass.old.part first budget;
        } }
        ensures other { result ≡ record {
          table = pass.old.table;
          part = cut_off pass.old.part first budget;
        } }
        ensures cut { AreCutAt first pass.old.part.lanes pass.new.part.lanes result.part.lanes }
    {
        let badge = lanes_off::<Brand>(&self.board, &mut pass.badge, first, budget);
        Pass { badge }
    }

    /// Puts another pass into this one: the greater floor, and all that either had or knew.
    pub fn join_pass(&self, pass: &mut Pass, other: Pass)
        requires tables { (pass.old.table ≡ self.now.table) × (other.table ≡ self.now.table) }
        ensures pass { pass.new ≡ record {
          table = pass.old.table;
          part = joined_pass pass.old.part other.part;
        } }
        ensures joined { AreJoined pass.old.part.lanes other.part.lanes pass.new.part.lanes }
    {
        let Pass { badge } = other;
        lanes_in(&self.board, &mut pass.badge, badge);
    }
}
