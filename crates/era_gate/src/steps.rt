//! The atomic steps of seats that have a pass in them, or need none. A `B` is picked by the call.

ghost use Rattle.std.specs.Prelude.{◌≡◌, ◌≢◌, ◌+◌, ◌*◌, ◌/◌, ◌%◌, ◌^◌, ◌<◌, ◌≤◌, true, false, None, [], ◌∷◌};
ghost use Rattle.era_base.specs.Bits.{bit_of};
ghost use Rattle.era_gate.specs.Calls.{StripeAsks, KeeperAsks, PassAsks, has_mark};
ghost use Rattle.era_gate.specs.Parts.{has_lane, pass_view, pass_in, keeper_with_pass};
ghost use Rattle.era_gate.specs.Places.{IsNextPlace};
ghost use Rattle.era_gate.specs.Plays.{IsStripeAt, IsKeeperAt, MayExchange, part_of, keeper_of, entered, left, drew, keeper_drawn, looked, cleared_to, exchanged_part, without_pass, with_pass_of};
ghost use Rattle.era_gate.specs.Rule.{bitmap_at};

use crate::about::About;
use crate::board::{Board, Place};
use crate::parts::View;
use crate::plays::{Clear, Draw, Enter, Exchange, KeeperDraw, Leave, Look, PassIn, PassOff, Set};
use atomic_table::Badge;
use era_base::CmdId;
use era_model::Event;
use std::mem;

/// The pass joins a seat that has none.
#[tactic(auto, using(crate::proofs::Placed::take_in_at))]
pub(crate) fn take_in(board: &Board, place: &mut Place, badge: &mut Badge<View>)
    requires tables { (place.old.table_id ≡ board.now.shared.table_id)
        × (badge.old.table_id ≡ board.now.shared.table_id) }
    requires words { 0 < board.now.shared.table_id.words }
    requires seat { place.old.me ≡ (without_pass place.old.me.0, []) }
    requires pass { badge.old.views ≡ pass_view (pass_in badge.old.views) ∷ [] }
    ensures table { place.new.table_id ≡ place.old.table_id }
    ensures view { place.new.me
        ≡ (with_pass_of place.old.me.0 (pass_view (pass_in badge.old.views)), []) }
{
    let other = mem::replace(badge, Badge::blank()).into_seat::<()>();
    board.shared.join_seat::<PassIn>(place, other);
}

/// The pass of a seat becomes one of its own again.
#[tactic(auto, using(crate::proofs::Placed::give_off_at))]
pub(crate) fn give_off(board: &Board, place: &mut Place, badge: &mut Badge<View>)
    requires table { place.old.table_id ≡ board.now.shared.table_id }
    requires words { 0 < board.now.shared.table_id.words }
    requires seat { place.old.me.1 ≡ [] }
    ensures table { place.new.table_id ≡ place.old.table_id }
    ensures view { place.new.me ≡ (without_pass place.old.me.0, []) }
    ensures pass { badge.new.views ≡ pass_view place.old.me.0.pass ∷ [] }
    ensures tables { badge.new.table_id ≡ place.old.table_id }
{
    let other = board.shared.split_seat::<PassOff>(place);
    *badge = other.into_badge();
}

/// The stripe enters for the command. The gate word that was found.
pub(crate) fn enter<B: About>(board: &Board, place: &mut Place, _id: CmdId) -> u64
    requires table { place.old.table_id ≡ board.now.shared.table_id }
    requires words { 1 < board.now.shared.table_id.words }
    requires view { IsStripeAt place.old.me }
    requires outside { (part_of place.old.me.0).state.inside ≡ false }
    requires lane { has_lane B.id.lane place.old.me.0.pass.lanes ≡ true }
    ensures table { place.new.table_id ≡ place.old.table_id }
    ensures view { place.new.me ≡ (entered B.id result place.old.me.0, []) }
{
    board.shared.fetch_add::<Enter<B>>(place, 0, 1)
}

/// The stripe leaves.
pub(crate) fn leave(board: &Board, place: &mut Place)
    requires table { place.old.table_id ≡ board.now.shared.table_id }
    requires words { 1 < board.now.shared.table_id.words }
    requires view { IsStripeAt place.old.me }
    requires inside { (part_of place.old.me.0).state.inside ≡ true }
    requires idle { (part_of place.old.me.0).state.flight ≡ None }
    ensures table { place.new.table_id ≡ place.old.table_id }
    ensures view { place.new.me ≡ (left place.old.me.0, []) }
{
    board.shared.fetch_sub::<Leave>(place, 0, 1);
}

/// The stripe draws a place for the event.
pub(crate) fn draw_stripe<B: About>(board: &Board, place: &mut Place, _event: &Event) -> u64
    requires table { place.old.table_id ≡ board.now.shared.table_id }
    requires words { 1 < board.now.shared.table_id.words }
    requires view { IsStripeAt place.old.me }
    requires may { StripeAsks B.event (part_of place.old.me.0) place.old.me.0.pass.lanes }
    requires pass { PassAsks B.event place.old.me.0.pass }
    ensures table { place.new.table_id ≡ place.old.table_id }
    ensures view { place.new.me ≡ (drew B.event result place.old.me.0, []) }
    ensures place { IsNextPlace result place.old.me.0.pass.floor
        (part_of place.old.me.0).state.entries (part_of place.new.me.0).state.entries }
{
    board.shared.fetch_add::<Draw<B>>(place, 1, 1)
}

/// The keeper draws a place for the event.
pub(crate) fn draw_keeper<B: About>(board: &Board, place: &mut Place, _event: &Event) -> u64
    requires table { place.old.table_id ≡ board.now.shared.table_id }
    requires words { 1 < board.now.shared.table_id.words }
    requires view { IsKeeperAt place.old.me }
    requires may { KeeperAsks B.event (keeper_of place.old.me.0) }
    requires pass { PassAsks B.event place.old.me.0.pass }
    ensures table { place.new.table_id ≡ place.old.table_id }
    ensures view { place.new.me ≡ (keeper_drawn B.event result place.old.me.0, []) }
    ensures place { IsNextPlace result place.old.me.0.pass.floor
        (keeper_of place.old.me.0).state.entries (keeper_of place.new.me.0).state.entries }
{
    board.shared.fetch_add::<KeeperDraw<B>>(place, 1, 1)
}

/// The stripe looks at the word of the block's bit.
pub(crate) fn look<B: About>(board: &Board, place: &mut Place, _block: u32, word: usize) -> u64
    requires table { place.old.table_id ≡ board.now.shared.table_id }
    requires words { word < board.now.shared.table_id.words }
    requires view { IsStripeAt place.old.me }
    requires inside { (part_of place.old.me.0).state.inside ≡ true }
    requires block { B.number < board.now.shared.key.blocks }
    requires bitmap { word
        ≡ bitmap_at board.now.shared.key (part_of place.old.me.0).era + B.number / 64 }
    ensures table { place.new.table_id ≡ place.old.table_id }
    ensures view { place.new.me ≡ (looked B.number result place.old.me.0, []) }
{
    board.shared.load::<Look<B>>(place, word)
}

/// The keeper sets the bit of a block that it marked.
pub(crate) fn set(board: &Board, place: &mut Place, block: u32, word: usize)
    requires table { place.old.table_id ≡ board.now.shared.table_id }
    requires words { word < board.now.shared.table_id.words }
    requires view { IsKeeperAt place.old.me }
    requires marked { has_mark block (keeper_of place.old.me.0).state.era
        (keeper_of place.old.me.0).state.entries ≡ true }
    requires block { block < board.now.shared.key.blocks }
    requires bitmap { word
        ≡ bitmap_at board.now.shared.key (keeper_of place.old.me.0).state.era + block / 64 }
    ensures table { place.new.table_id ≡ place.old.table_id }
    ensures view { place.new.me ≡ place.old.me }
{
    board.shared.fetch_or::<Set>(place, word, 1 << (block % 64));
}

/// The keeper clears the spare word of an index.
pub(crate) fn clear<B: About>(board: &Board, place: &mut Place, _index: u64, word: usize)
    requires table { place.old.table_id ≡ board.now.shared.table_id }
    requires words { word < board.now.shared.table_id.words }
    requires view { IsKeeperAt place.old.me }
    requires so_far { B.number ≤ (keeper_of place.old.me.0).cleared }
    requires index { B.number < board.now.shared.key.words }
    requires bitmap { word
        ≡ bitmap_at board.now.shared.key ((keeper_of place.old.me.0).state.era + 1) + B.number }
    ensures table { place.new.table_id ≡ place.old.table_id }
    ensures view { place.new.me ≡ (cleared_to (B.number + 1) place.old.me.0, []) }
{
    board.shared.store::<Clear<B>>(place, word, 0);
}

/// The keeper exchanges the gate word of the era for that of the next. The word that was found.
pub(crate) fn exchange(board: &Board, place: &mut Place, era: u32) -> u64
    requires table { place.old.table_id ≡ board.now.shared.table_id }
    requires words { 1 < board.now.shared.table_id.words }
    requires view { IsKeeperAt place.old.me }
    requires may { MayExchange board.now.shared.key era (keeper_of place.old.me.0) }
    ensures table { place.new.table_id ≡ place.old.table_id }
    ensures view { place.new.me ≡ (
      keeper_with_pass
          (exchanged_part (era * 2 ^ 32) result place.old.me.0) place.old.me.0.pass,
      [],
    ) }
    ensures counted { result ≢ era * 2 ^ 32
        → (0 < result % 2 ^ 32) × (result % 2 ^ 32 ≤ 16) }
{
    let old = u64::from(era) << 32;
    let new = u64::from(era + 1) << 32;
    board
        .shared
        .compare_exchange::<Exchange>(place, 0, old, new)
}
