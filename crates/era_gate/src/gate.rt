//! The calls of a gate. Each makes one atomic step, and none waits, takes memory or takes a runtime.

ghost use Rattle.std.specs.Prelude.{◌≡◌, ◌+◌, ◌<◌, ◌^◌, true, false, None};
ghost use Rattle.era_base.specs.declared.ids.CmdId.{CmdId};
ghost use Rattle.era_gate.specs.Calls.{has_lane, has_mark, stay_of, enters, pass_enters, sees, leaves, pass_leaves, draws, keeper_draws, pass_draws, clears, StripeAsks, KeeperAsks, PassAsks};
ghost use Rattle.era_gate.specs.Passes.{KeepsPass, KnowsEnded, HasMarks, no_write};
ghost use Rattle.era_gate.specs.Places.{IsNextPlace};
ghost use Rattle.era_gate.specs.Rolls.{rolls, IsAnswer};
ghost use Rattle.era_model.specs.Events.{is_go_of};

use crate::board::Board;
use crate::rolled::Rolled;
use crate::seats::{KeeperSeat, Pass, StripeSeat};
use crate::steps;
use crate::words::{bitmap_word, has_bit_at, spare_word};
use era_base::CmdId;
use era_model::Event;
use std::marker::{Brand, Model};

/// The gate of a session. Contracts see its table and its plan. A bitmap has `words` words.
#[derive(Drop)]
pub struct Gate {
    pub(crate) board: Board,
    pub(crate) words: usize,
}

impl Model for Gate {
    ghost use Rattle.std.specs.Prelude.{◌≡◌};
    ghost use Rattle.era_gate.specs.Calls.{GateToken};
    ghost use Rattle.era_gate.specs.Plays.{IsBoard};

    ghost Value = { GateToken };

    ghost view = { λ g. record { table = g.board.shared.table_id; plan = g.board.shared.key } };

    ghost invariant = { λ g. IsBoard g.board.shared.table_id g.board.shared.key
        × (g.words ≡ g.board.shared.key.words) };
}

impl Gate {
    /// The stripe enters for the command. The era in which it is inside. A stay begins, of which the seat and the pass
    /// know, and the command's lane has a receipt for it.
    pub fn enter(&self, seat: &mut StripeSeat, pass: &mut Pass, id: CmdId) -> u32
        requires tables { (seat.old.table ≡ self.now.table) × (pass.old.table ≡ self.now.table) }
        requires outside { seat.old.part.state.inside ≡ false }
        requires lane { has_lane id.lane pass.old.part.lanes ≡ true }
        ensures seat { seat.new ≡ record {
          table = seat.old.table;
          part = enters seat.old.part (stay_of seat.old.part pass.old.part id) result;
        } }
        ensures pass { pass.new ≡ record {
          table = pass.old.table;
          part = pass_enters pass.old.part (stay_of seat.old.part pass.old.part id);
        } }
        ensures keeps { KeepsPass 0 no_write pass.old pass.new }
    {
        steps::take_in(&self.board, &mut seat.place, &mut pass.badge);
        let found = steps::enter::<Brand>(&self.board, &mut seat.place, id);
        steps::give_off(&self.board, &mut seat.place, &mut pass.badge);
        seat.era = (found >> 32) as u32;
        seat.era
    }

    /// The stripe looks at the bit of a block in the bitmap of its era. A set bit is kept until it leaves.
    #[tactic(auto, using(crate::proofs::Passing::stripe_idle))]
    pub fn look(&self, seat: &mut StripeSeat, block: u32) -> bool
        requires table { seat.old.table ≡ self.now.table }
        requires inside { seat.old.part.state.inside ≡ true }
        requires block { block < self.now.plan.blocks }
        ensures seat { seat.new ≡ record {
          table = seat.old.table;
          part = sees seat.old.part result block;
        } }
    {
        let word = bitmap_word(self.words, seat.era, (block / 64) as usize);
        let found = steps::look::<Brand>(&self.board, &mut seat.place, block, word);
        has_bit_at(found, block % 64)
    }

    /// The stripe draws the next place for an event: it is above the places of all the seat's entries. The lane of the
    /// command that draws has the receipt.
    pub fn draw_stripe(&self, seat: &mut StripeSeat, pass: &mut Pass, event: &Event) -> u64
        requires tables { (seat.old.table ≡ self.now.table) × (pass.old.table ≡ self.now.table) }
        requires may { StripeAsks event.now seat.old.part pass.old.part.lanes }
        requires pass { PassAsks event.now pass.old.part }
        ensures seat { seat.new ≡ record {
          table = seat.old.table;
          part = draws seat.old.part event.now result;
        } }
        ensures pass { pass.new ≡ record {
          table = pass.old.table;
          part = pass_draws pass.old.part event.now result;
        } }
        ensures place { IsNextPlace result pass.old.part.floor
            seat.old.part.state.entries seat.new.part.state.entries }
        ensures keeps { KeepsPass 1 (λ id. is_go_of id event.now) pass.old pass.new }
    {
        steps::take_in(&self.board, &mut seat.place, &mut pass.badge);
        let place = steps::draw_stripe::<Brand>(&self.board, &mut seat.place, event);
        steps::give_off(&self.board, &mut seat.place, &mut pass.badge);
        place
    }

    /// The keeper draws the next place for an event: it is above the places of all the seat's entries. The lane of the
    /// command that draws has the receipt.
    pub fn draw_keeper(&self, seat: &mut KeeperSeat, pass: &mut Pass, event: &Event) -> u64
        requires tables { (seat.old.table ≡ self.now.table) × (pass.old.table ≡ self.now.table) }
        requires may { KeeperAsks event.now seat.old.part }
        requires pass { PassAsks event.now pass.old.part }
        ensures seat { seat.new ≡ record {
          table = seat.old.table;
          part = keeper_draws seat.old.part event.now result;
        } }
        ensures pass { pass.new ≡ record {
          table = pass.old.table;
          part = pass_draws pass.old.part event.now result;
        } }
        ensures place { IsNextPlace result pass.old.part.floor
            seat.old.part.state.entries seat.new.part.state.entries }
        ensures keeps { KeepsPass 1 (λ id. is_go_of id event.now) pass.old pass.new }
        ensures marks { HasMarks event.now seat.old.part.state.entries seat.new.part.state.entries }
    {
        steps::take_in(&self.board, &mut seat.place, &mut pass.badge);
        let place = steps::draw_keeper::<Brand>(&self.board, &mut seat.place, event);
        steps::give_off(&self.board, &mut seat.place, &mut pass.badge);
        place
    }

    /// The stripe leaves. It may have no open write. The pass knows all its stays as ended.
    pub fn leave(&self, seat: &mut StripeSeat, pass: &mut Pass)
        requires tables { (seat.old.table ≡ self.now.table) × (pass.old.table ≡ self.now.table) }
        requires inside { seat.old.part.state.inside ≡ true }
        requires idle { seat.old.part.state.flight ≡ None }
        ensures seat { seat.new ≡ record { table = seat.old.table; part = leaves seat.old.part } }
        ensures pass { pass.new ≡ record {
          table = pass.old.table;
          part = pass_leaves pass.old.part seat.old.part;
        } }
        ensures keeps { KeepsPass 0 no_write pass.old pass.new }
        ensures knows { KnowsEnded seat.new.part pass.new.part }
    {
        steps::take_in(&self.board, &mut seat.place, &mut pass.badge);
        steps::leave(&self.board, &mut seat.place);
        steps::give_off(&self.board, &mut seat.place, &mut pass.badge);
    }

    /// The keeper sets the bit of a block that it marked in the present era.
    #[tactic(auto, using(crate::proofs::Passing::keeper_idle))]
    pub fn set(&self, seat: &mut KeeperSeat, block: u32)
        requires table { seat.old.table ≡ self.now.table }
        requires block { block < self.now.plan.blocks }
        requires marked { has_mark block seat.old.part.state.era seat.old.part.state.entries
            ≡ true }
        ensures seat { seat.new ≡ seat.old }
    {
        let word = bitmap_word(self.words, seat.era, (block / 64) as usize);
        steps::set(&self.board, &mut seat.place, block, word);
    }

    /// The keeper clears the spare bitmap, which is that of the next era.
    pub fn clear_spare(&self, seat: &mut KeeperSeat)
        requires table { seat.old.table ≡ self.now.table }
        ensures seat { seat.new ≡ record {
          table = seat.old.table;
          part = clears seat.old.part self.now.plan.words;
        } }
    {
        for index in 0..self.words {
            let word = spare_word(self.words, seat.era, index);
            steps::clear::<Brand>(&self.board, &mut seat.place, index as u64, word);
        }
    }

    /// The keeper exchanges the gate word of its era for that of the next one, with nobody inside. It is `Moved` exactly
    /// where nobody was inside, and `Kept` by the number that was.
    pub fn roll(&self, seat: &mut KeeperSeat, pass: &mut Pass) -> Rolled
        requires tables { (seat.old.table ≡ self.now.table) × (pass.old.table ≡ self.now.table) }
        requires clear { seat.old.part.cleared ≡ self.now.plan.words }
        requires switched { seat.old.part.state.switched ≡ true }
        requires last { seat.old.part.state.era + 1 < 2 ^ 32 }
        ensures seat { seat.new ≡ record {
          table = seat.old.table;
          part = rolls result seat.old.part pass.old.part;
        } }
        ensures pass { pass.new ≡ pass.old }
        ensures answer { IsAnswer result seat.old.part }
    {
        steps::take_in(&self.board, &mut seat.place, &mut pass.badge);
        let found = steps::exchange(&self.board, &mut seat.place, seat.era);
        steps::give_off(&self.board, &mut seat.place, &mut pass.badge);
        if found == u64::from(seat.era) << 32 {
            seat.era += 1;
            Rolled::Moved(seat.era)
        } else {
            Rolled::Kept((found % (1 << 32)) as u32)
        }
    }
}
