//! The steps of a stripe's calls that touch no device.

ghost use Rattle.std.specs.Prelude.{◌≡◌, true, None, length, vec_len};
ghost use Rattle.era_gate.specs.Calls.{draws, leaves, pass_draws};
ghost use Rattle.era_gate.specs.Passes.{KnowsEnded};
ghost use Rattle.era_gate.specs.StateAfter.{flight_after};
ghost use Rattle.era_model.specs.Events.{is_go_of};
ghost use Rattle.era_model.specs.declared.event.Event.TheVariants.{Go};
ghost use Rattle.era_notes.specs.Parts.{IsIn, sector_in};

use crate::stripe::Stripe;
use era_base::{CmdId, Disk};
use era_gate::{Gate, Pass};
use era_model::Event;

impl<D: Disk> Stripe<D> {
    ghost use Rattle.era_stripe.specs.Calls.{DrewOne, MayNote, SameRest};
    ghost use Rattle.era_stripe.specs.Results.{MayWriteSeen, only};
    ghost use Rattle.era_stripe.specs.Stripes.{left, noted, part_of, view_of};

    /// The sector of the part's disk that is sector `first` of a block of the part.
    pub(crate) fn sector_of(&self, block: u32, first: u32) -> u64
        requires { IsIn (part_of self.now) block }
        ensures { result ≡ sector_in (part_of self.now) block first }
    {
        let before = u64::from(block - self.first_block);
        before * u64::from(self.geometry.block_sectors()) + u64::from(first)
    }

    /// Draws that a write is issued: the place, and a buffer of its length.
    pub(crate) fn issue(
        &mut self,
        gate: &Gate,
        pass: &mut Pass,
        id: CmdId,
        block: u32,
        first: u32,
        bytes: &[u8],
    ) -> (u64, Vec<u8>)
        requires may { MayWriteSeen D.Disk gate.now self.old pass.old id block first
            (length bytes.now) }
        ensures view { view_of D.Disk self.new ≡ noted (view_of D.Disk self.old)
            (Go id block self.old.era first bytes.now) result.0 }
        ensures seat { self.new.seat ≡ record {
          table = self.old.seat.table;
          part = draws self.old.seat.part (Go id block self.old.era first bytes.now) result.0;
        } }
        ensures pass { pass.new ≡ record {
          table = pass.old.table;
          part = pass_draws pass.old.part (Go id block self.old.era first bytes.now) result.0;
        } }
        ensures drew { DrewOne (Go id block self.old.era first bytes.now) result.0 (only id)
            self.old.seat.part self.old.entries self.new.entries pass.old pass.new }
        ensures spare { vec_len result.1 ≡ length bytes.now }
        ensures same { SameRest (record self.old { room = None }) self.new }
    {
        let Some(buffers) = self.room.take() else {
            unreachable!()
        };
        let (payload, spare) = buffers.fill(bytes);
        let event = Event::Go {
            id,
            block,
            era: self.era,
            first,
            bytes: payload,
        };
        let place = self.note(gate, pass, event);
        (place, spare)
    }

    /// Draws an event that ends the write in flight, and leaves the gate.
    pub(crate) fn finish(&mut self, gate: &Gate, pass: &mut Pass, event: Event) -> u64
        requires may { MayNote gate.now self.old pass.old event }
        requires inside { self.old.seat.part.state.inside ≡ true }
        requires ends { flight_after event self.old.seat.part.state.flight ≡ None }
        ensures view { view_of D.Disk self.new
            ≡ left (noted (view_of D.Disk self.old) event result) }
        ensures seat { self.new.seat ≡ record {
          table = self.old.seat.table;
          part = leaves (draws self.old.seat.part event result);
        } }
        ensures drew { DrewOne event result (λ id. is_go_of id event) self.old.seat.part
            self.old.entries self.new.entries pass.old pass.new }
        ensures knows { KnowsEnded self.new.seat.part pass.new.part }
        ensures same { SameRest self.old self.new }
    {
        let place = self.note(gate, pass, event);
        gate.leave(&mut self.seat, pass);
        place
    }
}
