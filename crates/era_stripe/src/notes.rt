//! How a stripe draws: the entry is kept and noted with the draw.

ghost use Rattle.std.specs.Prelude.{◌≡◌};
ghost use Rattle.era_gate.specs.Calls.{draws, pass_draws};
ghost use Rattle.era_model.specs.Events.{is_go_of};

use crate::stripe::Stripe;
use era_base::Disk;
use era_gate::{Gate, Pass};
use era_model::{Entry, Event};

impl<D: Disk> Stripe<D> {
    ghost use Rattle.era_stripe.specs.Calls.{DrewOne, MayNote, SameRest};
    ghost use Rattle.era_stripe.specs.Stripes.{noted, view_of};

    /// Draws the next place for an event, and keeps and notes the entry. It makes no device call and takes no memory.
    pub(crate) fn note(&mut self, gate: &Gate, pass: &mut Pass, event: Event) -> u64
        requires may { MayNote gate.now self.old pass.old event }
        ensures view { view_of D.Disk self.new ≡ noted (view_of D.Disk self.old) event result }
        ensures seat { self.new.seat ≡ record {
          table = self.old.seat.table;
          part = draws self.old.seat.part event result;
        } }
        ensures pass { pass.new ≡ record {
          table = pass.old.table;
          part = pass_draws pass.old.part event result;
        } }
        ensures drew { DrewOne event result (λ id. is_go_of id event) self.old.seat.part
            self.old.entries self.new.entries pass.old pass.new }
        ensures same { SameRest self.old self.new }
    {
        let place = gate.draw_stripe(&mut self.seat, pass, &event);
        let entry = Entry { place, event };
        self.notes.add(&entry, &self.disk);
        self.entries.push(entry);
        place
    }
}
