//! How a stripe enters the gate, looks at its bitmap or is shown a mark, and leaves.

ghost use Rattle.std.specs.Prelude.{◌≡◌, ◌<◌, true};
ghost use Rattle.era_gate.specs.Calls.{enters, leaves, sees, stay_of, pass_enters};
ghost use Rattle.era_gate.specs.Passes.{KeepsPass, no_write};
ghost use Rattle.era_model.specs.declared.opening.Opening.{Opening};

use crate::stripe::Stripe;
use era_base::{CmdId, Disk};
use era_gate::{Gate, KeeperSeat, Pass};

impl<D: Disk> Stripe<D> {
    ghost use Rattle.era_stripe.specs.Calls.{LeftBy, MayBeShown, MayEnter, MayLeave, SameButStay};
    ghost use Rattle.era_stripe.specs.Stripes.{StripeFits, StripeStands, IsAtRest};

    /// Enters the gate for the command: the era in which the stripe is inside. It draws nothing, makes no device call and takes
    /// no memory.
    pub fn enter(&mut self, gate: &Gate, pass: &mut Pass, id: CmdId) -> u32
        requires may { MayEnter D.Disk gate.now self.old pass.old id }
        ensures fits { StripeFits D.Disk self.new }
        ensures stands { (opening : Opening) → StripeStands D.Disk opening self.old
            → StripeStands D.Disk opening self.new }
        ensures seat { self.new.seat ≡ record {
          table = self.old.seat.table;
          part = enters self.old.seat.part (stay_of self.old.seat.part pass.old.part id) result;
        } }
        ensures pass { pass.new ≡ record {
          table = pass.old.table;
          part = pass_enters pass.old.part (stay_of self.old.seat.part pass.old.part id);
        } }
        ensures era { self.new.era ≡ result }
        ensures keeps { KeepsPass 0 no_write pass.old pass.new }
        ensures same { SameButStay self.old self.new }
    {
        self.era = gate.enter(&mut self.seat, pass, id);
        self.era
    }

    /// Looks at the bit of a block in the bitmap of the era in which the stripe is inside: whether it was set. A set bit is seen
    /// until the stripe leaves.
    pub fn look(&mut self, gate: &Gate, block: u32) -> bool
        requires fits { StripeFits D.Disk self.old }
        requires table { self.old.seat.table ≡ gate.now.table }
        requires inside { self.old.seat.part.state.inside ≡ true }
        requires block { block < gate.now.plan.blocks }
        ensures fits { StripeFits D.Disk self.new }
        ensures stands { (opening : Opening) → StripeStands D.Disk opening self.old
            → StripeStands D.Disk opening self.new }
        ensures seat { self.new.seat ≡ record {
          table = self.old.seat.table;
          part = sees self.old.seat.part result block;
        } }
        ensures same { (self.new.era ≡ self.old.era) × SameButStay self.old self.new }
    {
        gate.look(&mut self.seat, block)
    }

    /// Is shown a block that the keeper marked in the present era: it is seen until the stripe leaves, as if a look had found the
    /// bit set. It draws nothing, makes no device call, takes no memory and waits for nobody.
    pub fn be_shown(&mut self, gate: &Gate, keeper: &mut KeeperSeat, block: u32)
        requires may { MayBeShown D.Disk gate.now self.old keeper.old block }
        ensures fits { StripeFits D.Disk self.new }
        ensures stands { (opening : Opening) → StripeStands D.Disk opening self.old
            → StripeStands D.Disk opening self.new }
        ensures keeper { keeper.new ≡ keeper.old }
        ensures seat { self.new.seat ≡ record {
          table = self.old.seat.table;
          part = sees self.old.seat.part true block;
        } }
        ensures same { (self.new.era ≡ self.old.era) × SameButStay self.old self.new }
    {
        gate.show(keeper, &mut self.seat, block);
    }

    /// Leaves the gate. No write is cut. It draws nothing, makes no device call and takes no memory.
    pub fn leave(&mut self, gate: &Gate, pass: &mut Pass)
        requires may { MayLeave D.Disk gate.now self.old pass.old }
        ensures fits { StripeFits D.Disk self.new }
        ensures stands { (opening : Opening) → StripeStands D.Disk opening self.old
            → StripeStands D.Disk opening self.new }
        ensures rest { IsAtRest self.new }
        ensures seat { self.new.seat ≡ record {
          table = self.old.seat.table;
          part = leaves self.old.seat.part;
        } }
        ensures pass { LeftBy self.new.seat.part pass.old pass.new }
        ensures same { SameButStay self.old self.new }
    {
        gate.leave(&mut self.seat, pass);
    }
}
