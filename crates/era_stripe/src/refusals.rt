//! What a stripe draws of a cut write that couldn't be resolved.

ghost use Rattle.std.specs.Prelude.{◌≡◌, [], ◌∷◌};
ghost use Rattle.era_gate.specs.Passes.{no_write};
ghost use Rattle.era_model.specs.declared.event.Event.TheVariants.{Refused};
ghost use Rattle.era_model.specs.declared.event.Kind.TheVariants.{Write as WriteKind};
ghost use Rattle.era_model.specs.declared.event.Why.TheVariants.{DataFault};
ghost use Rattle.era_model.specs.declared.opening.Opening.{Opening};

use crate::stripe::Stripe;
use era_base::{CmdId, Disk};
use era_gate::{Gate, Pass};
use era_model::{Event, Kind, Why};

impl<D: Disk> Stripe<D> {
    ghost use Rattle.era_stripe.specs.Calls.{Drew, IsNewCount, MayCall, MayDrawFault, SameRest};
    ghost use Rattle.era_stripe.specs.Results.{PassedOver, SameStay};
    ghost use Rattle.era_stripe.specs.Stripes.{HasCut, StripeFits, StripeStands};

    /// Draws that a command is refused by a fault of this part, with the part's count of faults.
    pub(crate) fn refuse_as(
        &mut self,
        gate: &Gate,
        pass: &mut Pass,
        id: CmdId,
        kind: Kind,
        count: u64,
    )
        requires fits { StripeFits D.Disk self.old }
        requires call { MayCall gate.now self.old pass.old id 1 }
        ensures fits { StripeFits D.Disk self.new }
        ensures stands { (opening : Opening) → IsNewCount D.Disk self.old count
            → StripeStands D.Disk opening self.old
            → StripeStands D.Disk opening self.new }
        ensures drew { Drew (Refused id kind (DataFault self.old.index count) ∷ []) no_write
            self.old self.new pass.old pass.new }
        ensures stay { SameStay self.old self.new }
        ensures same { SameRest self.old self.new }
    {
        let why = Why::DataFault {
            stripe: self.index,
            count,
        };
        self.note(gate, pass, Event::Refused { id, kind, why });
    }

    /// Draws that a write is refused, since a cut write before it couldn't be resolved: `count` is that of the failed settling,
    /// the disk's present one, which rose since the last entry of a stripe that stands. It makes no device call and takes no
    /// memory.
    pub fn refuse(&mut self, gate: &Gate, pass: &mut Pass, id: CmdId, count: u64)
        requires may { MayDrawFault D.Disk gate.now self.old pass.old id }
        ensures fits { StripeFits D.Disk self.new }
        ensures stands { (opening : Opening) → IsNewCount D.Disk self.old count
            → StripeStands D.Disk opening self.old
            → StripeStands D.Disk opening self.new }
        ensures drew { Drew (Refused id WriteKind (DataFault self.old.index count) ∷ []) no_write
            self.old self.new pass.old pass.new }
        ensures stay { SameStay self.old self.new }
        ensures same { SameRest self.old self.new }
    {
        self.refuse_as(gate, pass, id, Kind::Write, count);
    }

    /// Draws that a checkpoint couldn't resolve the cut write: `count` is that of the failed settling, the disk's present one,
    /// which rose since the last entry of a stripe that stands. It makes no device call and takes no memory.
    pub fn pass_over(&mut self, gate: &Gate, pass: &mut Pass, by: CmdId, count: u64)
        requires may { MayDrawFault D.Disk gate.now self.old pass.old by }
        requires cut { HasCut self.old }
        ensures fits { StripeFits D.Disk self.new }
        ensures stands { (opening : Opening) → IsNewCount D.Disk self.old count
            → StripeStands D.Disk opening self.old
            → StripeStands D.Disk opening self.new }
        ensures drew { PassedOver self.old.cut by count self.old self.new pass.old pass.new }
        ensures stay { SameStay self.old self.new }
        ensures same { SameRest self.old self.new }
    {
        let Some(cut) = self.cut.take() else {
            unreachable!()
        };
        let event = Event::Unsettled {
            by,
            cut: cut.id,
            faults: count,
        };
        self.cut = Some(cut);
        self.note(gate, pass, event);
    }
}
