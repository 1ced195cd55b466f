//! What follows of a stripe that stands. The functions do nothing; their clauses are the laws.

ghost use Rattle.std.specs.Prelude.{◌≡◌, ◌<◌, ℕ, Bool, true, All};
ghost use Rattle.era_base.specs.CrashModel.{clock};
ghost use Rattle.era_model.specs.declared.entry.Entry.{Entry};
ghost use Rattle.era_model.specs.declared.opening.Opening.{Opening};
ghost use Rattle.era_notes.specs.Notes.{own_history};
ghost use Rattle.era_notes.specs.Parts.{LeavesContent};
ghost use Rattle.era_notes.specs.Windows.{AreOrdered};
ghost use Rattle.era_stripe.specs.Stripes.{StripeView, ViewStands, LeavesItsContent};

/// At each moment between two entries of a stripe that stands, each crash image of its part is, block by block, something
/// that a crash may leave of the content by the entries that were drawn by then; and so is what the part reads as.
pub fn stripe_leaves_its_content()
    ensures images { (tells : Bool) (opening : Opening) (view : StripeView)
        → ViewStands tells opening view → tells ≡ true → LeavesItsContent opening view }
    ensures now { (tells : Bool) (opening : Opening) (view : StripeView)
        → ViewStands tells opening view → tells ≡ true
        → LeavesContent view.part (own_history opening view.notes) view.history.now }
{}

/// Moments and places of a stripe that stands are in order, where all its entries are below a bound: so no window of them
/// is empty.
pub fn stripes_windows_are_ordered()
    ensures { (tells : Bool) (opening : Opening) (view : StripeView) (bound : ℕ)
        → ViewStands tells opening view → tells ≡ true
        → All (λ (e : Entry). e.place < bound) view.entries
        → AreOrdered view.begun (clock view.history) bound view.notes }
{}
