//! What the definitions say of a small session that is worked out by hand, and which claims they refuse. The functions do
//! nothing; their clauses are the laws.

ghost use Rattle.std.specs.Prelude.{List, [], ◌∷◌, false};
ghost use Rattle.era_journal.specs.OwnersStand.{OwnersStand};
ghost use Rattle.era_journal.specs.Requests.{MarksFollowRequests};
ghost use Rattle.era_journal.specs.Rows.{early_acts, keeper_seen, late_log, part_with, silent_opening, stripe_seen, write_acts};
ghost use Rattle.era_keeper.specs.Keepers.{KeeperView};
ghost use Rattle.era_stripe.specs.Stripes.{StripeView};

use era_model::{marks_are_kept, marks_follow_journal};

/// The owners of a small session's devices stand.
pub fn small_owners_stand()
    ensures { OwnersStand false silent_opening write_acts (stripe_seen (part_with 1) ∷ [])
        keeper_seen }
{
    marks_follow_journal();
    marks_are_kept();
}

/// A stripe without its block, a write that is issued before its mark is stored, and a mark that doesn't follow its request,
/// are refused.
pub fn other_owners_are_refused()
    ensures part { ¬ OwnersStand false silent_opening write_acts (stripe_seen (part_with 0) ∷ [])
        keeper_seen }
    ensures early { (views : List StripeView) (keeper : KeeperView)
        → ¬ OwnersStand false silent_opening early_acts views keeper }
    ensures late { ¬ MarksFollowRequests silent_opening late_log }
{}
