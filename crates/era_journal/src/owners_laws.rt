//! What the owners of a session's devices say of its journal, from what stands of each of them. The functions do nothing;
//! their clauses are the laws.

ghost use Rattle.std.specs.Prelude.{◌≡◌, ◌<◌, ℕ, All, Bool, List, None, Some, slice_get};
ghost use Rattle.era_gate.specs.Acts.{Act, IsLegalFrom, lane_of, opened};
ghost use Rattle.era_gate.specs.Drawn.{drawn};
ghost use Rattle.era_gate.specs.Gathered.{account_of};
ghost use Rattle.era_gate.specs.Receipts.{entries_in};
ghost use Rattle.era_gate.specs.Tells.{AreCollected, Tells, reached};
ghost use Rattle.era_gate.specs.declared.parts.KeeperPart.{KeeperPart};
ghost use Rattle.era_gate.specs.declared.parts.LanePart.{LanePart};
ghost use Rattle.era_gate.specs.declared.parts.StripePart.{StripePart};
ghost use Rattle.era_gate.specs.declared.plan.Plan.{Plan};
ghost use Rattle.era_journal.specs.ActsLog.{log_of};
ghost use Rattle.era_journal.specs.OwnersStand.{OwnersStand};
ghost use Rattle.era_gate.specs.Requests.{MarksStandBehindRequests};
ghost use Rattle.era_journal.specs.Requests.{MarksFollowRequests};
ghost use Rattle.era_keeper.specs.Keepers.{KeeperView};
ghost use Rattle.era_model.specs.Legal.{IsLegalJournal};
ghost use Rattle.era_model.specs.declared.entry.Entry.{Entry};
ghost use Rattle.era_model.specs.declared.journal.Journal.{Journal};
ghost use Rattle.era_model.specs.declared.opening.Opening.{Opening};
ghost use Rattle.era_notes.specs.OwnDraws.{AreOwnDraws};
ghost use Rattle.era_promise.specs.OwnConditions.{AreToldDraws};
ghost use Rattle.era_promise.specs.Owners.{AreOwnersDraws, logged_entries, stripe_at};
ghost use Rattle.era_stripe.specs.Stripes.{StripeView};

use crate::acts_laws::acts_are_a_log;
use era_gate::laws::{
    collected_journals_are_legal, lanes_have_their_receipts, legal_acts_meet_the_model,
};
use era_notes::own_laws::notes_follow_the_log;
use era_promise::owner_laws::{
    owners_draw_at_their_disks, owners_journals_are_legal, told_counts_ascend,
};

/// Where the owners of a session's devices stand, each write in the log of their gate is issued to a block of its drawer,
/// once for each command, and ends and is resolved by its drawer; and each draw is one that its owner may make.
pub fn owners_draws_are_own()
    ensures own { (tells : Bool) (opening : Opening) (acts : List Act) (views : List StripeView)
        (keeper : KeeperView) → OwnersStand tells opening acts views keeper
        → AreOwnDraws opening (stripe_at opening) (log_of opening.stripes acts) }
    ensures owners { (tells : Bool) (opening : Opening) (acts : List Act)
        (views : List StripeView) (keeper : KeeperView)
        → OwnersStand tells opening acts views keeper
        → AreOwnersDraws opening.stripes opening (log_of opening.stripes acts) }
{
    acts_are_a_log();
    notes_follow_the_log();
    legal_acts_meet_the_model();
}

/// Where the owners of a session's devices stand, each draw in the log of their gate meets what its owner's own draws tell,
/// and what is told beside: by the gate, and by the order of its command's events.
pub fn owners_draws_are_told()
    ensures { (tells : Bool) (opening : Opening) (acts : List Act) (views : List StripeView)
        (keeper : KeeperView) → OwnersStand tells opening acts views keeper
        → AreToldDraws opening (log_of opening.stripes acts) }
{
    acts_are_a_log();
    notes_follow_the_log();
    legal_acts_meet_the_model();
    owners_draws_are_own();
    owners_draw_at_their_disks();
    told_counts_ascend();
}

/// Entries that are collected from the seats of a gate that ended are those of the log of its acts.
pub fn collected_entries_are_of_the_log()
    ensures { (plan : Plan) (places : ℕ) (parts : List StripePart) (kept : KeeperPart)
        (lanes : List LanePart) (acts : List Act) (entries : List Entry)
        → Tells plan places parts kept lanes acts → AreCollected places parts kept entries
        → entries ≡ logged_entries (log_of plan.stripes acts) }
{
    collected_journals_are_legal();
    acts_are_a_log();
}

/// The seats of which a gate that ended tells have the states to which its acts came.
pub fn seats_have_the_states_of_acts()
    ensures stripes { (plan : Plan) (places : ℕ) (parts : List StripePart) (kept : KeeperPart)
        (lanes : List LanePart) (acts : List Act) (index : ℕ) (part : StripePart)
        → Tells plan places parts kept lanes acts → slice_get parts index ≡ Some part
        → part.state ≡ (reached plan acts).stripe part.stripe }
    ensures keeper { (plan : Plan) (places : ℕ) (parts : List StripePart) (kept : KeeperPart)
        (lanes : List LanePart) (acts : List Act) → Tells plan places parts kept lanes acts
        → kept.state ≡ (reached plan acts).keeper }
{}

/// Where among the entries of each lane's receipts each mark stands directly behind its request, it follows its request in
/// the log. Where all that was drawn is of lanes below a number, the receipts of these tell it; and of legal acts those of
/// the 65 lanes do.
pub fn receipts_tell_of_requests()
    ensures all { (opening : Opening) (acts : List Act)
        → ((l : ℕ) → MarksStandBehindRequests None
        (entries_in ((account_of opening acts).lane l)))
        → MarksFollowRequests opening (log_of opening.stripes acts) }
    ensures below { (opening : Opening) (acts : List Act) (lanes : ℕ)
        → All (λ (entry : Entry). lane_of entry.event < lanes) (drawn 0 acts)
        → ((l : ℕ) → l < lanes → MarksStandBehindRequests None
        (entries_in ((account_of opening acts).lane l)))
        → MarksFollowRequests opening (log_of opening.stripes acts) }
    ensures legal { (opening : Opening) (acts : List Act)
        → IsLegalFrom opening.stripes (opened opening.era) acts
        → ((l : ℕ) → l < 65 → MarksStandBehindRequests None
        (entries_in ((account_of opening acts).lane l)))
        → MarksFollowRequests opening (log_of opening.stripes acts) }
{
    lanes_have_their_receipts();
    acts_are_a_log();
}

/// Where the owners of a session's devices stand, the journal of the entries in their log is legal.
pub fn owners_make_a_legal_journal()
    ensures { (tells : Bool) (journal : Journal) (acts : List Act) (views : List StripeView)
        (keeper : KeeperView) → OwnersStand tells journal.opening acts views keeper
        → journal.entries ≡ logged_entries (log_of journal.opening.stripes acts)
        → IsLegalJournal journal }
{
    owners_draws_are_own();
    owners_draws_are_told();
    owners_journals_are_legal();
}
