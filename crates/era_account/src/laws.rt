//! What follows of a session that ended. The functions do nothing; their clauses are the laws.

ghost use Rattle.std.specs.Prelude.{◌≡◌, ℕ, List, true};
ghost use Rattle.era_account.specs.Account.{HasEnded, session_devices};
ghost use Rattle.era_gate.specs.Acts.{Act};
ghost use Rattle.era_journal.specs.OwnersStand.{OwnersStand};
ghost use Rattle.era_journal.specs.SeenDevices.{StandsForMarks, metadata_seen};
ghost use Rattle.era_keeper.specs.Keepers.{view_of as keeper_view};
ghost use Rattle.era_keeper.specs.Recovery.{LeavesDurable};
ghost use Rattle.era_model.specs.Legal.{IsLegalJournal};
ghost use Rattle.era_model.specs.declared.journal.Journal.{Journal};
ghost use Rattle.era_notes.specs.Notes.{own_history};
ghost use Rattle.era_promise.specs.Sessions.{DevicesFollow, EndsDurable};
ghost use Rattle.era_promise.specs.Survival.{SurvivesCrashes};
ghost use Rattle.era_session.specs.Ends.{stripe_views};
ghost use Rattle.era_session.specs.declared.session.Session.{Session};

use era_base::Disk;
use era_journal::devices_laws::{kept_metadata_ends_durable, owners_devices_follow};
use era_journal::owners_laws::{owners_make_a_legal_journal, receipts_tell_of_requests};

/// At the end of a session the owners of its devices stand beside the acts of its gate.
pub fn owners_stand_at_the_end<D: Disk>()
    ensures { (journal : Journal) (session : Session D) (places : ℕ) (acts : List Act)
        → HasEnded D.Disk journal session places acts
        → OwnersStand D.tells journal.opening acts (stripe_views D.Disk session.stripes.items)
        (keeper_view D.Disk session.keeper) }
{
    receipts_tell_of_requests();
}

/// A session ends with a legal journal.
pub fn ended_sessions_have_legal_journals<D: Disk>()
    ensures { (journal : Journal) (session : Session D) (places : ℕ) (acts : List Act)
        → HasEnded D.Disk journal session places acts → IsLegalJournal journal }
{
    owners_stand_at_the_end::<D>();
    owners_make_a_legal_journal();
}

/// Where the disks tell their content, the session's devices follow its journal; and in a crash of all of them at any place
/// of it, the marks that are found list each block that has changed since an era, and only blocks that were asked to be
/// marked.
pub fn ended_sessions_devices_follow<D: Disk>()
    ensures follow { D.tells ≡ true
        → (journal : Journal) (session : Session D) (places : ℕ) (acts : List Act)
        → HasEnded D.Disk journal session places acts
        → DevicesFollow StandsForMarks journal (session_devices D.Disk session) }
    ensures survive { D.tells ≡ true
        → (journal : Journal) (session : Session D) (places : ℕ) (acts : List Act)
        → HasEnded D.Disk journal session places acts
        → SurvivesCrashes StandsForMarks journal (session_devices D.Disk session) }
{
    owners_stand_at_the_end::<D>();
    owners_devices_follow();
}

/// Where each image that a crash leaves of the metadata disk at the end is durable by the keeper's entries, it is durable by
/// the session's journal.
pub fn ended_sessions_metadata_is_durable<D: Disk>()
    ensures { (journal : Journal) (session : Session D) (places : ℕ) (acts : List Act)
        → HasEnded D.Disk journal session places acts
        → LeavesDurable
        (own_history journal.opening (keeper_view D.Disk session.keeper).notes)
        (keeper_view D.Disk session.keeper).history.now
        → EndsDurable StandsForMarks journal (metadata_seen (keeper_view D.Disk session.keeper)) }
{
    owners_stand_at_the_end::<D>();
    kept_metadata_ends_durable();
}
