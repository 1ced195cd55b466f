//! How the devices of a session follow its journal, from what stands of their owners. The functions do nothing; their
//! clauses are the laws.

ghost use Rattle.std.specs.Prelude.{◌≡◌, Bool, List, true};
ghost use Rattle.era_gate.specs.Acts.{Act};
ghost use Rattle.era_journal.specs.ActsLog.{log_of};
ghost use Rattle.era_journal.specs.OwnersStand.{OwnersStand};
ghost use Rattle.era_journal.specs.SeenDevices.{StandsForMarks, devices_seen, metadata_seen};
ghost use Rattle.era_keeper.specs.Keepers.{KeeperView};
ghost use Rattle.era_keeper.specs.Recovery.{LeavesDurable};
ghost use Rattle.era_model.specs.declared.journal.Journal.{Journal};
ghost use Rattle.era_notes.specs.Notes.{own_history};
ghost use Rattle.era_promise.specs.Openings.{HasOneMeaning};
ghost use Rattle.era_promise.specs.Owners.{OwnersKeep, logged_entries};
ghost use Rattle.era_promise.specs.Sessions.{DevicesFollow, EndsDurable};
ghost use Rattle.era_promise.specs.Survival.{SurvivesCrashes};
ghost use Rattle.era_slots.specs.Slot.{IsBlank};
ghost use Rattle.era_stripe.specs.Stripes.{StripeView};

use crate::acts_laws::acts_are_a_log;
use crate::image_format::EraFormat;
use crate::owners_laws::{owners_draws_are_own, owners_make_a_legal_journal};
use era_gate::laws::legal_acts_meet_the_model;
use era_meta::laws::image_stands_for_one_meaning;
use era_notes::own_laws::{durable_marks_follow_the_log, notes_follow_the_log};
use era_promise::laws::changes_survive_crashes;
use era_promise::owner_laws::{devices_follow_their_owners, owners_draw_at_their_disks};

/// An image of a metadata disk stands for one meaning at most, and a blank one for none.
pub fn images_have_one_meaning()
    ensures { HasOneMeaning StandsForMarks IsBlank }
{
    image_stands_for_one_meaning();
}

/// Where the owners of a session's devices stand, and the disks tell, the owners have kept them: each stripe's part holds its
/// content, and the metadata disk stands for marks that may be recovered, by their own draws at each moment.
pub fn owners_keep_their_devices()
    ensures { (journal : Journal) (acts : List Act) (views : List StripeView)
        (keeper : KeeperView) → OwnersStand true journal.opening acts views keeper
        → journal.entries ≡ logged_entries (log_of journal.opening.stripes acts)
        → OwnersKeep StandsForMarks journal (devices_seen views keeper)
        journal.opening.stripes (log_of journal.opening.stripes acts) }
{
    acts_are_a_log();
    notes_follow_the_log();
    legal_acts_meet_the_model();
    owners_draws_are_own();
    owners_make_a_legal_journal();
}

/// The devices of such owners follow the journal; and in a crash of all of them at any place of it, the marks that are found
/// list right.
pub fn owners_devices_follow()
    ensures follow { (journal : Journal) (acts : List Act) (views : List StripeView)
        (keeper : KeeperView) → OwnersStand true journal.opening acts views keeper
        → journal.entries ≡ logged_entries (log_of journal.opening.stripes acts)
        → DevicesFollow StandsForMarks journal (devices_seen views keeper) }
    ensures survive { (journal : Journal) (acts : List Act) (views : List StripeView)
        (keeper : KeeperView) → OwnersStand true journal.opening acts views keeper
        → journal.entries ≡ logged_entries (log_of journal.opening.stripes acts)
        → SurvivesCrashes StandsForMarks journal (devices_seen views keeper) }
{
    images_have_one_meaning();
    owners_keep_their_devices();
    devices_follow_their_owners::<EraFormat>();
    changes_survive_crashes::<EraFormat>();
}

/// Where such owners stand, and each image that a crash leaves of the metadata disk at its end is durable by the keeper's
/// entries, it is durable by the whole journal.
pub fn kept_metadata_ends_durable()
    ensures { (tells : Bool) (journal : Journal) (acts : List Act) (views : List StripeView)
        (keeper : KeeperView) → OwnersStand tells journal.opening acts views keeper
        → journal.entries ≡ logged_entries (log_of journal.opening.stripes acts)
        → LeavesDurable (own_history journal.opening keeper.notes) keeper.history.now
        → EndsDurable StandsForMarks journal (metadata_seen keeper) }
{
    acts_are_a_log();
    notes_follow_the_log();
    legal_acts_meet_the_model();
    image_stands_for_one_meaning();
    durable_marks_follow_the_log();
    owners_draws_are_own();
    owners_draw_at_their_disks();
}
