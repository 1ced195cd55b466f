//! What the owners of a session's devices have kept, each by its own entries, and what it says of the whole journal. The
//! functions do nothing; their clauses are the laws.

ghost use Rattle.std.specs.Prelude.{◌≡◌, ℕ, List, true};
ghost use Rattle.era_base.specs.Faults.{Rose};
ghost use Rattle.era_base.specs.declared.ids.CmdId.{CmdId};
ghost use Rattle.era_model.specs.Conditions.{MayBeCut, MayFinish, MayRead, MaySettle, MayStayCut};
ghost use Rattle.era_model.specs.Counts.{CountAscends, PartOf};
ghost use Rattle.era_model.specs.History.{in_flight};
ghost use Rattle.era_model.specs.Legal.{IsLegalJournal, IsOpening, MayHappen};
ghost use Rattle.era_model.specs.Writes.{is_cut};
ghost use Rattle.era_model.specs.declared.event.Event.{Event};
ghost use Rattle.era_model.specs.declared.journal.Journal.{Journal};
ghost use Rattle.era_model.specs.declared.opening.Opening.{Opening};
ghost use Rattle.era_notes.specs.Logs.{Draw, drawer_history, logged_history, noted_entries, own_entries};
ghost use Rattle.era_notes.specs.Notes.{CountsRise, Note, last_faults};
ghost use Rattle.era_notes.specs.OwnDraws.{AreOwnDraws, StripesDraw};
ghost use Rattle.era_promise.specs.Openings.{HasOneMeaning};
ghost use Rattle.era_promise.specs.OwnConditions.{AreToldDraws};
ghost use Rattle.era_promise.specs.Owners.{AreDrawnByOwners, AreOwnersDraws, OwnersKeep, disk_of, is_told_by_keeper, logged_entries, stripe_at};
ghost use Rattle.era_promise.specs.Sessions.{DevicesFollow, SessionDevices};

use crate::image_meaning::ImageMeaning;
use era_notes::own_laws::{
    keeper_draws_tell_of_the_marks, notes_follow_the_log, own_draws_tell_of_their_blocks,
    parts_follow_the_log, recovered_marks_follow_the_log,
};

/// Where the owners of a session's devices have kept them, each by its own entries, the devices follow the journal of all
/// entries: each at its own moments, in the window of each place.
pub fn devices_follow_their_owners<F: ImageMeaning>()
    ensures { (journal : Journal) (devices : SessionDevices) (keeper : ℕ) (log : List Draw)
        → HasOneMeaning F.stands_for F.is_blank
        → OwnersKeep F.stands_for journal devices keeper log
        → DevicesFollow F.stands_for journal devices }
{
    own_draws_tell_of_their_blocks();
    notes_follow_the_log();
    parts_follow_the_log();
    recovered_marks_follow_the_log();
}

/// Where each draw is one that its owner may make: it is made at its owner's disk, and stripes draw events of stripes alone.
pub fn owners_draw_at_their_disks()
    ensures disks { (keeper : ℕ) (opening : Opening) (log : List Draw)
        → AreOwnDraws opening (stripe_at opening) log → AreOwnersDraws keeper opening log
        → AreDrawnByOwners keeper opening log }
    ensures stripes { (keeper : ℕ) (opening : Opening) (log : List Draw)
        → AreOwnersDraws keeper opening log → StripesDraw keeper log }
{
    own_draws_tell_of_their_blocks();
}

/// A count of faults that is above a device's count at its owner's last entry is above the last one that the session told
/// of the device.
pub fn told_counts_ascend()
    ensures { (keeper : ℕ) (opening : Opening) (log : List Draw) (drawer least faults count : ℕ)
        (notes : List Note) → AreDrawnByOwners keeper opening log
        → noted_entries notes ≡ own_entries drawer log → CountsRise least faults notes
        → Rose (last_faults least notes) count
        → CountAscends (logged_history opening log) (disk_of keeper drawer) count }
{}

/// Where all others draw events of stripes alone: an event of the keeper that may happen by the keeper's own draws may
/// happen by the whole journal, but for a mark, a switch and an era that is kept.
pub fn keepers_events_follow_the_log()
    ensures { (opening : Opening) (keeper : ℕ) (log : List Draw) (event : Event)
        → StripesDraw keeper log → is_told_by_keeper event ≡ true
        → MayHappen (drawer_history opening keeper log) event
        → MayHappen (logged_history opening log) event }
{
    keeper_draws_tell_of_the_marks();
}

/// Where each write is issued to a block of its drawer: what becomes of a stripe's write, and a read of its block, may happen
/// by the whole journal where it may happen by the stripe's own draws, and a count that it tells ascends.
pub fn stripes_events_follow_the_log()
    ensures done { (opening : Opening) (log : List Draw) (stripe : ℕ) (id : CmdId)
        → AreOwnDraws opening (stripe_at opening) log
        → MayFinish (drawer_history opening stripe log) id
        → MayFinish (logged_history opening log) id }
    ensures cut { (opening : Opening) (log : List Draw) (stripe : ℕ) (id : CmdId) (faults : ℕ)
        → AreOwnDraws opening (stripe_at opening) log
        → MayFinish (drawer_history opening stripe log) id
        → CountAscends (logged_history opening log) (PartOf stripe) faults
        → MayBeCut (logged_history opening log) id faults }
    ensures settled { (opening : Opening) (log : List Draw) (stripe : ℕ) (cut : CmdId)
        (bytes : List ℕ) → AreOwnDraws opening (stripe_at opening) log
        → MaySettle (drawer_history opening stripe log) cut bytes
        → MaySettle (logged_history opening log) cut bytes }
    ensures unsettled { (opening : Opening) (log : List Draw) (stripe : ℕ) (cut : CmdId)
        (faults : ℕ) → AreOwnDraws opening (stripe_at opening) log
        → is_cut (in_flight (drawer_history opening stripe log)) cut ≡ true
        → CountAscends (logged_history opening log) (PartOf stripe) faults
        → MayStayCut (logged_history opening log) cut faults }
    ensures read { (opening : Opening) (log : List Draw) (stripe sector : ℕ) (bytes : List ℕ)
        → AreOwnDraws opening (stripe_at opening) log
        → (may : MayRead (drawer_history opening stripe log) sector bytes)
        → stripe_at opening may.block ≡ stripe
        → MayRead (logged_history opening log) sector bytes }
{
    own_draws_tell_of_their_blocks();
}

/// The journal of a log is legal where its session may open, each draw is its owner's, and each meets what its owner's own
/// draws tell and what is told beside: by the gate, and by the order of its command's events.
pub fn owners_journals_are_legal()
    ensures { (journal : Journal) (keeper : ℕ) (log : List Draw) → IsOpening journal.opening
        → journal.entries ≡ logged_entries log
        → AreOwnDraws journal.opening (stripe_at journal.opening) log
        → AreOwnersDraws keeper journal.opening log → AreToldDraws journal.opening log
        → IsLegalJournal journal }
{
    own_draws_tell_of_their_blocks();
    keeper_draws_tell_of_the_marks();
}
