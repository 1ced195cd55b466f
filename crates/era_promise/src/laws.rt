//! What follows of a session whose devices follow a legal journal, and of calls in a row. The functions do nothing; their
//! clauses are the laws.

ghost use Rattle.std.specs.Prelude.{◌≡◌, ◌<◌, ◌≤◌, ℕ, List, Option, false, length, max, nat_le};
ghost use Rattle.era_base.specs.CrashModel.{IsCrashImage, clock};
ghost use Rattle.era_base.specs.declared.geometry.Geometry.{Geometry};
ghost use Rattle.era_model.specs.Counts.{FaultyDisk};
ghost use Rattle.era_model.specs.History.{blocks_now};
ghost use Rattle.era_model.specs.Marking.{journal_last_era};
ghost use Rattle.era_model.specs.Marks.{BlockMarks, written_since};
ghost use Rattle.era_model.specs.Recovered.{fails_after_commits, is_write};
ghost use Rattle.era_model.specs.declared.journal.Journal.{Journal};
ghost use Rattle.era_notes.specs.Windows.{IsInWindow, IsLeftAt, NotedDevice};
ghost use Rattle.era_promise.specs.Calls.{AreCalls, Disks, EndedCall, SurvivesCalls};
ghost use Rattle.era_promise.specs.Openings.{HasOneMeaning};
ghost use Rattle.era_promise.specs.Sessions.{DevicesFollow, EndsDurable, IsPartAt, NotesAreOf, PartDevice, SessionDevices, whole_history};
ghost use Rattle.era_promise.specs.Survival.{SurvivesCrashes};

use crate::image_meaning::ImageMeaning;
use era_base::laws::disk_as_it_reads_is_an_image;
use era_core::sessions_stand_by_themselves;
use era_model::{
    coverage_goes_on, marks_follow_journal, moments_are_legal, no_changed_block_missed,
    no_unasked_block_listed,
};
use era_notes::laws::windows_are_never_empty;

/// In a crash of all devices at any place of a journal that they follow, the marks that are found list, since each era,
/// every block that differs from its content when the era began, and only blocks that were asked to be marked; and they
/// cover the changes from any older base that the opening's marks covered.
pub fn changes_survive_crashes<F: ImageMeaning>()
    ensures { (journal : Journal) (devices : SessionDevices)
        → DevicesFollow F.stands_for journal devices → SurvivesCrashes F.stands_for journal devices }
{
    moments_are_legal();
    no_changed_block_missed();
    no_unasked_block_listed();
    coverage_goes_on();
}

/// At each place of a journal that devices follow a crash leaves some image of each of them, and of the metadata disk one
/// that stands for marks; and each moment of a device, from the session's beginning on it to its last one, is in the window of
/// some place.
pub fn each_place_may_crash<F: ImageMeaning>()
    ensures parts { (journal : Journal) (devices : SessionDevices) (place stripe : ℕ)
        (one : PartDevice) → DevicesFollow F.stands_for journal devices
        → IsPartAt devices stripe one
        → (image : List ℕ) × IsLeftAt one.device place image }
    ensures metadata { (journal : Journal) (devices : SessionDevices) (place : ℕ)
        → DevicesFollow F.stands_for journal devices → place ≤ length journal.entries
        → (image : List ℕ) × (m : BlockMarks) × (found : Option BlockMarks)
        × IsLeftAt devices.metadata place image × F.stands_for image m found }
    ensures moments { (journal : Journal) (disk : FaultyDisk) (device : NotedDevice) (moment : ℕ)
        → NotesAreOf journal disk device → device.begun ≤ moment
        → moment ≤ clock device.history
        → (place : ℕ) × (place ≤ length journal.entries) × IsInWindow device place moment }
{
    windows_are_never_empty();
    disk_as_it_reads_is_an_image();
}

/// Where a session ended without a write that failed at the metadata disk behind the last commit, the marks that are found
/// list since each era just the blocks whose last mark by the journal is of that era or a later one.
pub fn ended_sessions_list_their_marks<F: ImageMeaning>()
    ensures { (journal : Journal) (metadata : NotedDevice) (image : List ℕ) (m : BlockMarks)
        (found : Option BlockMarks) (era block : ℕ)
        → EndsDurable F.stands_for journal metadata
        → fails_after_commits is_write (whole_history journal) (whole_history journal) ≡ false
        → IsCrashImage metadata.history.now image → F.stands_for image m found
        → block < blocks_now (whole_history journal)
        → written_since m era block
        ≡ nat_le (max era 1) (journal_last_era (whole_history journal) block) }
{}

/// After calls in a row, of which each served a session up to its crash or its end, or was refused or cut off while it
/// opened: the marks that are found list right since each era, by a legal history of these calls. An image stands for one
/// meaning at most.
pub fn changes_survive_calls<F: ImageMeaning>()
    ensures { (g : Geometry) (metadata_blocks : ℕ) (first : Disks) (calls : List EndedCall)
        → HasOneMeaning F.stands_for F.is_blank
        → AreCalls F.stands_for F.is_blank g metadata_blocks first calls
        → SurvivesCalls F.stands_for g first calls }
{
    moments_are_legal();
    marks_follow_journal();
    sessions_stand_by_themselves();
    disk_as_it_reads_is_an_image();
    no_changed_block_missed();
    no_unasked_block_listed();
    coverage_goes_on();
}
