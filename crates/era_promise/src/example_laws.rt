//! What the definitions say of a small session that is worked out by hand, and which claims they refuse. The functions do
//! nothing; their clauses are the laws.

ghost use Rattle.std.specs.Prelude.{◌≡◌, ℕ, List, Option, false, true};
ghost use Rattle.era_model.specs.Marks.{BlockMarks, written_since};
ghost use Rattle.era_model.specs.Rows.{journal_of};
ghost use Rattle.era_promise.specs.Calls.{AreCalls, IsHistoryOf, not_opened, served};
ghost use Rattle.era_notes.specs.OwnDraws.{AreOwnDraws};
ghost use Rattle.era_promise.specs.OwnConditions.{AreToldDraws};
ghost use Rattle.era_promise.specs.Owners.{AreOwnersDraws, logged_entries, stripe_at};
ghost use Rattle.era_promise.specs.Rows.{early_log, write_log, IsUnformatted, ReadsFlag, SmallCall, disks_of, flag_device, keeps_flag, marked, new_bytes, old_bytes, one_block, opened_on, sector_device, small_calls, stores_mark, unmarked, with_invented_note, with_metadata, with_part, without_notes, write_devices, write_events, write_journal};
ghost use Rattle.era_promise.specs.Sessions.{DevicesFollow, EndsDurable, whole_history};
ghost use Rattle.era_promise.specs.Survival.{JointCrash};

use era_base::laws::clean_disk_has_one_image;

/// Devices of a write follow its journal, and end with durable marks. In a crash before the request the block isn't listed, and in a crash behind the
/// write's issue it is.
pub fn small_session_is_followed()
    ensures follow { DevicesFollow ReadsFlag write_journal write_devices }
    ensures durable { EndsDurable ReadsFlag write_journal write_devices.metadata }
    ensures before { (contents : ℕ → List ℕ) (m : BlockMarks) (found : Option BlockMarks)
        → JointCrash ReadsFlag write_devices 0 contents m found → written_since m 1 0 ≡ false }
    ensures behind { (contents : ℕ → List ℕ) (m : BlockMarks) (found : Option BlockMarks)
        → JointCrash ReadsFlag write_devices 3 contents m found → written_since m 1 0 ≡ true }
{
    clean_disk_has_one_image();
}

/// Moments out of order and a session that begins behind its own entries, where a window would be empty, are refused.
pub fn empty_windows_are_refused()
    ensures moments { ¬ DevicesFollow ReadsFlag write_journal
        (with_metadata (flag_device stores_mark 0 1 0)) }
    ensures begun { ¬ DevicesFollow ReadsFlag write_journal
        (with_metadata (flag_device stores_mark 2 0 1)) }
{}

/// Notes of an entry that the journal has at another disk, and no notes where it has entries at the disk, are refused.
pub fn other_notes_are_refused()
    ensures invented { ¬ DevicesFollow ReadsFlag write_journal (with_metadata with_invented_note) }
    ensures left_out { ¬ DevicesFollow ReadsFlag write_journal (with_metadata without_notes) }
{}

/// A journal that opens on other contents than the origin had, or on other marks than the metadata disk stood for, is
/// refused.
pub fn other_openings_are_refused()
    ensures contents { ¬ DevicesFollow ReadsFlag
        (journal_of (opened_on unmarked new_bytes) write_events) write_devices }
    ensures marks { ¬ DevicesFollow ReadsFlag
        (journal_of (opened_on marked old_bytes) write_events) write_devices }
{}

/// A write that reached the disk before it was issued, and one that was acknowledged before it was synced, are refused.
pub fn unordered_writes_are_refused()
    ensures early { ¬ DevicesFollow ReadsFlag write_journal (with_part (sector_device 1 2)) }
    ensures unsynced { ¬ DevicesFollow ReadsFlag write_journal (with_part (sector_device 0 1)) }
{}

/// A mark that was drawn and never stored, and a block that the metadata disk lists before anybody asked, are refused.
pub fn unstored_and_unasked_marks_are_refused()
    ensures unstored { ¬ DevicesFollow ReadsFlag write_journal
        (with_metadata (flag_device (keeps_flag 0) 0 0 1)) }
    ensures unasked { ¬ DevicesFollow ReadsFlag write_journal
        (with_metadata (flag_device (keeps_flag 1) 0 0 1)) }
{}

/// A session on a blank metadata disk and a refused call behind it are calls in a row, and their history is that of the
/// session.
pub fn small_calls_are_in_a_row()
    ensures calls { AreCalls ReadsFlag IsUnformatted one_block 57 (disks_of old_bytes 2) small_calls }
    ensures history { IsHistoryOf small_calls (whole_history write_journal) }
{
    clean_disk_has_one_image();
}

/// An opening that loses a mark, one that has written the origin, and a session that opens as if nothing were marked, are
/// refused.
pub fn wrong_calls_are_refused()
    ensures lost { ¬ SmallCall (disks_of new_bytes 1) not_opened (disks_of new_bytes 0) }
    ensures written { ¬ SmallCall (disks_of old_bytes 1) not_opened (disks_of new_bytes 1) }
    ensures empty { ¬ SmallCall (disks_of old_bytes 1) (served write_journal write_devices 4)
        (disks_of new_bytes 1) }
{}

/// The log of a write is its owners', and meets what they and the gate tell of it; where the write is issued before its mark
/// is stored it doesn't.
pub fn small_log_is_told()
    ensures entries { write_journal.entries ≡ logged_entries write_log }
    ensures own { AreOwnDraws write_journal.opening (stripe_at write_journal.opening) write_log }
    ensures owners { AreOwnersDraws 1 write_journal.opening write_log }
    ensures told { AreToldDraws write_journal.opening write_log }
    ensures early { ¬ AreToldDraws write_journal.opening early_log }
{}
