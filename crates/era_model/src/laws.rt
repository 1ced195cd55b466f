//! What the definitions say of small sessions that are worked out by hand. The functions do nothing; their clauses
//! are the laws.

ghost use Rattle.std.specs.Prelude.{◌≡◌, ◌++◌, ℕ, List, [], ◌∷◌, Some, codes, false, length, replicate, take, true};
ghost use Rattle.era_base.specs.declared.limits.TheConstants.{MOST_SETS};
ghost use Rattle.hex.specs.Hex.{encode_lower};
ghost use Rattle.era_model.specs.Commands.{one_round};
ghost use Rattle.era_model.specs.Events.{drawn_by};
ghost use Rattle.era_model.specs.History.{content, in_flight};
ghost use Rattle.era_model.specs.Legal.{IsLegalJournal};
ghost use Rattle.era_model.specs.Marking.{held_of, marks_of};
ghost use Rattle.era_model.specs.Marks.{entry_of, marks_last_era, no_marks};
ghost use Rattle.era_model.specs.Rows.{first_lane, history_of, sector_of, small_opening, text_of, zeros};
ghost use Rattle.era_model.specs.RowsOfDigests.{digested_commands, digested_history, digested_journal, early_drop_journal};
ghost use Rattle.era_model.specs.RowsOfFaults.{cut_commands, cut_history, early_refusal_journal, early_switch_journal, failed_mark_commands, failed_mark_history, resolved_commands, resolved_history, resolved_journal, snapshot_commands, snapshot_events, snapshot_history, snapshot_journal};
ghost use Rattle.era_model.specs.RowsOfWrites.{early_write_journal, kept_history, kept_rounds, listed_commands, listed_history, merged_commands, merged_history, merged_text, read_back_commands, read_back_history, read_back_journal, two_writes_history};
ghost use Rattle.era_model.specs.SessionRun.{IsRun, is_among};
ghost use Rattle.era_model.specs.Transcript.{ReadToEnd, replies_text, session_transcript};
ghost use Rattle.era_model.specs.Writes.{is_cut};
ghost use Rattle.era_model.specs.declared.command.Command.{Command};
ghost use Rattle.era_model.specs.declared.event.Event.{Event};
ghost use Rattle.era_model.specs.declared.history.Happening.TheVariants.{Happened};
ghost use Rattle.era_model.specs.declared.history.Happening.{Happening};

/// A list since an era has each block whose last mark is of that era or a later one, and era 0 means the same as 1.
pub fn lists_have_the_blocks_since_their_era()
    ensures transcript { session_transcript listed_history (one_round listed_commands) ReadToEnd
        ≡ text_of (codes "open 1 64" ∷ codes "1 ok t0 m1 g2 d3" ∷ codes "2 blocks 0 l4"
        ∷ codes "3 blocks - l5"
        ∷ codes "4 blocks 0 l6" ∷ codes "end 1 7" ∷ []) }
    ensures marks { marks_last_era (marks_of listed_history) 0 ≡ 1 }
{}

/// A block is marked once in an era, and a read gives what its last writes wrote.
pub fn one_mark_serves_two_writes()
    ensures transcript { session_transcript read_back_history
        (one_round read_back_commands) ReadToEnd
        ≡ text_of (codes "open 1 64" ∷ codes "1 ok t0 m1 g2 d3" ∷ codes "2 ok g4 d5"
        ∷ (codes "3 data " ++ encode_lower (sector_of 170 ++ sector_of 187) ++ codes " r6")
        ∷ codes "end 1 7" ∷ []) }
    ensures content { content two_writes_history 0
        ≡ sector_of 170 ++ sector_of 187 ++ replicate 3072 0 }
{}

/// A write whose mark can't be stored is answered as a fault of the metadata, and its block isn't marked.
pub fn failed_mark_is_a_metadata_fault()
    ensures transcript { session_transcript failed_mark_history
        (one_round failed_mark_commands) ReadToEnd
        ≡ text_of (codes "open 1 64" ∷ codes "1 ok t0 m1 g2 d3" ∷ codes "2 fault meta 1 t4 f5"
        ∷ codes "end 1 6" ∷ []) }
    ensures marked { marks_last_era (marks_of failed_mark_history) 0 ≡ 1 }
    ensures unmarked { marks_last_era (marks_of failed_mark_history) 1 ≡ 0 }
{}

/// A write that fails is answered as a fault of the origin; it stays in flight, and its block's content isn't changed.
pub fn cut_write_is_a_data_fault()
    ensures transcript { session_transcript cut_history (one_round cut_commands) ReadToEnd
        ≡ text_of (codes "open 1 64" ∷ codes "1 fault data 1 t0 m1 g2 c3" ∷ codes "end 1 4" ∷ []) }
    ensures in_flight { is_cut (in_flight cut_history) (first_lane 0) ≡ true }
    ensures content { content cut_history 0 ≡ zeros }
{}

/// A cut write keeps the era until a checkpoint resolves it; then its block has the bytes that were read back.
pub fn cut_write_keeps_the_era_until_resolved()
    ensures transcript { session_transcript resolved_history (one_round resolved_commands) ReadToEnd
        ≡ text_of (codes "open 1 64" ∷ codes "1 fault data 1 t0 m1 g2 c3" ∷ codes "2 kept 1 u4 k5"
        ∷ codes "3 era 2 s6 e7"
        ∷ codes "end 2 8" ∷ []) }
    ensures content { content resolved_history 0 ≡ sector_of 170 ++ replicate 3584 0 }
{}

/// An era switch over sixteen archived sets merges the oldest one into the era array.
pub fn seventeenth_switch_merges_the_oldest_set()
    ensures transcript { session_transcript merged_history (one_round merged_commands) ReadToEnd
        ≡ merged_text }
    ensures sets { length (marks_of merged_history).archive ≡ MOST_SETS }
    ensures entry { entry_of (marks_of merged_history).array 3 ≡ 1 }
{}

/// A list by the snapshot has the marks of its taking; a second taking, and dropping or listing without one, are refused.
pub fn snapshot_lists_what_it_held()
    ensures transcript { session_transcript snapshot_history (one_round snapshot_commands) ReadToEnd
        ≡ text_of (codes "open 1 64" ∷ codes "1 snap 2 p0" ∷ codes "2 held 2 f1"
        ∷ codes "3 status 8 5/57 1 2 q2"
        ∷ codes "4 ok t3 m4 g5 d6" ∷ codes "5 blocks - l7" ∷ codes "6 blocks 0 l8"
        ∷ codes "7 ok x9" ∷ codes "8 none f10"
        ∷ codes "9 none f11" ∷ codes "end 1 12" ∷ []) }
    ensures held { held_of (history_of (small_opening 4 []) (take 9 snapshot_events))
        ≡ Some (no_marks 512 8 1) }
{}

/// A write under way makes a checkpoint of another lane keep the era.
pub fn write_under_way_keeps_the_era()
    ensures transcript { session_transcript kept_history kept_rounds ReadToEnd
        ≡ text_of (codes "open 1 64" ∷ codes "1 ok t0 m1 g2 d3" ∷ codes "3 ok g5 d6"
        ∷ codes "4 kept 1 k4" ∷ codes "6 era 2 e7"
        ∷ codes "end 2 8" ∷ []) }
{}

/// A read may give what two acknowledged writes wrote.
pub fn acknowledged_writes_are_legal()
    ensures { IsLegalJournal read_back_journal }
{}

/// A write may not be issued before its mark is stored.
pub fn write_before_its_mark_is_illegal()
    ensures { ¬ IsLegalJournal early_write_journal }
{}

/// A cut write may be resolved by a later checkpoint, which then may move the era.
pub fn resolved_write_is_legal()
    ensures { IsLegalJournal resolved_journal }
{}

/// The era may not move while a write is cut.
pub fn switch_over_a_cut_write_is_illegal()
    ensures { ¬ IsLegalJournal early_switch_journal }
{}

/// A snapshot may be taken, listed and dropped.
pub fn snapshot_session_is_legal()
    ensures { IsLegalJournal snapshot_journal }
{}

/// Dropping may not be refused while a snapshot is held.
pub fn refusal_without_cause_is_illegal()
    ensures { ¬ IsLegalJournal early_refusal_journal }
{}

/// Two writes and a read draw events that their commands may have, in the order of their lane.
pub fn writes_and_a_read_are_a_run()
    ensures { IsRun read_back_history (one_round read_back_commands) }
{}

/// A cut write, a checkpoint that can't resolve it and one that does draw events that their commands may have.
pub fn checkpoints_over_a_cut_write_are_a_run()
    ensures { IsRun resolved_history (one_round resolved_commands) }
{}

/// An event leaves the replies to commands that didn't draw it.
pub fn replies_are_of_own_events()
    ensures { (h : List Happening) (event : Event) (commands : List Command)
        → is_among (drawn_by event) commands ≡ false
        → replies_text (Happened event ∷ h) commands ≡ replies_text h commands }
{}

/// Replies to commands in a row stand in a row.
pub fn replies_stand_in_order()
    ensures { (h : List Happening) (first second : List Command)
        → replies_text h (first ++ second) ≡ replies_text h first ++ replies_text h second }
{}

/// A session that takes, lists and drops a snapshot draws events that its commands may have.
pub fn snapshot_session_is_a_run()
    ensures { IsRun snapshot_history (one_round snapshot_commands) }
{}

/// Commands of two lanes may draw their events in any order that keeps each lane's.
pub fn two_lanes_are_a_run()
    ensures { IsRun kept_history kept_rounds }
{}

/// A digest transcribes the pages of the oldest set and then drops it; its blocks keep their last marked era.
pub fn digests_keep_last_eras()
    ensures transcript { session_transcript digested_history (one_round digested_commands) ReadToEnd
        ≡ text_of (codes "open 1 64" ∷ codes "1 ok t0 m1 g2 d3" ∷ codes "2 era 2 e4"
        ∷ codes "3 digest 1 0 a5"
        ∷ codes "4 digest 1 - a6" ∷ codes "5 idle f7" ∷ codes "end 2 8" ∷ []) }
    ensures sets { (marks_of digested_history).archive ≡ [] }
    ensures last { marks_last_era (marks_of digested_history) 5 ≡ 1 }
{}

/// Digests by their rule are legal.
pub fn digests_are_legal()
    ensures { IsLegalJournal digested_journal }
{}

/// Digests draw events that their commands may have.
pub fn digests_are_a_run()
    ensures { IsRun digested_history (one_round digested_commands) }
{}

/// A set may not be dropped before its pages are transcribed.
pub fn early_drop_is_illegal()
    ensures { ¬ IsLegalJournal early_drop_journal }
{}
