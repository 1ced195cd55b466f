//! What a crash and the end of a session may leave of the metadata of small sessions, and what may not be recovered.
//! The functions do nothing; their clauses are the laws.

ghost use Rattle.std.specs.Prelude.{◌≡◌, [], None, Option, Some};
ghost use Rattle.era_model.specs.Crashes.{MayCrash, MayEnd};
ghost use Rattle.era_model.specs.Journal.{with_contents};
ghost use Rattle.era_model.specs.Legal.{IsLegalJournal};
ghost use Rattle.era_model.specs.Marks.{BlockMarks};
ghost use Rattle.era_model.specs.Recovered.{IsRecoveredFrom};
ghost use Rattle.era_model.specs.Rows.{sector_of, zeros};
ghost use Rattle.era_model.specs.RowsOfCrashes.{crash_images};
ghost use Rattle.era_model.specs.RowsOfRecoveries.{both_marked, both_tried_events, failed_mark_after_snap_events, failed_snap_after_switch_events, failed_switch_events, first_marked, history_with, just_reopened_history, left_with, marked_after_snap_events, marked_after_switch_events, snapped_events, switched_events, tried_after_switch_events, tried_events, unmarked, untold_journal};

/// A switch that isn't stored may be lost in a crash, but not at the end of the session.
pub fn unstored_switch_is_lost_in_a_crash_alone()
    ensures crash { MayCrash (history_with switched_events) (left_with unmarked None) }
    ensures end { ¬ MayEnd (history_with switched_events) (left_with unmarked None) }
{}

/// A mark that was only tried may be found after a crash, but not after the end of the session.
pub fn tried_mark_is_found_after_a_crash_alone()
    ensures crash { MayCrash (history_with tried_events) (left_with first_marked None) }
    ensures end { ¬ MayEnd (history_with tried_events) (left_with first_marked None) }
{}

/// A snapshot that is held may be lost in a crash, but not at the end of the session.
pub fn snapshot_is_lost_in_a_crash_alone()
    ensures crash { MayCrash (history_with snapped_events) (left_with unmarked None) }
    ensures end { ¬ MayEnd (history_with snapped_events) (left_with unmarked None) }
{}

/// A snapshot whose taking was cut off may be found after a crash, but not after the end of the session.
pub fn snapshot_is_found_after_a_crash_alone()
    ensures crash { MayCrash (history_with []) (left_with unmarked (Some unmarked)) }
    ensures end { ¬ MayEnd (history_with []) (left_with unmarked (Some unmarked)) }
{}

/// At the end of a session a mark that failed at the metadata may be found, but no snapshot is lost for it.
pub fn failed_mark_excuses_no_snapshot()
    ensures mark { MayEnd (history_with failed_mark_after_snap_events)
        (left_with first_marked (Some unmarked)) }
    ensures snapshot { ¬ MayEnd (history_with failed_mark_after_snap_events)
        (left_with unmarked None) }
{}

/// At the end of a session no switch is lost for a taking that failed at the metadata.
pub fn failed_taking_excuses_no_switch()
    ensures { ¬ MayEnd (history_with failed_snap_after_switch_events) (left_with unmarked None) }
{}

/// At the end of a session a switch that failed at the metadata may be lost.
pub fn failed_switch_may_be_lost()
    ensures { MayEnd (history_with failed_switch_events) (left_with unmarked None) }
{}

/// A read may give any bytes where the contents of the origin aren't told, and with contents it gives theirs.
pub fn untold_contents_are_any()
    ensures untold { IsLegalJournal untold_journal }
    ensures same { IsLegalJournal (with_contents untold_journal (sector_of 85)) }
    ensures other { ¬ IsLegalJournal (with_contents untold_journal zeros) }
{}

/// The era before the present one isn't recovered behind a request or a mark, or where the session didn't switch.
pub fn earlier_era_is_recovered_behind_a_switch_alone()
    ensures request { ¬ IsRecoveredFrom (history_with tried_after_switch_events) unmarked None }
    ensures mark { (m : BlockMarks) (found : Option BlockMarks)
        → IsRecoveredFrom (history_with marked_after_switch_events) m found → m.era ≡ 2 }
    ensures opening { ¬ IsRecoveredFrom just_reopened_history crash_images.marks None }
{}

/// No other snapshot is recovered than the one that is held, and where none is held, none but marks of the session.
pub fn other_snapshot_isnt_recovered()
    ensures held { ¬ IsRecoveredFrom (history_with marked_after_snap_events) first_marked
        (Some first_marked) }
    ensures none_held { ¬ IsRecoveredFrom (history_with tried_events) unmarked (Some first_marked) }
{}

/// No block is recovered as marked that nobody tried, and at most one of those that are beyond the journal.
pub fn second_exceptional_block_isnt_recovered()
    ensures untried { ¬ IsRecoveredFrom (history_with []) first_marked None }
    ensures second { ¬ IsRecoveredFrom (history_with both_tried_events) both_marked None }
{}
