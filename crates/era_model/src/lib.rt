//! The model: the events of a session, the journal that they make, and what a journal means.
#![tactic(auto)]

mod block_content;
mod block_runs;
mod command;
mod contents;
mod entry;
mod era_runs;
mod event;
mod example_laws;
mod flight;
mod history;
mod journal;
mod last_eras;
mod laws;
mod marked_set;
mod marks;
mod marks_laws;
mod opening;
mod plain_calls;
mod reply;
mod run_laws;
mod session_laws;

pub use block_content::{follow_content, opening_content, part_of};
pub use block_runs::runs_of_flags;
pub use command::{Command, Request, Task};
pub use contents::Contents;
pub use entry::{Entry, EntryList};
pub use era_runs::EraRuns;
pub use event::{Event, Kind, Why};
pub use example_laws::{
    earlier_era_is_recovered_behind_a_switch_alone, failed_mark_excuses_no_snapshot,
    failed_switch_may_be_lost, failed_taking_excuses_no_switch, other_snapshot_isnt_recovered,
    second_exceptional_block_isnt_recovered, snapshot_is_found_after_a_crash_alone,
    snapshot_is_lost_in_a_crash_alone, tried_mark_is_found_after_a_crash_alone,
    unstored_switch_is_lost_in_a_crash_alone, untold_contents_are_any,
};
pub use flight::{FlightWrite, find_write, follow_writes, same_command};
pub use history::{Happening, Images};
pub use journal::Journal;
pub use last_eras::{is_covered, run_era};
pub use laws::{
    acknowledged_writes_are_legal, checkpoints_over_a_cut_write_are_a_run,
    cut_write_is_a_data_fault, cut_write_keeps_the_era_until_resolved, digests_are_a_run,
    digests_are_legal, digests_keep_last_eras, early_drop_is_illegal,
    failed_mark_is_a_metadata_fault, lists_have_the_blocks_since_their_era,
    one_mark_serves_two_writes, refusal_without_cause_is_illegal, replies_are_of_own_events,
    replies_stand_in_order, resolved_write_is_legal, seventeenth_switch_merges_the_oldest_set,
    snapshot_lists_what_it_held, snapshot_session_is_a_run, snapshot_session_is_legal,
    switch_over_a_cut_write_is_illegal, two_lanes_are_a_run, write_before_its_mark_is_illegal,
    write_under_way_keeps_the_era, writes_and_a_read_are_a_run,
};
pub use marked_set::{MarkedSet, SetList};
pub use marks::Marks;
pub use marks_laws::{
    digest_keeps_last_eras, last_eras_are_bounded, mark_gives_last_era, switch_keeps_last_eras,
};
pub use opening::Opening;
pub use plain_calls::{asked_since, changed_since, content_at};
pub use reply::{Answer, Device, Reply};
pub use run_laws::{
    digest_worker_has_its_lines, lane_isnt_reversed, list_isnt_refused_for_want_of_a_snapshot,
    no_event_is_without_a_command, read_isnt_shorter, rounds_keep_their_borders,
    stripe_is_resolved_once, write_has_no_other_bytes,
};
pub use session_laws::{
    coverage_goes_on, end_is_among_the_crashes, marks_are_kept, marks_follow_journal,
    moments_are_legal, no_changed_block_missed, no_unasked_block_listed, reopened_session_is_legal,
};
