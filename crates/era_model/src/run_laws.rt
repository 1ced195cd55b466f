//! Small sessions that are no run of the commands given with them, and one with a digest worker. The functions do
//! nothing; their clauses are the laws.

ghost use Rattle.std.specs.Prelude.{◌≡◌, ◌++◌, [], ◌∷◌};
ghost use Rattle.era_model.specs.Commands.{one_round, round_of};
ghost use Rattle.era_model.specs.RowsOfFaults.{cut_history};
ghost use Rattle.era_model.specs.RowsOfRuns.{checkpoint_commands, drop_beside_commands, dropped_beside_history, dropped_history, list_commands, longer_read_commands, other_write_commands, refused_list_history, resolved_twice_history, reversed_commands, take_commands, unresolved_twice_history, worked_history, worked_rounds, worked_text};
ghost use Rattle.era_model.specs.RowsOfWrites.{read_back_history};
ghost use Rattle.era_model.specs.SessionRun.{IsRun};
ghost use Rattle.era_model.specs.Transcript.{ReadToEnd, session_transcript};

/// A list of the marks isn't answered as if the snapshot were asked for.
pub fn list_isnt_refused_for_want_of_a_snapshot()
    ensures { ¬ IsRun refused_list_history (one_round list_commands) }
{}

/// A checkpoint resolves one stripe once at most, and fails to once at most.
pub fn stripe_is_resolved_once()
    ensures resolved { ¬ IsRun resolved_twice_history (one_round checkpoint_commands) }
    ensures unresolved { ¬ IsRun unresolved_twice_history (one_round checkpoint_commands) }
{}

/// A read gives as many sectors as it asks for.
pub fn read_isnt_shorter()
    ensures { ¬ IsRun read_back_history (one_round longer_read_commands) }
{}

/// A write issues its own bytes.
pub fn write_has_no_other_bytes()
    ensures { ¬ IsRun cut_history (one_round other_write_commands) }
{}

/// The commands of a lane draw their events in their order.
pub fn lane_isnt_reversed()
    ensures { ¬ IsRun dropped_history (one_round reversed_commands) }
{}

/// Each event is drawn by a command.
pub fn no_event_is_without_a_command()
    ensures { ¬ IsRun dropped_history (one_round take_commands) }
{}

/// Commands of two lanes draw their events in any order in one round, but each round behind the ones before it.
pub fn rounds_keep_their_borders()
    ensures one { IsRun dropped_beside_history (one_round (drop_beside_commands ++ take_commands)) }
    ensures two { ¬ IsRun dropped_beside_history (round_of drop_beside_commands
        ∷ round_of take_commands ∷ []) }
{}

/// The digest worker's lines stand behind the replies of their round, with a dash for a line number.
pub fn digest_worker_has_its_lines()
    ensures transcript { session_transcript worked_history worked_rounds ReadToEnd ≡ worked_text }
    ensures run { IsRun worked_history worked_rounds }
{}
