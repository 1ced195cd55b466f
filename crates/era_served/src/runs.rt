//! The journal of a session over one lane is a run of its commands.

ghost use Rattle.std.specs.Prelude.{◌≡◌, ℕ, List};
ghost use Rattle.era_gate.specs.Acts.{Act};
ghost use Rattle.era_model.specs.Commands.{commands_of as commands_in_rounds};
ghost use Rattle.era_model.specs.SessionRun.{AreAllDrawnBy, HaveTheirEvents, IsRun, KeepsLanes, KeepsRounds};
ghost use Rattle.era_model.specs.declared.journal.Journal.{Journal};
ghost use Rattle.era_served.specs.Served.{HasRun, Served, history_of, joined, rounds_of};
ghost use Rattle.era_session.specs.declared.session.Session.{Session};

use crate::laws::{commands_have_their_trails, journals_are_the_trails};
use era_account::laws::ended_sessions_have_legal_journals;
use era_base::Disk;
use era_session::laws::served_commands_leave_their_trail;

/// The journal has no other commands' events than those of the rounds, and their places ascend in the order of the commands
/// and of the rounds.
pub fn journals_keep_their_order<D: Disk>()
    ensures drawn { (journal : Journal) (lane : ℕ) (rounds : List (List Served))
        (first last : Session D) (places : ℕ) (acts : List Act)
        → HasRun D.Disk journal lane (joined rounds) first last places acts
        → AreAllDrawnBy (commands_in_rounds (rounds_of rounds)) (history_of journal) }
    ensures lanes { (journal : Journal) (lane : ℕ) (rounds : List (List Served))
        (first last : Session D) (places : ℕ) (acts : List Act)
        → HasRun D.Disk journal lane (joined rounds) first last places acts
        → KeepsLanes (history_of journal) (commands_in_rounds (rounds_of rounds)) }
    ensures borders { (journal : Journal) (lane : ℕ) (rounds : List (List Served))
        (first last : Session D) (places : ℕ) (acts : List Act)
        → HasRun D.Disk journal lane (joined rounds) first last places acts
        → KeepsRounds (history_of journal) (rounds_of rounds) }
{
    journals_are_the_trails::<D>();
    commands_have_their_trails::<D>();
    ended_sessions_have_legal_journals::<D>();
    served_commands_leave_their_trail::<D>();
}

/// Each command of the rounds has events in the journal that it may have.
pub fn commands_have_their_events<D: Disk>()
    ensures { (journal : Journal) (lane : ℕ) (rounds : List (List Served)) (first last : Session D)
        (places : ℕ) (acts : List Act)
        → HasRun D.Disk journal lane (joined rounds) first last places acts
        → HaveTheirEvents (history_of journal) (commands_in_rounds (rounds_of rounds)) }
{
    journals_are_the_trails::<D>();
    commands_have_their_trails::<D>();
    ended_sessions_have_legal_journals::<D>();
}

/// The journal is a run of the rounds: it has no other commands' events, each command has events that it may have, and their
/// places ascend in the order of the commands and of the rounds.
pub fn journals_are_runs<D: Disk>()
    ensures { (journal : Journal) (lane : ℕ) (rounds : List (List Served)) (first last : Session D)
        (places : ℕ) (acts : List Act)
        → HasRun D.Disk journal lane (joined rounds) first last places acts
        → IsRun (history_of journal) (rounds_of rounds) }
{
    journals_keep_their_order::<D>();
    commands_have_their_events::<D>();
}
