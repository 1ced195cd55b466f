//! What follows of the commands that a session served. The functions do nothing; their clauses are the laws.

ghost use Rattle.std.specs.Prelude.{◌≡◌, ◌+◌, ◌*◌, ◌<◌, ◌≤◌, ℕ, List, Contains, false, length};
ghost use Rattle.era_base.specs.declared.ids.CmdId.{CmdId};
ghost use Rattle.era_gate.specs.Acts.{Act};
ghost use Rattle.era_gate.specs.Calls.{has_gone};
ghost use Rattle.era_model.specs.Commands.{answer_of, events_of};
ghost use Rattle.era_model.specs.History.{era_of, next_place};
ghost use Rattle.era_model.specs.SessionRun.{is_among};
ghost use Rattle.era_model.specs.Transcript.{rounds_text};
ghost use Rattle.era_model.specs.declared.journal.Journal.{Journal};
ghost use Rattle.era_served.specs.Served.{HasRun, HasServedAll, IsNew, Served, commands_of, entries_of, history_of, joined, rounds_of, served_text};
ghost use Rattle.era_session.specs.Sessions.{SessionFits};
ghost use Rattle.era_session.specs.Trails.{with_places};
ghost use Rattle.era_session.specs.declared.session.Session.{Session};

use era_account::laws::{ended_sessions_have_legal_journals, owners_stand_at_the_end};
use era_base::Disk;
use era_gate::laws::{entries_are_drawn, lanes_have_their_receipts};
use era_journal::acts_laws::acts_are_a_log;
use era_journal::owners_laws::owners_draws_are_own;
use era_notes::own_laws::{keeper_draws_tell_of_the_marks, notes_follow_the_log};
use era_promise::owner_laws::owners_draw_at_their_disks;
use era_session::laws::served_commands_leave_their_trail;

/// A command that wasn't served has issued no write, and each command draws at most 24 of the places that a session has.
pub fn other_commands_have_issued_nothing<D: Disk>()
    ensures gone { (served : List Served) (first last : Session D) (id : CmdId) → IsNew first
        → HasServedAll D.Disk served first last → is_among id (commands_of served) ≡ false
        → has_gone id last.pass.part.lanes ≡ false }
    ensures budget { (served : List Served) (first last : Session D)
        → HasServedAll D.Disk served first last
        → first.pass.part.budget ≤ last.pass.part.budget + 24 * length served }
{}

/// The journal of a session over one lane has just the entries that its commands drew, in their order.
pub fn journals_are_the_trails<D: Disk>()
    ensures { (journal : Journal) (lane : ℕ) (served : List Served) (first last : Session D)
        (places : ℕ) (acts : List Act)
        → HasRun D.Disk journal lane served first last places acts
        → journal.entries ≡ entries_of served }
{
    served_commands_leave_their_trail::<D>();
    acts_are_a_log();
    lanes_have_their_receipts();
}

/// The events of each command in the journal are its trail, which fixes the answer that it was given.
pub fn commands_have_their_trails<D: Disk>()
    ensures { (journal : Journal) (lane : ℕ) (served : List Served) (first last : Session D)
        (places : ℕ) (acts : List Act) (one : Served)
        → HasRun D.Disk journal lane served first last places acts → Contains served one
        → (events_of (history_of journal) one.command.id ≡ with_places one.trail)
        × (answer_of (with_places one.trail) ≡ one.answer) }
{
    served_commands_leave_their_trail::<D>();
    journals_are_the_trails::<D>();
    ended_sessions_have_legal_journals::<D>();
}

/// The text of the replies is that of the journal.
pub fn replies_are_the_journals<D: Disk>()
    ensures { (journal : Journal) (lane : ℕ) (rounds : List (List Served)) (first last : Session D)
        (places : ℕ) (acts : List Act)
        → HasRun D.Disk journal lane (joined rounds) first last places acts
        → rounds_text (history_of journal) (rounds_of rounds) ≡ served_text (joined rounds) }
{
    commands_have_their_trails::<D>();
}

/// The journal's era is that of the metadata, and it has as many places as the gate drew.
pub fn journals_end_as_their_sessions<D: Disk>()
    ensures era { (journal : Journal) (lane : ℕ) (served : List Served) (first last : Session D)
        (places : ℕ) (acts : List Act)
        → HasRun D.Disk journal lane served first last places acts
        → era_of (history_of journal) ≡ last.keeper.meta.marks.era }
    ensures places { (journal : Journal) (lane : ℕ) (served : List Served) (first last : Session D)
        (places : ℕ) (acts : List Act)
        → HasRun D.Disk journal lane served first last places acts
        → next_place (history_of journal) ≡ places }
{
    owners_stand_at_the_end::<D>();
    acts_are_a_log();
    notes_follow_the_log();
    keeper_draws_tell_of_the_marks();
    owners_draws_are_own();
    owners_draw_at_their_disks();
    entries_are_drawn();
}
