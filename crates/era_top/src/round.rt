//! One round of a session: its commands are run, and their replies are given before the source is asked again.

ghost use Rattle.std.specs.Prelude.{◌≡◌, ◌+◌, ◌*◌, ◌<◌, ◌≤◌, ◌^◌, length, All, IfNone, IfSome};
ghost use Rattle.era_base.specs.Faults.{HasCause};
ghost use Rattle.era_base.specs.Geometry.{blocks_of};
ghost use Rattle.era_base.specs.Streams.{GivesTo};
ghost use Rattle.era_model.specs.Marks.{blocks_of_marks};
ghost use Rattle.era_top.specs.Answering.{EndsAtRound, HasAnswered, round_around};
ghost use Rattle.era_top.specs.Outcomes.{answers_text, total_events};
ghost use Rattle.era_top.specs.Rises.{HasAnswerCause};
ghost use Rattle.era_top.specs.Runs.{IsServedTask, some_cut, some_lack};

use crate::events::{count_events, is_cut, is_lack};
use crate::outcome::Outcome;
use crate::progress::Progress;
use crate::replies::give_replies;
use crate::run::run;
use crate::session_lines::{give_end, give_stop};
use era_base::{Disk, Failed, Geometry, Sink};
use era_line::TextBuffer;
use era_plan::{Command, PlanError};
use era_tools::Status;
use std::alloc::Global;

/// How many events commands had together.
fn count_all_events(outcomes: &[Outcome]) -> u64
    requires { length outcomes.now ≤ 65536 }
    ensures { result ≡ total_events outcomes.now }
{
    outcomes.iter().map(|outcome| count_events(outcome)).sum()
}

/// Whether one of the writes was cut.
fn has_cut(outcomes: &[Outcome]) -> bool
    ensures { result ≡ some_cut outcomes.now }
{
    outcomes.iter().any(|outcome| is_cut(outcome))
}

/// Whether memory for one of the lists was refused.
fn has_lack(outcomes: &[Outcome]) -> bool
    ensures { result ≡ some_lack outcomes.now }
{
    outcomes.iter().any(|outcome| is_lack(outcome))
}

/// Gives the replies to commands that went so, the first of them with its events from a place on.
fn give_round<K: Sink>(
    sink: &mut K,
    commands: &[Command],
    outcomes: &[Outcome],
    place: u64,
) -> Result<(), Failed>
    requires few { length outcomes.now ≤ length commands.now }
    requires places { place + 4 * length outcomes.now < 2 ^ 64 }
    ensures given { GivesTo (K.given sink.old) (K.given sink.new)
        (answers_text place commands.now outcomes.now) result }
    ensures cause { HasCause (K.faults sink.old) (K.faults sink.new) result }
{
    let mut text = TextBuffer::new();
    let Ok(()) = give_replies(&mut text, sink, commands, outcomes, place) else {
        return Err(Failed);
    };
    text.flush(sink)
}

/// Runs the commands of a round over an origin, and gives their replies. It tells how the session ended, where it did.
/// It takes memory for the outcomes before the first command, and later only for the runs of lists.
pub fn answer_round<K: Sink, D: Disk>(
    alloc: Global,
    geometry: &Geometry,
    commands: &[Command],
    session: &mut Progress,
    sink: &mut K,
    disk: &mut D,
) -> Option<Status>
    requires served { All (λ command. IsServedTask command.task) commands.now }
    requires few { (length commands.now ≤ 65536) × (session.old.place ≤ 262144) }
    requires fit { (blocks_of_marks session.old.marks
        ≡ blocks_of geometry.now.sectors geometry.now.block_sectors)
        × (D.sectors disk.old ≡ geometry.now.sectors) }
    ensures answered { IfNone result (HasAnswered geometry.now commands.now
        (round_around D.Disk K.Sink session.old session.new disk.old disk.new sink.old sink.new)) }
    ensures ended { IfSome result (EndsAtRound geometry.now commands.now
        (round_around D.Disk K.Sink session.old session.new disk.old disk.new sink.old sink.new)) }
    ensures cause { HasAnswerCause result (K.faults sink.old) (K.faults sink.new)
        (D.faults disk.old) (D.faults disk.new) }
    ensures marks { blocks_of_marks session.new.marks ≡ blocks_of_marks session.old.marks }
    ensures disk { (D.sectors disk.new ≡ D.sectors disk.old)
        × (D.place disk.new ≡ D.place disk.old) }
{
    let Ok(mut outcomes) = Vec::with_capacity(alloc, commands.len()) else {
        return Some(give_stop(sink, PlanError::Memory, session.marks.era(), session.place));
    };
    run(
        alloc,
        geometry,
        commands,
        &mut session.marks,
        &mut outcomes,
        disk,
    );
    let outcomes = outcomes.as_slice();
    let Ok(()) = give_round(sink, commands, outcomes, session.place) else {
        return Some(Status::Sink);
    };
    session.place += count_all_events(outcomes);
    if has_cut(outcomes) {
        return Some(give_end(sink, session.marks.era(), session.place, Status::Fault));
    }
    session.lacked = session.lacked || has_lack(outcomes);
    None
}
