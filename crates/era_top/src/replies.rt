//! Gives the replies of a session.

ghost use Rattle.std.specs.Prelude.{◌≡◌, ◌+◌, ◌*◌, ◌<◌, ◌≤◌, ◌^◌, length};
ghost use Rattle.era_base.specs.Faults.{HasCause};
ghost use Rattle.era_line.specs.TextBuffer.{Adds};
ghost use Rattle.era_top.specs.Outcomes.{answers_text, event_count, outcome_line};

use crate::events::count_events;
use crate::outcome::Outcome;
use era_base::{Failed, Runs, Sink};
use era_line::Part::{Number, Text};
use era_line::{TextBuffer, give_parts};
use era_plan::Command;
use era_reply::give_runs;

/// Gives the reply of a write that went through, with its events from a place on.
fn give_done<K: Sink>(
    text: &mut TextBuffer,
    sink: &mut K,
    line: u64,
    place: u64,
    marks: bool,
) -> Result<(), Failed>
    requires { place + 4 < 2 ^ 64 }
    ensures added { Adds (K.given sink.old) text.old (K.given sink.new) text.new
        (outcome_line line place (Outcome.Done marks)) result }
    ensures cause { HasCause (K.faults sink.old) (K.faults sink.new) result }
{
    if marks {
        give_parts(
            text,
            sink,
            &[
                Number(line),
                Text(b" ok t"),
                Number(place),
                Text(b" m"),
                Number(place + 1),
                Text(b" g"),
                Number(place + 2),
                Text(b" d"),
                Number(place + 3),
                Text(b"\n"),
            ],
        )
    } else {
        give_parts(
            text,
            sink,
            &[
                Number(line),
                Text(b" ok g"),
                Number(place),
                Text(b" d"),
                Number(place + 1),
                Text(b"\n"),
            ],
        )
    }
}

/// Gives the reply of a write that was cut, with its events from a place on.
fn give_cut<K: Sink>(
    text: &mut TextBuffer,
    sink: &mut K,
    line: u64,
    place: u64,
    marks: bool,
    faults: u64,
) -> Result<(), Failed>
    requires { place + 4 < 2 ^ 64 }
    ensures added { Adds (K.given sink.old) text.old (K.given sink.new) text.new
        (outcome_line line place (Outcome.Cut marks faults)) result }
    ensures cause { HasCause (K.faults sink.old) (K.faults sink.new) result }
{
    if marks {
        give_parts(
            text,
            sink,
            &[
                Number(line),
                Text(b" fault data "),
                Number(faults),
                Text(b" t"),
                Number(place),
                Text(b" m"),
                Number(place + 1),
                Text(b" g"),
                Number(place + 2),
                Text(b" c"),
                Number(place + 3),
                Text(b"\n"),
            ],
        )
    } else {
        give_parts(
            text,
            sink,
            &[
                Number(line),
                Text(b" fault data "),
                Number(faults),
                Text(b" g"),
                Number(place),
                Text(b" c"),
                Number(place + 1),
                Text(b"\n"),
            ],
        )
    }
}

/// Gives the reply of a list that names blocks, with its event at a place.
fn give_list<K: Sink>(
    text: &mut TextBuffer,
    sink: &mut K,
    line: u64,
    place: u64,
    blocks: &Runs,
) -> Result<(), Failed>
    ensures added { Adds (K.given sink.old) text.old (K.given sink.new) text.new
        (outcome_line line place (Outcome.Listed blocks.now)) result }
    ensures cause { HasCause (K.faults sink.old) (K.faults sink.new) result }
{
    let Ok(()) = give_parts(text, sink, &[Number(line), Text(b" blocks ")]) else {
        return Err(Failed);
    };
    let Ok(()) = give_runs(text, sink, blocks.as_slice()) else {
        return Err(Failed);
    };
    give_parts(text, sink, &[Text(b" l"), Number(place), Text(b"\n")])
}

/// Gives the reply of a checkpoint that moved to an era, with its event at a place.
fn give_era<K: Sink>(
    text: &mut TextBuffer,
    sink: &mut K,
    line: u64,
    place: u64,
    era: u32,
) -> Result<(), Failed>
    ensures added { Adds (K.given sink.old) text.old (K.given sink.new) text.new
        (outcome_line line place (Outcome.Moved era)) result }
    ensures cause { HasCause (K.faults sink.old) (K.faults sink.new) result }
{
    give_parts(
        text,
        sink,
        &[
            Number(line),
            Text(b" era "),
            Number(u64::from(era)),
            Text(b" e"),
            Number(place),
            Text(b"\n"),
        ],
    )
}

/// Gives the reply of one command.
fn give_reply<K: Sink>(
    text: &mut TextBuffer,
    sink: &mut K,
    line: u64,
    place: u64,
    outcome: &Outcome,
) -> Result<(), Failed>
    requires { place + 4 < 2 ^ 64 }
    ensures added { Adds (K.given sink.old) text.old (K.given sink.new) text.new
        (outcome_line line place outcome.now) result }
    ensures cause { HasCause (K.faults sink.old) (K.faults sink.new) result }
{
    match outcome {
        Outcome::OutOfRange => give_parts(text, sink, &[Number(line), Text(b" range\n")]),
        Outcome::Done { marks } => give_done(text, sink, line, place, *marks),
        Outcome::Cut { marks, faults } => give_cut(text, sink, line, place, *marks, *faults),
        Outcome::Moved { era } => give_era(text, sink, line, place, *era),
        Outcome::LastEra => give_parts(
            text,
            sink,
            &[Number(line), Text(b" end f"), Number(place), Text(b"\n")],
        ),
        Outcome::Listed { blocks } => give_list(text, sink, line, place, blocks),
        Outcome::NoMemory => give_parts(
            text,
            sink,
            &[Number(line), Text(b" memory f"), Number(place), Text(b"\n")],
        ),
    }
}

/// Gives the replies to commands that went so, in order, the first of them with its events from a place on.
pub fn give_replies<K: Sink>(
    text: &mut TextBuffer,
    sink: &mut K,
    commands: &[Command],
    outcomes: &[Outcome],
    first: u64,
) -> Result<(), Failed>
    requires few { length outcomes.now ≤ length commands.now }
    requires places { first + 4 * length outcomes.now < 2 ^ 64 }
    ensures added { Adds (K.given sink.old) text.old (K.given sink.new) text.new
        (answers_text first commands.now outcomes.now) result }
    ensures cause { HasCause (K.faults sink.old) (K.faults sink.new) result }
{
    let mut place = first;
    let mut index = 0;
    for outcome in outcomes {
        let line = u64::from(commands[index].line);
        let Ok(()) = give_reply(text, sink, line, place, outcome) else {
            return Err(Failed);
        };
        place += count_events(outcome);
        index += 1;
    }
    Ok(())
}
