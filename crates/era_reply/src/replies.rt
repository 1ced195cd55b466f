//! Gives replies, as the events of their commands fix them. It takes no memory.

ghost use Rattle.std.specs.Prelude.{◌≡◌, [], ◌∷◌};
ghost use Rattle.era_base.specs.Faults.{HasCause};
ghost use Rattle.era_line.specs.TextBuffer.{Adds};
ghost use Rattle.era_model.specs.Commands.{answer_of};
ghost use Rattle.era_model.specs.Transcript.{answer_text, reply_line, trail_text};
ghost use Rattle.era_reply.specs.Replies.{placed, told_by, trail_of};

use crate::answers::{give_answer, gives_answer};
use crate::letters::letter_of;
use era_base::{Failed, Sink};
use era_line::Part::{Number, Text};
use era_line::{TextBuffer, give_parts};
use era_model::{Entry, Event};

/// The event of a trail that fixes the answer: the last one that gives an answer.
fn last_answering<'a>(trail: &[&'a Entry]) -> Option<&'a Event>
    ensures { told_by result ≡ answer_of (trail_of trail.now) }
{
    let mut found = None;
    for entry in trail {
        if gives_answer(&entry.event) {
            found = Some(&entry.event);
        }
    }
    found
}

/// Gives the answer to the command that drew these events.
fn give_trails_answer<K: Sink>(
    text: &mut TextBuffer,
    sink: &mut K,
    trail: &[&Entry],
) -> Result<(), Failed>
    ensures added { Adds (K.given sink.old) text.old (K.given sink.new) text.new
        (answer_text (answer_of (trail_of trail.now))) result }
    ensures cause { HasCause (K.faults sink.old) (K.faults sink.new) result }
{
    match last_answering(trail) {
        Some(event) => give_answer(text, sink, event),
        None => text.add(sink, b"range"),
    }
}

/// Gives the letter and the place of an event, behind a space.
fn give_step<K: Sink>(text: &mut TextBuffer, sink: &mut K, entry: &Entry) -> Result<(), Failed>
    ensures added { Adds (K.given sink.old) text.old (K.given sink.new) text.new
        (trail_text (placed entry.now ∷ [])) result }
    ensures cause { HasCause (K.faults sink.old) (K.faults sink.new) result }
{
    let letter = [b' ', letter_of(&entry.event)];
    give_parts(text, sink, &[Text(&letter), Number(entry.place)])
}

/// Gives the letters and places of events.
fn give_trail<K: Sink>(text: &mut TextBuffer, sink: &mut K, trail: &[&Entry]) -> Result<(), Failed>
    ensures added { Adds (K.given sink.old) text.old (K.given sink.new) text.new
        (trail_text (trail_of trail.now)) result }
    ensures cause { HasCause (K.faults sink.old) (K.faults sink.new) result }
{
    for entry in trail {
        let Ok(()) = give_step(text, sink, entry) else {
            return Err(Failed);
        };
    }
    Ok(())
}

/// Gives the reply to the command of a line, which drew these events, in the order of their places.
pub fn give_reply<K: Sink>(
    text: &mut TextBuffer,
    sink: &mut K,
    line: u32,
    trail: &[&Entry],
) -> Result<(), Failed>
    ensures added { Adds (K.given sink.old) text.old (K.given sink.new) text.new
        (reply_line line (trail_of trail.now)) result }
    ensures cause { HasCause (K.faults sink.old) (K.faults sink.new) result }
{
    let Ok(()) = give_parts(text, sink, &[Number(u64::from(line)), Text(b" ")]) else {
        return Err(Failed);
    };
    let Ok(()) = give_trails_answer(text, sink, trail) else {
        return Err(Failed);
    };
    let Ok(()) = give_trail(text, sink, trail) else {
        return Err(Failed);
    };
    text.add(sink, b"\n")
}
