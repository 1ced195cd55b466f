//! Gives answers, as the events that fix them. It takes no memory.

ghost use Rattle.std.specs.Prelude.{◌≡◌, ◌++◌, decimal};
ghost use Rattle.era_base.specs.Faults.{HasCause};
ghost use Rattle.era_line.specs.TextBuffer.{Adds};
ghost use Rattle.era_model.specs.Commands.{refusal_answer};
ghost use Rattle.era_model.specs.Transcript.{answer_text};
ghost use Rattle.era_reply.specs.Replies.{answer_by, gives_answer as gives};

use crate::runs::give_runs;
use era_base::{Failed, Runs, Sink};
use era_line::Part::{Hex, Number, OrDash, Text};
use era_line::{TextBuffer, give_parts};
use era_model::{Answer, Event, Why};

/// Whether an event gives its command an answer.
pub fn gives_answer(event: &Event) -> bool
    ensures { result ≡ gives event.now }
{
    match event {
        Event::Tried { .. }
        | Event::Mark { .. }
        | Event::Go { .. }
        | Event::Settle { .. }
        | Event::Unsettled { .. } => false,
        _ => true,
    }
}

/// A number of 32 bits as one of 64, if there is one.
fn widen(number: Option<u32>) -> Option<u64>
    ensures { result ≡ number }
{
    match number {
        Some(number) => Some(u64::from(number)),
        None => None,
    }
}

/// Gives words and a number behind them.
fn give_numbered<K: Sink>(
    text: &mut TextBuffer,
    sink: &mut K,
    words: &[u8],
    number: u64,
) -> Result<(), Failed>
    ensures added { Adds (K.given sink.old) text.old (K.given sink.new) text.new
        (words.now ++ decimal number) result }
    ensures cause { HasCause (K.faults sink.old) (K.faults sink.new) result }
{
    give_parts(text, sink, &[Text(words), Number(number)])
}

/// Gives the answer to a command that was refused.
fn give_refusal<K: Sink>(text: &mut TextBuffer, sink: &mut K, why: Why) -> Result<(), Failed>
    ensures added { Adds (K.given sink.old) text.old (K.given sink.new) text.new
        (answer_text (refusal_answer why)) result }
    ensures cause { HasCause (K.faults sink.old) (K.faults sink.new) result }
{
    match why {
        Why::DataFault { count, .. } => give_numbered(text, sink, b"fault data ", count),
        Why::MetaFault(count) => give_numbered(text, sink, b"fault meta ", count),
        Why::End => text.add(sink, b"end"),
        Why::Held(block) => give_numbered(text, sink, b"held ", u64::from(block)),
        Why::NoSnap => text.add(sink, b"none"),
        Why::Idle => text.add(sink, b"idle"),
        Why::Memory => text.add(sink, b"memory"),
    }
}

/// Gives the answer of a digest: the era of the set and the page that was transcribed, or a dash where the set was dropped.
fn give_digest<K: Sink>(
    text: &mut TextBuffer,
    sink: &mut K,
    era: u32,
    page: Option<u32>,
) -> Result<(), Failed>
    ensures added { Adds (K.given sink.old) text.old (K.given sink.new) text.new
        (answer_text (Answer.Digest era page)) result }
    ensures cause { HasCause (K.faults sink.old) (K.faults sink.new) result }
{
    give_parts(
        text,
        sink,
        &[
            Text(b"digest "),
            Number(u64::from(era)),
            Text(b" "),
            OrDash(widen(page)),
        ],
    )
}

/// Gives the blocks of a list, as runs.
fn give_blocks<K: Sink>(text: &mut TextBuffer, sink: &mut K, blocks: &Runs) -> Result<(), Failed>
    ensures added { Adds (K.given sink.old) text.old (K.given sink.new) text.new
        (answer_text (Answer.Blocks blocks.now)) result }
    ensures cause { HasCause (K.faults sink.old) (K.faults sink.new) result }
{
    let Ok(()) = text.add(sink, b"blocks ") else {
        return Err(Failed);
    };
    give_runs(text, sink, blocks.as_slice())
}

/// Gives a status: the metadata block size of 8 sectors, the used metadata blocks of all, the era, and the block of the snapshot
/// or a dash.
fn give_status<K: Sink>(
    text: &mut TextBuffer,
    sink: &mut K,
    used: u32,
    total: u64,
    era: u32,
    held: Option<u32>,
) -> Result<(), Failed>
    ensures added { Adds (K.given sink.old) text.old (K.given sink.new) text.new
        (answer_text (Answer.Status used total era held)) result }
    ensures cause { HasCause (K.faults sink.old) (K.faults sink.new) result }
{
    give_parts(
        text,
        sink,
        &[
            Text(b"status 8 "),
            Number(u64::from(used)),
            Text(b"/"),
            Number(total),
            Text(b" "),
            Number(u64::from(era)),
            Text(b" "),
            OrDash(widen(held)),
        ],
    )
}

/// Gives the answer that an event fixes; where it fixes none, nothing was done for the command, which is out of range.
pub fn give_answer<K: Sink>(
    text: &mut TextBuffer,
    sink: &mut K,
    event: &Event,
) -> Result<(), Failed>
    ensures added { Adds (K.given sink.old) text.old (K.given sink.new) text.new
        (answer_text (answer_by event.now)) result }
    ensures cause { HasCause (K.faults sink.old) (K.faults sink.new) result }
{
    match event {
        Event::Done { .. } | Event::Dropped { .. } => text.add(sink, b"ok"),
        Event::Cut { faults, .. } => give_numbered(text, sink, b"fault data ", *faults),
        Event::Read { bytes, .. } => {
            give_parts(text, sink, &[Text(b"data "), Hex(bytes.as_slice())])
        }
        Event::Roll { era, .. } => give_numbered(text, sink, b"era ", u64::from(*era)),
        Event::Kept { inside, .. } => give_numbered(text, sink, b"kept ", u64::from(*inside)),
        Event::Snap { block, .. } => give_numbered(text, sink, b"snap ", u64::from(*block)),
        Event::Digest { era, page, .. } => give_digest(text, sink, *era, *page),
        Event::List { blocks, .. } => give_blocks(text, sink, blocks),
        Event::Status {
            used,
            total,
            era,
            held,
            ..
        } => give_status(text, sink, *used, *total, *era, *held),
        Event::Refused { why, .. } => give_refusal(text, sink, *why),
        _ => text.add(sink, b"range"),
    }
}
