//! The first line of a session, and the last ones.

ghost use Rattle.std.specs.Prelude.{◌≡◌, ◌++◌};
ghost use Rattle.era_base.specs.Faults.{HasCause};
ghost use Rattle.era_base.specs.Streams.{GivesTo};
ghost use Rattle.era_line.specs.TextBuffer.{Adds};
ghost use Rattle.era_model.specs.Transcript.{end_line, open_line, stop_line};
ghost use Rattle.era_run.specs.Endings.{PrintsEnding, status_of, told_stop};

use era_base::{Failed, Geometry, Sink};
use era_line::Part::{Number, Text};
use era_line::{TextBuffer, give_parts};
use era_plan::kind_text;
use era_serve::{Stop, Stopped};
use era_tools::Status;

/// Gives the first line of a session: its era and the number of blocks.
pub fn give_open<K: Sink>(sink: &mut K, geometry: &Geometry, era: u32) -> Result<(), Failed>
    ensures given { GivesTo (K.given sink.old) (K.given sink.new)
        (open_line geometry.now era) result }
    ensures cause { HasCause (K.faults sink.old) (K.faults sink.new) result }
{
    let mut text = TextBuffer::new();
    let Ok(()) = give_parts(
        &mut text,
        sink,
        &[
            Text(b"open "),
            Number(u64::from(era)),
            Text(b" "),
            Number(u64::from(geometry.blocks())),
            Text(b"\n"),
        ],
    ) else {
        return Err(Failed);
    };
    text.flush(sink)
}

/// Gives the line that tells why a stream gave no further round, if there is one.
fn give_stop<K: Sink>(text: &mut TextBuffer, sink: &mut K, stop: Stop) -> Result<(), Failed>
    ensures added { Adds (K.given sink.old) text.old (K.given sink.new) text.new
        (stop_line (told_stop stop)) result }
    ensures cause { HasCause (K.faults sink.old) (K.faults sink.new) result }
{
    match stop {
        Stop::Read | Stop::Sink => Ok(()),
        Stop::Line(refused) => give_parts(
            text,
            sink,
            &[
                Text(b"line "),
                Number(u64::from(refused.line)),
                Text(b" "),
                Text(kind_text(refused.kind).as_bytes()),
                Text(b"\n"),
            ],
        ),
        Stop::Source(count) => give_parts(
            text,
            sink,
            &[Text(b"fault source "), Number(count), Text(b"\n")],
        ),
        Stop::Memory => give_parts(text, sink, &[Text(b"memory\n")]),
    }
}

/// Gives the last line of a session, which is in this era and had so many events.
fn give_end<K: Sink>(
    text: &mut TextBuffer,
    sink: &mut K,
    era: u32,
    events: u64,
) -> Result<(), Failed>
    ensures added { Adds (K.given sink.old) text.old (K.given sink.new) text.new
        (end_line era events) result }
    ensures cause { HasCause (K.faults sink.old) (K.faults sink.new) result }
{
    give_parts(
        text,
        sink,
        &[
            Text(b"end "),
            Number(u64::from(era)),
            Text(b" "),
            Number(events),
            Text(b"\n"),
        ],
    )
}

/// Gives the last lines of a session: why its stream gave no further round, and its era and events.
fn give_last<K: Sink>(sink: &mut K, stop: Stop, era: u32, events: u64) -> Result<(), Failed>
    ensures given { GivesTo (K.given sink.old) (K.given sink.new)
        (stop_line (told_stop stop) ++ end_line era events) result }
    ensures cause { HasCause (K.faults sink.old) (K.faults sink.new) result }
{
    let mut text = TextBuffer::new();
    let Ok(()) = give_stop(&mut text, sink, stop) else {
        return Err(Failed);
    };
    let Ok(()) = give_end(&mut text, sink, era, events) else {
        return Err(Failed);
    };
    text.flush(sink)
}

/// The status of a session, by how its rounds stopped, and by its answers where the stream was read to its end.
fn session_status(stopped: Stopped) -> Status
    ensures { result ≡ status_of stopped.stop stopped.some_fault stopped.some_memory }
{
    match stopped.stop {
        Stop::Read if stopped.some_fault => Status::Fault,
        Stop::Read if stopped.some_memory => Status::Memory,
        Stop::Read => Status::Done,
        Stop::Line(_) => Status::Line,
        Stop::Source(_) => Status::Source,
        Stop::Memory => Status::Memory,
        Stop::Sink => Status::Sink,
    }
}

/// Gives the last lines of a session, and tells how it ended. Where the sink has failed already, nothing more is given.
pub fn give_ending<K: Sink>(sink: &mut K, stopped: Stopped, era: u32, events: u64) -> Status
    ensures printed { PrintsEnding (K.given sink.old) (K.given sink.new)
        (K.faults sink.old) (K.faults sink.new) stopped
        (stop_line (told_stop stopped.stop) ++ end_line era events) result }
{
    if stopped.stop == Stop::Sink {
        return Status::Sink;
    }
    let Ok(()) = give_last(sink, stopped.stop, era, events) else {
        return Status::Sink;
    };
    session_status(stopped)
}
