//! The first line of a session, and the last ones.

ghost use Rattle.std.specs.Prelude.{◌≡◌, ℕ, List, ◌++◌, IsOk};
ghost use Rattle.era_base.specs.Faults.{HasCause, Rose};
ghost use Rattle.era_base.specs.Streams.{GivesTo};
ghost use Rattle.era_line.specs.TextBuffer.{Adds};
ghost use Rattle.era_model.specs.Transcript.{open_line, stop_line, end_line};
ghost use Rattle.era_line.specs.Parts.{parts_text};
ghost use Rattle.era_tools.specs.Printing.{HasSinkCause, Prints};
ghost use Rattle.era_top.specs.Gathered.{PrintsBehind};
ghost use Rattle.era_top.specs.Sessions.{stop_of, status_of};

use era_base::{Failed, Geometry, Sink};
use era_line::Part::{Number, Text};
use era_line::{Part, TextBuffer, give_parts};
use era_plan::{PlanError, kind_text};
use era_tools::Status;

/// Gives the first line of a session: era 1 and the number of blocks.
pub fn give_open<K: Sink>(sink: &mut K, geometry: &Geometry) -> Result<(), Failed>
    ensures given { GivesTo (K.given sink.old) (K.given sink.new)
        (open_line geometry.now 1) result }
    ensures cause { HasCause (K.faults sink.old) (K.faults sink.new) result }
{
    let mut text = TextBuffer::new();
    let Ok(()) = give_parts(
        &mut text,
        sink,
        &[
            Text(b"open 1 "),
            Number(u64::from(geometry.blocks())),
            Text(b"\n"),
        ],
    ) else {
        return Err(Failed);
    };
    text.flush(sink)
}

/// Gives what was gathered of a text and its last parts, and tells how the run ended: by this status, or by the sink's
/// failure.
pub fn give_last<K: Sink>(
    mut text: TextBuffer,
    sink: &mut K,
    parts: &[Part],
    ended: Status,
) -> Status
    ensures printed { PrintsBehind (K.given sink.old) text (K.given sink.new)
        (parts_text parts.now) ended result }
    ensures rose { result ≡ Status.Sink → (ended ≡ Status.Sink → ⊥)
        → Rose (K.faults sink.old) (K.faults sink.new) }
    ensures ends { (result ≡ Status.Sink → ⊥) → result ≡ ended }
    ensures kept { (result ≡ Status.Sink → ⊥) → K.faults sink.new ≡ K.faults sink.old }
{
    let Ok(()) = give_parts(&mut text, sink, parts) else {
        return Status::Sink;
    };
    let Ok(()) = text.flush(sink) else {
        return Status::Sink;
    };
    ended
}

/// Gives the last line of a session, which is in this era and had so many events.
pub fn give_end<K: Sink>(sink: &mut K, era: u32, events: u64, ended: Status) -> Status
    ensures printed { Prints (K.given sink.old) (K.given sink.new)
        (end_line era events) ended result }
    ensures rose { result ≡ Status.Sink → (ended ≡ Status.Sink → ⊥)
        → Rose (K.faults sink.old) (K.faults sink.new) }
    ensures ends { (result ≡ Status.Sink → ⊥) → result ≡ ended }
    ensures kept { (result ≡ Status.Sink → ⊥) → K.faults sink.new ≡ K.faults sink.old }
{
    give_last(
        TextBuffer::new(),
        sink,
        &[
            Text(b"end "),
            Number(u64::from(era)),
            Text(b" "),
            Number(events),
            Text(b"\n"),
        ],
        ended,
    )
}

/// Gives the last lines of a session whose stream gave no further round: why it stopped, and its era and events.
pub fn give_stop<K: Sink>(sink: &mut K, error: PlanError, era: u32, events: u64) -> Status
    ensures printed { Prints (K.given sink.old) (K.given sink.new)
        (stop_line (stop_of error) ++ end_line era events) (status_of error) result }
    ensures rose { HasSinkCause (K.faults sink.old) (K.faults sink.new) result }
    ensures ends { (result ≡ Status.Sink → ⊥) → result ≡ status_of error }
{
    let mut text = TextBuffer::new();
    let Ok(()) = give_reason(&mut text, sink, error) else {
        return Status::Sink;
    };
    give_last(
        text,
        sink,
        &[
            Text(b"end "),
            Number(u64::from(era)),
            Text(b" "),
            Number(events),
            Text(b"\n"),
        ],
        status_of_error(error),
    )
}

/// Gives the line that tells why a stream gave no further round.
fn give_reason<K: Sink>(text: &mut TextBuffer, sink: &mut K, error: PlanError) -> Result<(), Failed>
    ensures added { Adds (K.given sink.old) text.old (K.given sink.new) text.new
        (stop_line (stop_of error)) result }
    ensures cause { HasCause (K.faults sink.old) (K.faults sink.new) result }
{
    match error {
        PlanError::Line(refused) => give_parts(
            text,
            sink,
            &[
                Text(b"line "),
                Number(u64::from(refused.line)),
                Text(b" "),
                Text(kind_text(refused.kind).as_bytes()),
                Text(b"\n"),
            ],
        ),
        PlanError::Source(count) => give_parts(
            text,
            sink,
            &[Text(b"fault source "), Number(count), Text(b"\n")],
        ),
        PlanError::Memory => give_parts(text, sink, &[Text(b"memory\n")]),
    }
}

/// The status of a session whose stream gave no further round.
fn status_of_error(error: PlanError) -> Status
    ensures { result ≡ status_of error }
{
    match error {
        PlanError::Line(_) => Status::Line,
        PlanError::Source(_) => Status::Source,
        PlanError::Memory => Status::Memory,
    }
}
