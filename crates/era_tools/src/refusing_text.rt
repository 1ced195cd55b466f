//! Tells why a text wasn't read to its end.

ghost use Rattle.std.specs.Prelude.{◌≡◌};
ghost use Rattle.era_tools.specs.Printing.{HasSinkCause, Prints};
ghost use Rattle.era_tools.specs.ReadTexts.{IsOfReading, end_status, end_text};
ghost use Rattle.era_tools.specs.ToolLines.{refused_dump_line};

use crate::kinds::dump_kind_text;
use crate::printing::{print, print_number};
use crate::status::Status;
use era_base::Sink;
use era_line::Part::{Number, Text};
use era_text::{DumpKind, TextEnd};

/// Tells the number of a refused line of a dump, and why it was refused.
fn refuse_line<K: Sink>(sink: &mut K, line: u32, kind: DumpKind) -> Status
    ensures printed { Prints (K.given sink.old) (K.given sink.new)
        (refused_dump_line line kind) Status.Line result }
    ensures sink { HasSinkCause (K.faults sink.old) (K.faults sink.new) result }
{
    print(
        sink,
        &[
            Text(b"line "),
            Number(u64::from(line)),
            Text(b" "),
            Text(dump_kind_text(kind).as_bytes()),
            Text(b"\n"),
        ],
        Status::Line,
    )
}

/// Tells why a text wasn't read to its end, and the status that the run ends with. It takes no memory.
pub fn refuse_text<K: Sink>(sink: &mut K, end: TextEnd) -> Status
    requires { IsOfReading end }
    ensures printed { Prints (K.given sink.old) (K.given sink.new)
        (end_text end) (end_status end) result }
    ensures sink { HasSinkCause (K.faults sink.old) (K.faults sink.new) result }
{
    match end {
        TextEnd::Line { line, kind } => refuse_line(sink, line, kind),
        TextEnd::Source(count) => print_number(sink, b"fault source ", count, Status::Source),
        TextEnd::Sink(_) => Status::Sink,
        TextEnd::Memory => print(sink, &[Text(b"memory\n")], Status::Memory),
    }
}
