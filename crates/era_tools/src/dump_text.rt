//! Gives the dump text of marks, and tells how the run ended.

ghost use Rattle.std.specs.Prelude.{◌≡◌};
ghost use Rattle.era_text.specs.Dumps.{dumped_marks};
ghost use Rattle.era_tools.specs.DumpTool.{PrintsDump};
ghost use Rattle.era_tools.specs.Printing.{HasSinkCause};

use crate::refusal::Refusal;
use crate::refusing::refuse;
use crate::status::Status;
use era_base::{Disk, Sink};
use era_meta::Meta;
use era_model::Marks;
use era_text::{TextEnd, write_dump};
use std::alloc::Global;

/// Gives the dump of marks, as they are or for the logical dump with the archived sets merged into the era array. Where
/// memory is refused nothing of the dump was given, and that is told. Only the logical dump takes memory.
pub fn print_dump<K: Sink>(alloc: Global, marks: &Marks, logical: bool, sink: &mut K) -> Status
    ensures printed { PrintsDump (dumped_marks marks.now logical)
        (K.given sink.old) (K.given sink.new) result }
    ensures sink { HasSinkCause (K.faults sink.old) (K.faults sink.new) result }
{
    match write_dump(alloc, marks, logical, sink) {
        Ok(()) => Status::Done,
        Err(TextEnd::Memory) => refuse(sink, Refusal::NoRoom),
        Err(_) => Status::Sink,
    }
}

/// Gives the dump of the marks of a metadata image, as they are or for the logical dump with the archived sets merged into
/// the era array. Where memory is refused nothing of the dump was given, and that is told. It reads no disk.
pub fn print_marks<K: Sink, D: Disk>(
    alloc: Global,
    meta: &Meta<D>,
    logical: bool,
    sink: &mut K,
) -> Status
    ensures printed { PrintsDump (dumped_marks meta.now.marks logical)
        (K.given sink.old) (K.given sink.new) result }
    ensures sink { HasSinkCause (K.faults sink.old) (K.faults sink.new) result }
{
    match meta.marks(alloc) {
        Ok(marks) => print_dump(alloc, &marks, logical, sink),
        Err(_) => refuse(sink, Refusal::NoRoom),
    }
}
