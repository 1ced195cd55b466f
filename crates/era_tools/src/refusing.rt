//! Tells why a tool does nothing more.

ghost use Rattle.std.specs.Prelude.{◌≡◌};
ghost use Rattle.era_tools.specs.Printing.{HasSinkCause, Prints};
ghost use Rattle.era_tools.specs.Refusals.{geometry_text, metadata_status, metadata_text, refusal_status, refusal_text};
ghost use Rattle.era_tools.specs.ToolLines.{wrong_geometry_line};

use crate::printing::{print, print_damage, print_number, print_numbers};
use crate::refusal::Refusal;
use crate::status::Status;
use era_base::{GeomError, Geometry, Sink};
use era_line::Part::{Number, Text};
use era_meta::MetaError;

/// Tells why numbers are no geometry.
fn refuse_geometry<K: Sink>(sink: &mut K, error: GeomError, size: u64) -> Status
    ensures printed { Prints (K.given sink.old) (K.given sink.new)
        (geometry_text error size) Status.Refused result }
    ensures sink { HasSinkCause (K.faults sink.old) (K.faults sink.new) result }
{
    match error {
        GeomError::BadBlockSize => {
            print_number(sink, b"refused BadBlockSize ", size, Status::Refused)
        }
        GeomError::NoBlocks => print(sink, &[Text(b"refused NoBlocks\n")], Status::Refused),
        GeomError::TooManyBlocks(blocks) => {
            print_number(sink, b"refused TooManyBlocks ", blocks, Status::Refused)
        }
    }
}

/// Tells that the metadata is of another geometry.
fn refuse_other<K: Sink>(sink: &mut K, kept: Geometry, asked: Geometry) -> Status
    ensures printed { Prints (K.given sink.old) (K.given sink.new)
        (wrong_geometry_line kept asked) Status.Refused result }
    ensures sink { HasSinkCause (K.faults sink.old) (K.faults sink.new) result }
{
    print(
        sink,
        &[
            Text(b"refused WrongGeometry "),
            Number(kept.sectors()),
            Text(b" "),
            Number(u64::from(kept.block_sectors())),
            Text(b" "),
            Number(asked.sectors()),
            Text(b" "),
            Number(u64::from(asked.block_sectors())),
            Text(b"\n"),
        ],
        Status::Refused,
    )
}

/// Tells why metadata isn't opened.
fn refuse_metadata<K: Sink>(sink: &mut K, error: MetaError) -> Status
    ensures printed { Prints (K.given sink.old) (K.given sink.new)
        (metadata_text error) (metadata_status error) result }
    ensures sink { HasSinkCause (K.faults sink.old) (K.faults sink.new) result }
{
    match error {
        MetaError::MetaSmall { have, need } => {
            print_numbers(sink, b"refused MetaSmall ", have, need, Status::Refused)
        }
        MetaError::Fault(count) => print_number(sink, b"fault meta ", count, Status::Fault),
        MetaError::Unformatted => print(sink, &[Text(b"refused Unformatted\n")], Status::Refused),
        MetaError::Damaged { kind, block } => {
            print_damage(sink, b"refused Damaged ", kind, block, Status::Refused)
        }
        MetaError::WrongGeometry { kept, asked } => refuse_other(sink, kept, asked),
        MetaError::EraEnd => print(
            sink,
            &[Text(b"refused EraEnd 4294967295\n")],
            Status::Refused,
        ),
        MetaError::SequenceEnd(number) => {
            print_number(sink, b"refused SequenceEnd ", number, Status::Refused)
        }
        MetaError::Memory => print(sink, &[Text(b"memory\n")], Status::Memory),
    }
}

/// Tells a refusal, and the status that the run ends with. It takes no memory.
pub fn refuse<K: Sink>(sink: &mut K, refusal: Refusal) -> Status
    ensures printed { Prints (K.given sink.old) (K.given sink.new)
        (refusal_text refusal) (refusal_status refusal) result }
    ensures sink { HasSinkCause (K.faults sink.old) (K.faults sink.new) result }
{
    match refusal {
        Refusal::NoGeometry { error, size } => refuse_geometry(sink, error, size),
        Refusal::SameDevice => print(sink, &[Text(b"refused SameDevice\n")], Status::Refused),
        Refusal::OriginSmall { have, need } => {
            print_numbers(sink, b"refused OriginSmall ", have, need, Status::Refused)
        }
        Refusal::Metadata(error) => refuse_metadata(sink, error),
        Refusal::NoSnap => print(sink, &[Text(b"refused NoSnap\n")], Status::Refused),
        Refusal::BayFault(count) => print_number(sink, b"fault bay ", count, Status::Fault),
        Refusal::DataFault(count) => print_number(sink, b"fault data ", count, Status::Fault),
        Refusal::NoRoom => print(sink, &[Text(b"memory\n")], Status::Memory),
    }
}
