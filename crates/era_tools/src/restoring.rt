//! Restores a metadata device from a dump text.

ghost use Rattle.std.specs.Prelude.{◌≡◌};
ghost use Rattle.era_model.specs.Validity.{AreValidMarks};
ghost use Rattle.era_tools.specs.Around.{bay_around};
ghost use Rattle.era_tools.specs.Printing.{HasSinkCause};
ghost use Rattle.era_tools.specs.ReadTexts.{source_around};
ghost use Rattle.era_tools.specs.RestoreTool.{RestoresMetadata, RunsRestore};

use crate::opening::lend_metadata;
use crate::printing::print_number;
use crate::refusal::Refusal;
use crate::refusing::refuse;
use crate::refusing_text::refuse_text;
use crate::status::Status;
use era_base::{Bay, Sink, Source};
use era_meta::Meta;
use era_model::Marks;
use era_text::read_dump;
use std::alloc::Global;

/// Replaces what the metadata device of this name holds by marks, and puts the device back. A device of fewer metadata
/// blocks of 4,096 bytes than the marks need isn't touched, nor is any where memory is refused.
fn restore_metadata<B: Bay>(
    alloc: Global,
    name: &str,
    marks: &Marks,
    bay: &mut B,
) -> Result<(), Refusal>
    requires { AreValidMarks marks.now }
    ensures { RestoresMetadata B.D.Disk (bay_around B.Bay bay.old bay.new)
        name.now marks.now result }
{
    let disk = match lend_metadata(name, bay) {
        Ok(disk) => disk,
        Err(refusal) => return Err(refusal),
    };
    match Meta::restore(alloc, disk, marks) {
        Ok(meta) => {
            bay.put_back(meta.slots.into_disk());
            Ok(())
        }
        Err(refused) => {
            bay.put_back(refused.disk);
            Err(Refusal::Metadata(refused.error))
        }
    }
}

/// Reads the whole dump text that the source has, and only then replaces what the metadata device of this name holds by
/// its marks, and tells their era. A crash at any moment leaves a device that stood for marks with those, with none, or with
/// the new ones, and a blank one blank or with the new ones; of a damaged device nothing is said until the new marks are
/// there. A refused text leaves the device as it was.
pub fn restore<S: Source, K: Sink, B: Bay>(
    alloc: Global,
    meta: &str,
    source: &mut S,
    sink: &mut K,
    bay: &mut B,
) -> Status
    ensures ran { RunsRestore B.D.Disk (bay_around B.Bay bay.old bay.new)
        (source_around S.Source source.old source.new) meta.now
        (K.given sink.old) (K.given sink.new) result }
    ensures sink { HasSinkCause (K.faults sink.old) (K.faults sink.new) result }
{
    let marks = match read_dump(alloc, source) {
        Ok(marks) => marks,
        Err(end) => return refuse_text(sink, end),
    };
    match restore_metadata(alloc, meta, &marks, bay) {
        Ok(()) => print_number(sink, b"restored ", u64::from(marks.era), Status::Done),
        Err(refusal) => refuse(sink, refusal),
    }
}
