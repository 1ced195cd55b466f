//! The tools that read a closed image of the metadata. They write nothing to it, and put its device back.

ghost use Rattle.std.specs.Prelude.{◌≡◌};
ghost use Rattle.era_text.specs.Dumps.{dumped_marks};
ghost use Rattle.era_tools.specs.Around.{bay_around};
ghost use Rattle.era_tools.specs.CheckTool.{RunsCheck};
ghost use Rattle.era_tools.specs.ClosedImages.{RunsOver};
ghost use Rattle.era_tools.specs.DumpTool.{PrintsDump};
ghost use Rattle.era_tools.specs.ListTool.{TellsList};
ghost use Rattle.era_tools.specs.Printing.{HasSinkCause};

use crate::checked_text::print_checked;
use crate::dump_text::print_marks;
use crate::list_text::print_list;
use crate::opening::{lend_metadata, open_metadata};
use crate::refusing::refuse;
use crate::status::Status;
use era_base::{Bay, Sink};
use era_check::check as check_disk;
use std::alloc::Global;

/// Checks a closed image: gives its era and how many metadata blocks it uses, or its first damage.
pub fn check<K: Sink, B: Bay>(alloc: Global, meta: &str, sink: &mut K, bay: &mut B) -> Status
    ensures ran { RunsCheck B.D.Disk (bay_around B.Bay bay.old bay.new) meta.now
        (K.given sink.old) (K.given sink.new) result }
    ensures sink { HasSinkCause (K.faults sink.old) (K.faults sink.new) result }
{
    match lend_metadata(meta, bay) {
        Ok(disk) => {
            let (back, found) = check_disk(alloc, disk);
            bay.put_back(back);
            print_checked(sink, found)
        }
        Err(refusal) => refuse(sink, refusal),
    }
}

/// Lists the blocks that were written in the era or a later one, by a closed image's marks or by its snapshot. Era 0 means
/// the same as 1.
pub fn invalidate<K: Sink, B: Bay>(
    alloc: Global,
    meta: &str,
    since: u32,
    snap: bool,
    sink: &mut K,
    bay: &mut B,
) -> Status
    ensures ran { RunsOver B.D.Disk (bay_around B.Bay bay.old bay.new) meta.now
        (K.given sink.old) (K.given sink.new) result
        (λ meaning. TellsList meaning.marks meaning.held since snap
        (K.given sink.old) (K.given sink.new) result) }
    ensures sink { HasSinkCause (K.faults sink.old) (K.faults sink.new) result }
{
    match open_metadata(alloc, meta, bay) {
        Ok(opened) => {
            let status = print_list(alloc, &opened, since, snap, sink);
            bay.put_back(opened.slots.into_disk());
            status
        }
        Err(refusal) => refuse(sink, refusal),
    }
}

/// Gives the dump of a closed image's marks, as they are or with the archived sets merged into the era array.
pub fn dump<K: Sink, B: Bay>(
    alloc: Global,
    meta: &str,
    logical: bool,
    sink: &mut K,
    bay: &mut B,
) -> Status
    ensures ran { RunsOver B.D.Disk (bay_around B.Bay bay.old bay.new) meta.now
        (K.given sink.old) (K.given sink.new) result
        (λ meaning. PrintsDump (dumped_marks meaning.marks logical)
        (K.given sink.old) (K.given sink.new) result) }
    ensures sink { HasSinkCause (K.faults sink.old) (K.faults sink.new) result }
{
    match open_metadata(alloc, meta, bay) {
        Ok(opened) => {
            let status = print_marks(alloc, &opened, logical, sink);
            bay.put_back(opened.slots.into_disk());
            status
        }
        Err(refusal) => refuse(sink, refusal),
    }
}
