//! Gives the list of the blocks that were written since an era, and tells how the run ended.

ghost use Rattle.std.specs.Prelude.{◌≡◌, IfOk, true};
ghost use Rattle.era_meta.specs.Held.{snapshot_marks};
ghost use Rattle.era_tools.specs.ListTool.{Blocks, IsListed, TellsList};
ghost use Rattle.era_tools.specs.Printing.{HasSinkCause};

use crate::block_lines::print_blocks;
use crate::refusal::Refusal;
use crate::refusing::refuse;
use crate::status::Status;
use era_base::{Disk, Memory, Runs, Sink};
use era_meta::Meta;
use std::alloc::Global;

// The blocks that were marked in the era or a later one, by the marks or by the snapshot, which is held then.
fn written<D: Disk>(alloc: Global, meta: &Meta<D>, since: u32, snap: bool) -> Result<Runs, Memory>
    requires { snap ≡ true → meta.now.snapshot.is_held ≡ true }
    ensures { IfOk result (λ runs. IsListed meta.now.marks (snapshot_marks meta.now.snapshot)
        since snap (Blocks runs)) }
{
    if snap {
        meta.snap_since(alloc, since)
    } else {
        meta.since(alloc, since)
    }
}

/// Gives the list of the blocks that were marked in the era or a later one, by the marks or by the snapshot. Era 0 means
/// the same as 1. It reads no disk, and takes memory for the runs alone.
pub fn print_list<K: Sink, D: Disk>(
    alloc: Global,
    meta: &Meta<D>,
    since: u32,
    snap: bool,
    sink: &mut K,
) -> Status
    ensures told { TellsList meta.now.marks (snapshot_marks meta.now.snapshot) since snap
        (K.given sink.old) (K.given sink.new) result }
    ensures sink { HasSinkCause (K.faults sink.old) (K.faults sink.new) result }
{
    if snap && !meta.held() {
        return refuse(sink, Refusal::NoSnap);
    }
    match written(alloc, meta, since, snap) {
        Ok(runs) => print_blocks(sink, &runs),
        Err(_) => refuse(sink, Refusal::NoRoom),
    }
}
