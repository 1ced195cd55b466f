//! Backs up the blocks of an origin that were written since an era.

ghost use Rattle.std.specs.Prelude.{◌≡◌, max};
ghost use Rattle.era_tools.specs.Around.{bay_around};
ghost use Rattle.era_tools.specs.BackupTool.{LendsOrigin, OnlyReads, RunsBackup, RunsCopy, TellsCopies};
ghost use Rattle.era_tools.specs.Printing.{HasSinkCause};

use crate::backup_text::print_copies;
use crate::copying::ROOM;
use crate::listed::list_image;
use crate::listing::Listing;
use crate::refusal::Refusal;
use crate::refusing::refuse;
use crate::status::Status;
use era_base::{Bay, BayError, Disk, Sink};
use std::alloc::Global;

/// Takes the first sectors of the origin of this name from its bay.
fn lend_origin<B: Bay>(name: &str, sectors: u64, bay: &mut B) -> Result<B::D, Refusal>
    ensures { LendsOrigin B.D.Disk (bay_around B.Bay bay.old bay.new) name.now sectors result }
{
    let have = match bay.size(name) {
        Ok(have) => have,
        Err(BayError::Failed) => return Err(Refusal::BayFault(bay.faults())),
        Err(BayError::Memory) => return Err(Refusal::NoRoom),
    };
    if have < sectors {
        return Err(Refusal::OriginSmall {
            have,
            need: sectors,
        });
    }
    match bay.open_part(name, 0, sectors) {
        Ok(disk) => Ok(disk),
        Err(BayError::Failed) => Err(Refusal::BayFault(bay.faults())),
        Err(BayError::Memory) => Err(Refusal::NoRoom),
    }
}

/// Syncs an origin, and gives the text of a backup of its listed blocks.
fn copy_disk<K: Sink, D: Disk>(
    alloc: Global,
    disk: &mut D,
    listing: &Listing,
    since: u32,
    sink: &mut K,
) -> Status
    requires { D.sectors disk.old ≡ listing.now.geometry.sectors }
    ensures told { TellsCopies D.Disk listing.now since disk.old disk.new
        (K.given sink.old) (K.given sink.new) result }
    ensures only { OnlyReads D.Disk disk.old disk.new }
    ensures sink { HasSinkCause (K.faults sink.old) (K.faults sink.new) result }
{
    let Ok(mut room) = vec![in alloc; 0u8; ROOM] else {
        return refuse(sink, Refusal::NoRoom);
    };
    let Ok(()) = disk.sync() else {
        let count = disk.faults();
        return refuse(sink, Refusal::DataFault(count));
    };
    print_copies(sink, disk, listing, since, room.as_mut_slice())
}

/// Gives the text of a backup of the listed blocks of the origin of this name, and puts the origin back.
fn copy_origin<K: Sink, B: Bay>(
    alloc: Global,
    name: &str,
    listing: &Listing,
    since: u32,
    sink: &mut K,
    bay: &mut B,
) -> Status
    ensures ran { RunsCopy B.D.Disk (bay_around B.Bay bay.old bay.new) name.now listing.now since
        (K.given sink.old) (K.given sink.new) result }
    ensures sink { HasSinkCause (K.faults sink.old) (K.faults sink.new) result }
{
    match lend_origin(name, listing.geometry.sectors, bay) {
        Ok(disk) => {
            let mut disk = disk;
            let status = copy_disk(alloc, &mut disk, listing, since, sink);
            bay.put_back(disk);
            status
        }
        Err(refusal) => refuse(sink, refusal),
    }
}

/// Lists the blocks that were written in the era or a later one by the marks of a closed image, and gives the text of a
/// backup of them: each with its bytes on the origin. Era 0 means the same as 1. The origin is synced before it is read,
/// so what is given lasts over a crash. Nothing is written to either device.
pub fn backup<K: Sink, B: Bay>(
    alloc: Global,
    meta: &str,
    origin: &str,
    since: u32,
    sink: &mut K,
    bay: &mut B,
) -> Status
    ensures ran { RunsBackup B.D.Disk (bay_around B.Bay bay.old bay.new)
        meta.now origin.now (max since 1) (K.given sink.old) (K.given sink.new) result }
    ensures sink { HasSinkCause (K.faults sink.old) (K.faults sink.new) result }
{
    if meta == origin {
        return refuse(sink, Refusal::SameDevice);
    }
    let since = since.max(1);
    match list_image(alloc, meta, since, bay) {
        Ok(listing) => copy_origin(alloc, origin, &listing, since, sink, bay),
        Err(refusal) => refuse(sink, refusal),
    }
}
