//! Lists the blocks of a closed image that a backup is to copy.

ghost use Rattle.std.specs.Prelude.{◌≡◌, IfOk, true};
ghost use Rattle.era_meta.specs.InMemory.{FitTogether};
ghost use Rattle.era_tools.specs.Around.{bay_around};
ghost use Rattle.era_tools.specs.BackupText.{IsListing, written_blocks};
ghost use Rattle.era_tools.specs.BackupTool.{ListsImage};

use crate::listing::Listing;
use crate::opening::open_metadata;
use crate::refusal::Refusal;
use era_base::{Bay, Disk, Memory};
use era_meta::{LiveMarks, Meta};
use std::alloc::Global;

/// The blocks that were marked in the era or a later one, ascending. Era 0 means the same as 1.
fn list_written(alloc: Global, marks: &LiveMarks, since: u32) -> Result<Vec<u32>, Memory>
    ensures { IfOk result (λ blocks. blocks.items ≡ written_blocks marks.now since) }
{
    let mut blocks = Vec::new(alloc);
    for block in 0..marks.blocks() {
        if since.max(1) <= marks.last_era(block) {
            blocks.push(block)?;
        }
    }
    Ok(blocks)
}

/// What a backup is to copy, by the marks in memory. It reads no disk, and takes memory for the list alone.
fn list_marks<D: Disk>(alloc: Global, meta: &Meta<D>, since: u32) -> Result<Listing, Memory>
    requires { FitTogether D.Disk meta.now }
    ensures { IfOk result (IsListing meta.now.marks since) }
{
    let blocks = list_written(alloc, &meta.marks, since)?;
    Ok(Listing {
        geometry: meta.geometry(),
        era: meta.era(),
        blocks,
    })
}

/// What a backup is to copy, by the closed image on the device of this name, which is put back.
pub fn list_image<B: Bay>(
    alloc: Global,
    name: &str,
    since: u32,
    bay: &mut B,
) -> Result<Listing, Refusal>
    ensures { ListsImage B.D.Disk (bay_around B.Bay bay.old bay.new) name.now since result }
{
    match open_metadata(alloc, name, bay) {
        Ok(opened) => {
            let listed = list_marks(alloc, &opened, since);
            bay.put_back(opened.slots.into_disk());
            match listed {
                Ok(listing) => Ok(listing),
                Err(_) => Err(Refusal::NoRoom),
            }
        }
        Err(refusal) => Err(refusal),
    }
}
