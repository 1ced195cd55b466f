//! Opens a metadata disk for serving.

ghost use Rattle.std.specs.Prelude.{◌≡◌, ◌<◌, ◌≤◌, [], Err, IfOk};
ghost use Rattle.era_base.specs.Calls.{EachMoment, Now};
ghost use Rattle.era_base.specs.CrashModel.{IsClean};
ghost use Rattle.era_base.specs.Geometry.{blocks_of, need_of};
ghost use Rattle.era_slots.specs.Calls.{StandFor};
ghost use Rattle.era_slots.specs.Opening.{AreBlank};
ghost use Rattle.era_slots.specs.Slot.{IsBlank};
ghost use Rattle.era_meta.specs.Openings.{opened_disk, refusal_of};
ghost use Rattle.era_meta.specs.Starting.{IsBegun, LeavesOpening, Started};
ghost use Rattle.era_meta.specs.Trials.{metadata_blocks};

use crate::formatting::{first_parts, format_slots};
use crate::laws::image_stands_for_one_meaning;
use crate::looking::joined;
use crate::metadata::Meta;
use crate::refusal::{MetaError, MetaRefusal};
use crate::starting::start_whole;
use era_base::{Disk, Geometry};
use era_slots::{Opened, Slots};
use std::alloc::Global;

/// The sectors of a metadata block.
const BLOCK_SECTORS: u64 = 8;

/// Formats an opened disk on which no gate is open, with no mark in era 1.
fn start_blank<D: Disk>(
    alloc: Global,
    mut slots: Slots<D>,
    asked: &Geometry,
) -> Result<Meta<D>, MetaRefusal<D>>
    requires have { need_of (blocks_of asked.now.sectors asked.now.block_sectors)
        ≤ metadata_blocks (D.sectors slots.disk) }
    requires blank { AreBlank slots }
    requires stands { Now D.Disk (StandFor slots) slots.disk }
    requires opened { Now D.Disk (λ now. IsClean now × IsBlank now.seen) slots.disk }
    ensures started { Started D.Disk (λ seen. []) slots.disk (opened_disk result)
        (refusal_of result) }
    ensures moments { EachMoment D.Disk (LeavesOpening asked.now) slots.disk
        (opened_disk result) }
    ensures begun { IfOk result (IsBegun D.Disk asked.now slots.disk) }
{
    image_stands_for_one_meaning();
    let Ok(parts) = first_parts(alloc, asked) else {
        return Err(MetaRefusal {
            error: MetaError::Memory,
            disk: slots.into_disk(),
        });
    };
    match format_slots(&mut slots, &parts) {
        Ok(()) => Ok(joined(slots, parts)),
        Err(count) => Err(MetaRefusal {
            error: MetaError::Fault(count),
            disk: slots.into_disk(),
        }),
    }
}

impl<D: Disk> Meta<D> {
    ghost use Rattle.era_meta.specs.Openings.{opened_disk, refusal_of};
    ghost use Rattle.era_meta.specs.Starting.{IsBegun, Started, StartsSafely};
    ghost use Rattle.era_meta.specs.Trials.{metadata_blocks, start_trials};

    /// Opens a disk for serving an origin: one on which no gate is open is formatted with era 1, and on any other one the
    /// next era begins, by one commit. A metadata block is 4,096 bytes, 8 sectors. It refuses, in this order: a disk of
    /// fewer whole metadata blocks than the geometry needs that is asked for, by no device call; damage of the slots; a
    /// disk of fewer blocks than the kept geometry needs; damage of pages and of the held root; another geometry; the
    /// last era, 4294967295; the number of the last commit, where it is at least 2^62; and a fault of the commit. Any
    /// other fault comes at the place of its call, and want of memory where it arises, before anything is written. Each
    /// refusal hands the disk back, and what is refused by anything but a fault isn't written.
    pub fn start(alloc: Global, disk: D, asked: Geometry) -> Result<Meta<D>, MetaRefusal<D>>
        ensures small { metadata_blocks (D.sectors disk)
            < need_of (blocks_of asked.sectors asked.block_sectors) → result ≡ Err (record {
              error = MetaError.MetaSmall (metadata_blocks (D.sectors disk))
                  (need_of (blocks_of asked.sectors asked.block_sectors));
              disk = disk;
            }) }
        ensures started { Started D.Disk (start_trials asked) disk (opened_disk result)
            (refusal_of result) }
        ensures safely { StartsSafely D.Disk asked disk (opened_disk result) }
        ensures begun { IfOk result (IsBegun D.Disk asked disk) }
    {
        let have = disk.sectors() / BLOCK_SECTORS;
        let need = u64::from(asked.need());
        if have < need {
            let error = MetaError::MetaSmall { have, need };
            return Err(MetaRefusal { error, disk });
        }
        match Slots::open(alloc, disk) {
            Ok(Opened::Blank(slots)) => start_blank(alloc, slots, &asked),
            Ok(
                Opened::Whole {
                    slots,
                    active,
                    body,
                    other,
                    ..
                },
            ) => start_whole(alloc, slots, have, active, &body, &other, &asked),
            Err(refusal) => Err(MetaRefusal {
                error: MetaError::of_slots(refusal.error),
                disk: refusal.disk,
            }),
        }
    }
}
