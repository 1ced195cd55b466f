//! Opens a metadata disk without writing to it.

ghost use Rattle.std.specs.Prelude.{◌≡◌, ◌<◌, true, false, length, Err, IfOk, IfSome};
ghost use Rattle.era_base.specs.Calls.{Now};
ghost use Rattle.era_base.specs.CrashModel.{IsClean};
ghost use Rattle.era_layout.specs.Root.{fields_of};
ghost use Rattle.era_slots.specs.Calls.{AtEnd, SameSlots, StandFor};
ghost use Rattle.era_slots.specs.Opening.{AreBeside, OpensWhole};
ghost use Rattle.era_meta.specs.Openings.{IsLooked, IsOpenedAs, Tried, meta_of, opened_disk, refusal_of, refused_by};
ghost use Rattle.era_meta.specs.Parts.{AreReadOf, HasParts};
ghost use Rattle.era_meta.specs.Trials.{look_trials, metadata_blocks, opened_trials};

use crate::metadata::Meta;
use crate::parts::{Parts, read_parts};
use crate::refusal::{MetaError, MetaRefusal};
use crate::roots_reading::decode_roots;
use era_base::{Bytes, Disk};
use era_layout::laws::root_is_read_back;
use era_slots::{Opened, Slots};
use std::alloc::Global;

/// The sectors of a metadata block.
const BLOCK_SECTORS: u64 = 8;

/// The metadata blocks that the smallest origin needs.
const LEAST_NEED: u64 = 57;

/// Tries both roots of an opened disk, and reads all that the newest one reaches into memory.
fn try_parts<D: Disk>(
    alloc: Global,
    slots: &mut Slots<D>,
    have: u64,
    active: u32,
    body: &[u8],
    beside: &Option<Bytes>,
) -> Result<Parts, MetaError>
    requires have { have ≡ metadata_blocks (D.sectors slots.old.disk) }
    requires active { active < 2 }
    requires size { (length body.now ≡ 3576)
        × IfSome beside.now (λ bytes. length bytes ≡ 3576) }
    requires opened { Now D.Disk (IsOpenedAs active body.now beside.now) slots.old.disk }
    ensures tried { Tried D.Disk opened_trials slots.old.disk slots.new.disk (refused_by result) }
    ensures same { SameSlots slots.old slots.new
        × AtEnd D.Disk (λ before now. now ≡ before) slots.old.disk slots.new.disk }
    ensures parts { IfOk result (HasParts (D.sectors slots.old.disk)) }
    ensures read { IfOk result (λ parts. D.tells ≡ true
        → AreReadOf active (D.history slots.old.disk).now.seen (fields_of parts.root) parts) }
{
    root_is_read_back();
    let root = match decode_roots(alloc, active, body, beside) {
        Ok(root) => root,
        Err(finding) => return Err(MetaError::of_finding(finding)),
    };
    let need = u64::from(root.geometry.need());
    if have < need {
        return Err(MetaError::MetaSmall { have, need });
    }
    match read_parts(alloc, slots, root) {
        Ok(parts) => Ok(parts),
        Err(finding) => Err(MetaError::of_finding(finding)),
    }
}

/// The metadata of slots and of what was read of their disk.
pub(crate) fn joined<D: Disk>(slots: Slots<D>, parts: Parts) -> Meta<D>
    ensures { result ≡ meta_of slots parts }
{
    let Parts {
        root,
        next,
        marks,
        snapshot,
        spare,
    } = parts;
    Meta {
        slots,
        marks,
        root,
        next,
        snapshot,
        spare,
        unstored: false,
    }
}

/// Reads an opened disk on which a slot is the active one.
pub(crate) fn look_whole<D: Disk>(
    alloc: Global,
    mut slots: Slots<D>,
    have: u64,
    active: u32,
    body: &Bytes,
    beside: &Option<Bytes>,
) -> Result<Meta<D>, MetaRefusal<D>>
    requires have { have ≡ metadata_blocks (D.sectors slots.disk) }
    requires shape { AreBeside slots active body.now beside.now slots.number }
    requires stands { Now D.Disk (StandFor slots) slots.disk }
    requires opened { Now D.Disk (λ now. IsClean now
        × OpensWhole now.seen slots active body.now beside.now slots.number) slots.disk }
    ensures tried { Tried D.Disk opened_trials slots.disk (opened_disk result)
        (refusal_of result) }
    ensures looked { IfOk result (IsLooked D.Disk slots.disk) }
{
    match try_parts(alloc, &mut slots, have, active, body.as_slice(), beside) {
        Ok(parts) => Ok(joined(slots, parts)),
        Err(error) => Err(MetaRefusal {
            error,
            disk: slots.into_disk(),
        }),
    }
}

impl<D: Disk> Meta<D> {
    ghost use Rattle.era_meta.specs.Openings.{IsLooked, Tried, opened_disk, refusal_of};
    ghost use Rattle.era_meta.specs.Trials.{look_trials, metadata_blocks};

    /// Opens a disk for tools: it syncs, reads all that the newest root and its held root reach, and writes nothing. A
    /// metadata block is 4,096 bytes, 8 sectors. It refuses, in this order: a disk of fewer than 57 whole metadata
    /// blocks, by no device call; one on which neither gate is open; damage of the slots; a disk of fewer blocks than
    /// the kept geometry needs; damage of pages and of the held root; each the first one. A fault comes at the place
    /// of its call, and want of memory where it arises. Each refusal hands the disk back.
    pub fn look(alloc: Global, disk: D) -> Result<Meta<D>, MetaRefusal<D>>
        ensures small { metadata_blocks (D.sectors disk) < 57 → result ≡ Err (record {
          error = MetaError.MetaSmall (metadata_blocks (D.sectors disk)) 57;
          disk = disk;
        }) }
        ensures tried { Tried D.Disk look_trials disk (opened_disk result) (refusal_of result) }
        ensures looked { IfOk result (IsLooked D.Disk disk) }
    {
        let have = disk.sectors() / BLOCK_SECTORS;
        if have < LEAST_NEED {
            let need = LEAST_NEED;
            let error = MetaError::MetaSmall { have, need };
            return Err(MetaRefusal { error, disk });
        }
        match Slots::open(alloc, disk) {
            Ok(Opened::Blank(slots)) => Err(MetaRefusal {
                error: MetaError::Unformatted,
                disk: slots.into_disk(),
            }),
            Ok(
                Opened::Whole {
                    slots,
                    active,
                    body,
                    other,
                    ..
                },
            ) => look_whole(alloc, slots, have, active, &body, &other),
            Err(refusal) => Err(MetaRefusal {
                error: MetaError::of_slots(refusal.error),
                disk: refusal.disk,
            }),
        }
    }
}
