//! Formats a metadata disk that holds nothing yet.

ghost use Rattle.std.specs.Prelude.{◌≡◌, ◌≤◌, IfOk, IfErr, MatchResult};
ghost use Rattle.era_base.specs.Calls.{EachMoment, SameDisk};
ghost use Rattle.era_base.specs.CrashModel.{SameBut};
ghost use Rattle.era_base.specs.Geometry.{blocks_of, need_of};
ghost use Rattle.era_layout.specs.Root.{fields_of};
ghost use Rattle.era_model.specs.Marks.{no_marks};
ghost use Rattle.era_meta.specs.FormatCalls.{AreFirstParts, FormatsDisk, HasFormatCause, LeavesFormatting, OpensBlank, RefusesFormat, RefusesOpened, blank_disk, format_error_of, formatted_disk};
ghost use Rattle.era_meta.specs.Formatting.{marks_alone};
ghost use Rattle.era_meta.specs.Stored.{HasBlocks};
ghost use Rattle.era_meta.specs.Trials.{metadata_blocks};

use crate::formatting::{first_parts, format_slots};
use crate::looking::joined;
use crate::metadata::Meta;
use crate::parts::Parts;
use era_base::{Disk, Geometry};
use era_slots::{Opened, SlotError, Slots};
use std::alloc::Global;

/// The sectors of a metadata block.
const BLOCK_SECTORS: u64 = 8;

/// Why a disk isn't formatted. A metadata block has 4,096 bytes.
#[derive(Clone, Copy, Debug, PartialEq, Eq)]
pub enum FormatError {
    /// The disk has `have` whole metadata blocks, fewer than the `need` of the geometry.
    MetaSmall { have: u64, need: u64 },
    /// Memory was refused.
    Memory,
    /// A call on the disk failed. It has the disk's count of faults, which rose.
    Fault(u64),
    /// A gate is open: the disk holds metadata, whole or damaged.
    Formatted,
}

/// A refusal, with the disk.
#[derive(Drop)]
pub struct FormatRefusal<D> {
    pub error: FormatError,
    pub disk: D,
}

impl FormatError {
    /// The refusal where the slots weren't opened.
    fn of_slots(error: SlotError) -> FormatError
        ensures { result ≡ format_error_of error }
    {
        match error {
            SlotError::Fault(count) => FormatError::Fault(count),
            SlotError::BadSequence(_) => FormatError::Formatted,
            SlotError::SequenceTie => FormatError::Formatted,
            SlotError::Memory => FormatError::Formatted,
        }
    }
}

/// Opens the slots of a disk on which neither gate is open.
fn open_blank<D: Disk>(alloc: Global, disk: D) -> Result<Slots<D>, FormatRefusal<D>>
    requires { 24 ≤ D.sectors disk }
    ensures moments { EachMoment D.Disk (SameBut 0 0) disk (blank_disk result) }
    ensures ok { IfOk result (OpensBlank D.Disk disk) }
    ensures refused { IfErr result (λ refusal.
        RefusesOpened D.Disk disk refusal.disk refusal.error) }
    ensures disk { SameDisk D.Disk disk (blank_disk result) }
    ensures cause { MatchResult result (λ slots. D.faults slots.disk ≡ D.faults disk)
        (λ refusal. HasFormatCause (D.faults disk) (D.faults refusal.disk) refusal.error) }
{
    match Slots::open(alloc, disk) {
        Ok(Opened::Blank(slots)) => Ok(slots),
        Ok(Opened::Whole { slots, .. }) => Err(FormatRefusal {
            error: FormatError::Formatted,
            disk: slots.into_disk(),
        }),
        Err(refusal) => Err(FormatRefusal {
            error: FormatError::of_slots(refusal.error),
            disk: refusal.disk,
        }),
    }
}

/// Formats a disk with marks, over memory that was taken before.
fn format_disk<D: Disk>(alloc: Global, disk: D, parts: Parts) -> Result<Meta<D>, FormatRefusal<D>>
    requires parts { AreFirstParts parts.marks parts }
    requires room { HasBlocks (fields_of parts.root) (D.sectors disk) }
    ensures moments { EachMoment D.Disk (LeavesFormatting (marks_alone parts.marks))
        disk (formatted_disk result) }
    ensures ok { IfOk result (FormatsDisk D.Disk parts.marks disk) }
    ensures refused { IfErr result (λ refusal.
        RefusesOpened D.Disk disk refusal.disk refusal.error) }
    ensures disk { SameDisk D.Disk disk (formatted_disk result) }
    ensures cause { MatchResult result (λ meta. D.faults meta.slots.disk ≡ D.faults disk)
        (λ refusal. HasFormatCause (D.faults disk) (D.faults refusal.disk) refusal.error) }
{
    let mut slots = match open_blank(alloc, disk) {
        Ok(slots) => slots,
        Err(refusal) => return Err(refusal),
    };
    match format_slots(&mut slots, &parts) {
        Ok(()) => Ok(joined(slots, parts)),
        Err(count) => Err(FormatRefusal {
            error: FormatError::Fault(count),
            disk: slots.into_disk(),
        }),
    }
}

impl<D: Disk> Meta<D> {
    /// Formats a disk on which neither gate is open for an origin of a geometry: era 1, no mark, no snapshot, under the
    /// commit number 1. All memory of later calls is taken first. It refuses a disk of fewer whole metadata blocks of
    /// 4,096 bytes than the geometry needs, then want of memory, both by no device call; then by a sync and two reads a
    /// disk on which a gate is open, to which nothing is written; and a fault at the place of the call that failed. Each
    /// refusal hands the disk back.
    pub fn format(alloc: Global, disk: D, geometry: &Geometry) -> Result<Meta<D>, FormatRefusal<D>>
        ensures moments { EachMoment D.Disk (LeavesFormatting (marks_alone
            (no_marks geometry.now.sectors geometry.now.block_sectors 1)))
            disk (formatted_disk result) }
        ensures ok { IfOk result (FormatsDisk D.Disk
            (no_marks geometry.now.sectors geometry.now.block_sectors 1) disk) }
        ensures enough { IfOk result (λ _.
            need_of (blocks_of geometry.now.sectors geometry.now.block_sectors)
            ≤ metadata_blocks (D.sectors disk)) }
        ensures refused { IfErr result (λ refusal. RefusesFormat D.Disk
            (need_of (blocks_of geometry.now.sectors geometry.now.block_sectors))
            disk refusal.disk refusal.error) }
        ensures disk { SameDisk D.Disk disk (formatted_disk result) }
        ensures cause { MatchResult result (λ meta. D.faults meta.slots.disk ≡ D.faults disk)
            (λ refusal. HasFormatCause (D.faults disk) (D.faults refusal.disk) refusal.error) }
    {
        let have = disk.sectors() / BLOCK_SECTORS;
        let need = u64::from(geometry.need());
        if have < need {
            return Err(FormatRefusal {
                error: FormatError::MetaSmall { have, need },
                disk,
            });
        }
        match first_parts(alloc, geometry) {
            Ok(parts) => format_disk(alloc, disk, parts),
            Err(_) => Err(FormatRefusal {
                error: FormatError::Memory,
                disk,
            }),
        }
    }
}
