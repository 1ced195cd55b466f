//! Wipes a metadata disk that is to hold other marks, whatever it holds.

ghost use Rattle.std.specs.Prelude.{◌≡◌, ◌↔◌, ◌+◌, ◌*◌, ◌<◌, ◌≤◌, ℕ, List, true, length, IfOk, IfErr, MatchResult, OnOk};
ghost use Rattle.era_base.specs.Calls.{EachMoment, Now, MakesCalls, SameDisk};
ghost use Rattle.era_base.specs.Geometry.{need_of};
ghost use Rattle.era_layout.specs.Root.{fields_of};
ghost use Rattle.era_model.specs.Marks.{blocks_of_marks};
ghost use Rattle.era_model.specs.Validity.{AreValidMarks};
ghost use Rattle.era_slots.specs.Calls.{StandFor};
ghost use Rattle.era_slots.specs.Opening.{AreBlank};
ghost use Rattle.era_slots.specs.Slot.{page_of};
ghost use Rattle.era_slots.specs.Wiping.{open_gates};
ghost use Rattle.era_meta.specs.Meaning.{IsRootBody};
ghost use Rattle.era_meta.specs.FormatCalls.{AreFirstParts};
ghost use Rattle.era_meta.specs.Formatting.{marks_alone};
ghost use Rattle.era_meta.specs.Openings.{HasErrorCause, HasOpeningCause, opened_disk, refusal_of};
ghost use Rattle.era_meta.specs.Restoring.{HasOlder, IsClosedFirst, IsOnlyFault, LeavesRestoring, LeavesWiping, RefusesRestore, RestoresDisk, wiped_disk};
ghost use Rattle.era_meta.specs.Stored.{HasBlocks};
ghost use Rattle.era_meta.specs.Trials.{metadata_blocks};

use crate::formatting::{format_slots, parts_of_marks};
use crate::live_marks::LiveMarks;
use crate::looking::joined;
use crate::metadata::Meta;
use crate::parts::Parts;
use crate::refusal::{MetaError, MetaRefusal};
use era_base::{Disk, Memory};
use era_layout::check_root;
use era_layout::laws::{root_is_read_back, undamaged_bytes_are_a_root};
use era_model::Marks;
use era_slots::laws::{slot_is_read_from_its_block, wiping_keeps_bodies_and_pages};
use era_slots::{Head, Slots, head_of, read_slots};
use std::alloc::Global;

/// The sectors of a metadata block.
const BLOCK_SECTORS: u64 = 8;

/// Whether 3,576 bytes of a slot's body are a root.
fn is_root(body: &[u8]) -> bool
    requires { length body.now ≡ 3576 }
    ensures { (result ≡ true) ↔ IsRootBody body.now }
{
    undamaged_bytes_are_a_root();
    root_is_read_back();
    check_root(body).is_ok()
}

/// Whether both gates are open, and the second one over the smaller commit number.
fn is_older(first: Head, second: Head) -> bool
    ensures { (result ≡ true) ↔ HasOlder first second }
{
    first.is_open && second.is_open && second.number < first.number
}

/// The slot whose gate is closed first where both are open: the one of the smaller commit number, and slot 0 where the
/// numbers are equal or a body is no root.
fn first_closed(zero: &[u8], one: &[u8]) -> u32
    requires { (length zero.now ≡ 4096) × (length one.now ≡ 4096) }
    ensures range { result < 2 }
    ensures closed { (seen : List ℕ) → zero.now ≡ page_of 0 seen → one.now ≡ page_of 1 seen
        → IsClosedFirst seen result }
{
    slot_is_read_from_its_block();
    if !is_older(head_of(zero), head_of(one)) {
        return 0;
    }
    if !is_root(&zero[520..]) {
        return 0;
    }
    if !is_root(&one[520..]) {
        return 0;
    }
    1
}

/// Makes a disk blank, whatever it holds: of two open gates that over the older root is closed first, and then the other
/// one, each with its sync.
fn wipe_disk<D: Disk>(mut disk: D) -> Result<Slots<D>, MetaRefusal<D>>
    requires { 24 ≤ D.sectors disk }
    ensures moments { EachMoment D.Disk LeavesWiping disk (wiped_disk result) }
    ensures stands { IfOk result (λ slots. AreBlank slots
        × Now D.Disk (StandFor slots) slots.disk) }
    ensures calls { OnOk result (MakesCalls D.Disk
        (6 + 2 * open_gates (D.history disk).now.seen) disk (wiped_disk result)) }
    ensures fault { IfErr result (λ refusal. IsOnlyFault refusal.error) }
    ensures disk { SameDisk D.Disk disk (wiped_disk result) }
    ensures cause { MatchResult result (λ slots. D.faults slots.disk ≡ D.faults disk)
        (λ refusal. HasErrorCause (D.faults disk) (D.faults refusal.disk) refusal.error) }
{
    wiping_keeps_bodies_and_pages();
    let (mut zero, mut one) = ([0; 4096], [0; 4096]);
    if let Err(count) = read_slots(&mut disk, &mut zero, &mut one) {
        return Err(MetaRefusal {
            error: MetaError::Fault(count),
            disk,
        });
    }
    match Slots::wipe(disk, first_closed(&zero, &one)) {
        Ok(slots) => Ok(slots),
        Err(refusal) => Err(MetaRefusal {
            error: MetaError::of_slots(refusal.error),
            disk: refusal.disk,
        }),
    }
}

/// Replaces what a disk holds by marks, over memory that was taken before.
fn restore_disk<D: Disk>(disk: D, parts: Parts) -> Result<Meta<D>, MetaRefusal<D>>
    requires parts { AreFirstParts parts.marks parts }
    requires room { HasBlocks (fields_of parts.root) (D.sectors disk) }
    ensures moments { EachMoment D.Disk (LeavesRestoring (marks_alone parts.marks))
        disk (opened_disk result) }
    ensures ok { IfOk result (RestoresDisk D.Disk parts.marks disk) }
    ensures fault { IfErr result (λ refusal. IsOnlyFault refusal.error) }
    ensures disk { SameDisk D.Disk disk (opened_disk result) }
    ensures cause { HasOpeningCause (D.faults disk) (D.faults (opened_disk result))
        (refusal_of result) }
{
    let mut slots = match wipe_disk(disk) {
        Ok(slots) => slots,
        Err(refusal) => return Err(refusal),
    };
    match format_slots(&mut slots, &parts) {
        Ok(()) => Ok(joined(slots, parts)),
        Err(count) => Err(MetaRefusal {
            error: MetaError::Fault(count),
            disk: slots.into_disk(),
        }),
    }
}

/// Marks in memory, from runs, with their first root.
fn parts_of_runs(alloc: Global, marks: &Marks) -> Result<Parts, Memory>
    requires { AreValidMarks marks.now }
    ensures { IfOk result (AreFirstParts marks.now) }
{
    let live = LiveMarks::of_runs(alloc, marks)?;
    parts_of_marks(alloc, live)
}

/// The metadata blocks of 4,096 bytes that marks need on a disk.
fn need_of_marks(marks: &Marks) -> u32
    ensures { result ≡ need_of (blocks_of_marks marks.now) }
{
    marks.geometry.need()
}

impl<D: Disk> Meta<D> {
    /// Replaces what a disk holds, whatever it is, by valid marks, without a snapshot. All memory of later calls is taken
    /// first. It syncs and reads both slots, closes each gate that is open with a sync behind it, that over the older root
    /// first, and then formats the disk with the marks under the commit number 1. It refuses a disk of fewer whole
    /// metadata blocks of 4,096 bytes than the marks' geometry needs, then want of memory, both by no device call, and
    /// then a fault. Each refusal hands the disk back. Of a disk that stood for marks each crash image of each moment
    /// stands for those or for the new ones, or is blank.
    pub fn restore(alloc: Global, disk: D, marks: &Marks) -> Result<Meta<D>, MetaRefusal<D>>
        requires { AreValidMarks marks.now }
        ensures moments { EachMoment D.Disk (LeavesRestoring (marks_alone marks.now))
            disk (opened_disk result) }
        ensures ok { IfOk result (RestoresDisk D.Disk marks.now disk) }
        ensures enough { IfOk result (λ _. need_of (blocks_of_marks marks.now)
            ≤ metadata_blocks (D.sectors disk)) }
        ensures refused { IfErr result (λ refusal. RefusesRestore D.Disk
            (need_of (blocks_of_marks marks.now)) disk refusal.disk refusal.error) }
        ensures disk { SameDisk D.Disk disk (opened_disk result) }
        ensures cause { HasOpeningCause (D.faults disk) (D.faults (opened_disk result))
            (refusal_of result) }
    {
        let have = disk.sectors() / BLOCK_SECTORS;
        let need = u64::from(need_of_marks(marks));
        if have < need {
            return Err(MetaRefusal {
                error: MetaError::MetaSmall { have, need },
                disk,
            });
        }
        match parts_of_runs(alloc, marks) {
            Ok(parts) => restore_disk(disk, parts),
            Err(_) => Err(MetaRefusal {
                error: MetaError::Memory,
                disk,
            }),
        }
    }
}
