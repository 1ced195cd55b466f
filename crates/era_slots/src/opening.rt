//! Opens the slots of a disk.

ghost use Rattle.std.specs.Prelude.{◌≡◌, ◌<◌, ◌≤◌, ℕ, List, length, IfOk, IfErr, MatchResult};
ghost use Rattle.era_base.specs.CrashModel.{SameBut};
ghost use Rattle.era_base.specs.Calls.{EachMoment, Now, SameDisk};
ghost use Rattle.era_slots.specs.Slot.{page_of, commit_number, IsCommitNumber};
ghost use Rattle.era_slots.specs.Calls.{StandFor};
ghost use Rattle.era_slots.specs.Opening.{slots_of, disk_opened, OpensOrRefuses, OpensByCalls, HasShape, HasFaultCause, AreBodies, AreRead, HasNumber, IsFoundIn};

use crate::heads::{Found, gate_is_open, head_of, judge};
use crate::look::read_slots;
use crate::opened::{Opened, SlotError, SlotRefusal};
use crate::slots::Slots;
use era_base::{Bytes, Disk, Memory};
use std::alloc::Global;

/// What the slots are whose bytes these are.
pub fn found_in(first: &[u8], second: &[u8]) -> Found
    requires size { (length first.now ≡ 4096) × (length second.now ≡ 4096) }
    ensures found { (seen : List ℕ)
        → first.now ≡ page_of 0 seen → second.now ≡ page_of 1 seen → IsFoundIn seen result }
    ensures number { HasNumber first.now second.now result }
{
    judge(head_of(first), head_of(second))
}

/// The body of the active slot's bytes, and that of the other one's, if its gate is open.
fn bodies_of(alloc: Global, active: &[u8], beside: &[u8]) -> Result<(Bytes, Option<Bytes>), Memory>
    requires size { (length active.now ≡ 4096) × (length beside.now ≡ 4096) }
    ensures { IfOk result (λ bodies. AreBodies active.now beside.now bodies.0 bodies.1) }
{
    let body = Bytes::from_slice(alloc, &active[520..])?;
    if !gate_is_open(beside) {
        return Ok((body, None));
    }
    let other = Bytes::from_slice(alloc, &beside[520..])?;
    Ok((body, Some(other)))
}

/// The slots of a disk whose active slot has these bytes, and the bodies.
fn whole<D: Disk>(
    alloc: Global,
    disk: D,
    active: u32,
    own: &[u8],
    beside: &[u8],
) -> Result<Opened<D>, SlotRefusal<D>>
    requires size { (length own.now ≡ 4096) × (length beside.now ≡ 4096) }
    requires active { (active < 2) × IsCommitNumber (commit_number 0 own.now) }
    requires room { 24 ≤ D.sectors disk }
    requires read { Now D.Disk (AreRead active own.now beside.now) disk }
    ensures disk { (disk_opened result ≡ disk)
        × IfErr result (λ refusal. refusal.error ≡ SlotError.Memory) }
    ensures stands { IfOk result (λ opened. Now D.Disk (StandFor (slots_of opened)) disk) }
    ensures told { Now D.Disk (OpensOrRefuses result) disk }
    ensures shape { IfOk result HasShape }
{
    let sequence = head_of(own).number;
    let may_be_open = head_of(beside).is_open;
    let Ok((body, other)) = bodies_of(alloc, own, beside) else {
        return Err(SlotRefusal {
            error: SlotError::Memory,
            disk,
        });
    };
    let slots = Slots {
        disk,
        target: 1 - active,
        number: sequence,
        may_be_open,
    };
    Ok(Opened::Whole {
        slots,
        active,
        body,
        other,
        sequence,
    })
}

impl<D: Disk> Slots<D> {
    /// Syncs, then reads both slots of a disk of at least 3 metadata blocks of 4,096 bytes. It refuses a fault of the
    /// sync or of a read, then the first open slot whose commit number is 0 or at least 2^63, then two open slots of
    /// one commit number, then want of memory for the bodies. No call follows one that failed, and each other answer
    /// comes after these three calls. Each refusal hands the disk back.
    pub fn open(alloc: Global, mut disk: D) -> Result<Opened<D>, SlotRefusal<D>>
        requires { 24 ≤ D.sectors disk }
        ensures moments { EachMoment D.Disk (SameBut 0 0) disk (disk_opened result) }
        ensures stands { IfOk result
            (λ opened. Now D.Disk (StandFor (slots_of opened)) (slots_of opened).disk) }
        ensures told { Now D.Disk (OpensOrRefuses result) (disk_opened result) }
        ensures shape { IfOk result HasShape }
        ensures calls { OpensByCalls D.Disk disk result }
        ensures disk { SameDisk D.Disk disk (disk_opened result) }
        ensures cause { MatchResult result
            (λ opened. D.faults (slots_of opened).disk ≡ D.faults disk)
            (λ refusal. HasFaultCause (D.faults disk) (D.faults refusal.disk) refusal.error) }
    {
        let (mut first, mut second) = ([0; 4096], [0; 4096]);
        if let Err(count) = read_slots(&mut disk, &mut first, &mut second) {
            return Err(SlotRefusal {
                error: SlotError::Fault(count),
                disk,
            });
        }
        match found_in(&first, &second) {
            Found::BadSequence(slot) => Err(SlotRefusal {
                error: SlotError::BadSequence(slot),
                disk,
            }),
            Found::Tied => Err(SlotRefusal {
                error: SlotError::SequenceTie,
                disk,
            }),
            Found::Active(active) => {
                if active == 0 {
                    whole(alloc, disk, 0, &first, &second)
                } else {
                    whole(alloc, disk, 1, &second, &first)
                }
            }
            Found::NoneOpen => Ok(Opened::Blank(Slots {
                disk,
                target: 0,
                number: 0,
                may_be_open: false,
            })),
        }
    }
}
