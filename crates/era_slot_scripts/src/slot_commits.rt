//! Commits on the slots of a disk in memory, and what is found after a crash at each write and each sync of three.

use crate::slot_disks::{
    FIRST, SECOND, SECOND_ALONE, Seen, Stop, THIRD, blank, cut_at, opening_of, stored_twice,
};
use era_base::{Disk, Memory};
use era_disks::Tear;
use era_slots::SlotError;
use std::alloc::Global;
use std::test::Fail;

#[test]
fn the_last_commit_is_opened(rt: HostRuntime) -> Result<(), Fail> {
    let found = match stored_twice(rt.alloc())? {
        Some(disk) => opening_of(rt.alloc(), disk),
        None => Seen::Blank,
    };
    assert!(rt; found == SECOND);
    Ok(())
}

#[test]
fn two_open_slots_of_one_number_are_a_tie(rt: HostRuntime) -> Result<(), Fail> {
    let mut disk = blank(rt.alloc())?;
    let mut head = [0; 1_024];
    head[0] = 1;
    head[512] = 1;
    disk.write(0, head.as_slice())?;
    disk.write(8, head.as_slice())?;
    assert!(rt; opening_of(rt.alloc(), disk) == Seen::Refused(SlotError::SequenceTie));
    Ok(())
}

#[test]
fn an_open_slot_of_number_0_is_refused(rt: HostRuntime) -> Result<(), Fail> {
    let mut disk = blank(rt.alloc())?;
    let mut head = [0; 512];
    head[0] = 1;
    disk.write(0, head.as_slice())?;
    assert!(rt; opening_of(rt.alloc(), disk) == Seen::Refused(SlotError::BadSequence(0)));
    Ok(())
}

/// The write of the first number and body.
const FIRST_BODY: Stop = Stop::Write(1, 0);

/// The write that opens the gate over them.
const FIRST_GATE: Stop = Stop::Write(0, 0);

/// The write of the second number and body, into the other slot.
const SECOND_BODY: Stop = Stop::Write(9, 0);

/// The write that opens the gate over these.
const SECOND_GATE: Stop = Stop::Write(8, 0);

/// The write that closes the first gate again.
const CLOSING: Stop = Stop::Write(0, 1);

/// The write of the third number and body, over the first ones.
const THIRD_BODY: Stop = Stop::Write(1, 1);

/// The write that opens the gate over these in turn.
const THIRD_GATE: Stop = Stop::Write(0, 2);

/// What an opening gives after a crash with this tear, where the commits were stopped.
fn left_by(alloc: Global, stop: Stop, tear: Tear) -> Result<Seen, Memory> {
    let mut disk = cut_at(alloc, stop)?;
    disk.crash(tear)?;
    Ok(opening_of(alloc, disk))
}

/// The first of the rows whose crash leaves anything else than it says, or `None`.
fn first_unmet(alloc: Global, rows: &[(Stop, Tear, Seen)]) -> Result<Option<(Stop, Tear)>, Memory> {
    for (stop, tear, seen) in rows {
        if left_by(alloc, *stop, *tear)? != *seen {
            return Ok(Some((*stop, *tear)));
        }
    }
    Ok(None)
}

#[test]
fn a_crash_at_a_write_leaves_the_old_body_or_the_new(rt: HostRuntime) -> Result<(), Fail> {
    let rows = [
        (FIRST_BODY, Tear::Keep, Seen::Blank),
        (FIRST_BODY, Tear::Old, Seen::Blank),
        (FIRST_BODY, Tear::Fill(1), Seen::Blank),
        (FIRST_GATE, Tear::Keep, Seen::Blank),
        (FIRST_GATE, Tear::Old, Seen::Blank),
        (FIRST_GATE, Tear::Fill(1), FIRST),
        (FIRST_GATE, Tear::Fill(9), Seen::Blank),
        (SECOND_BODY, Tear::Keep, FIRST),
        (SECOND_BODY, Tear::Old, FIRST),
        (SECOND_BODY, Tear::Fill(1), FIRST),
        (SECOND_GATE, Tear::Keep, FIRST),
        (SECOND_GATE, Tear::Old, FIRST),
        (SECOND_GATE, Tear::Fill(1), SECOND),
        (SECOND_GATE, Tear::Fill(9), FIRST),
    ];
    assert_eq!(rt; first_unmet(rt.alloc(), rows.as_slice())?, None);
    Ok(())
}

#[test]
fn a_crash_at_a_sync_leaves_the_old_body_or_the_new(rt: HostRuntime) -> Result<(), Fail> {
    let rows = [
        (Stop::Sync(0), Tear::Keep, Seen::Blank),
        (Stop::Sync(0), Tear::Old, Seen::Blank),
        (Stop::Sync(0), Tear::Fill(1), Seen::Blank),
        (Stop::Sync(1), Tear::Keep, Seen::Blank),
        (Stop::Sync(1), Tear::Old, Seen::Blank),
        (Stop::Sync(1), Tear::Fill(1), Seen::Blank),
        (Stop::Sync(2), Tear::Keep, FIRST),
        (Stop::Sync(2), Tear::Old, Seen::Blank),
        (Stop::Sync(2), Tear::Fill(1), FIRST),
        (Stop::Sync(2), Tear::Fill(9), Seen::Blank),
        (Stop::Sync(3), Tear::Keep, FIRST),
        (Stop::Sync(3), Tear::Old, FIRST),
        (Stop::Sync(3), Tear::Fill(1), FIRST),
        (Stop::Sync(4), Tear::Keep, SECOND),
        (Stop::Sync(4), Tear::Old, FIRST),
        (Stop::Sync(4), Tear::Fill(1), SECOND),
        (Stop::Sync(4), Tear::Fill(9), FIRST),
    ];
    assert_eq!(rt; first_unmet(rt.alloc(), rows.as_slice())?, None);
    Ok(())
}

#[test]
fn a_crash_over_an_older_body_leaves_the_old_body_or_the_new(rt: HostRuntime) -> Result<(), Fail> {
    let rows = [
        (CLOSING, Tear::Keep, SECOND),
        (CLOSING, Tear::Fill(1), SECOND),
        (CLOSING, Tear::Fill(9), SECOND_ALONE),
        (Stop::Sync(5), Tear::Keep, SECOND_ALONE),
        (Stop::Sync(5), Tear::Old, SECOND),
        (THIRD_BODY, Tear::Fill(1), SECOND_ALONE),
        (Stop::Sync(6), Tear::Keep, SECOND_ALONE),
        (Stop::Sync(6), Tear::Fill(1), SECOND_ALONE),
        (THIRD_GATE, Tear::Keep, SECOND_ALONE),
        (THIRD_GATE, Tear::Fill(1), THIRD),
        (Stop::Sync(7), Tear::Keep, THIRD),
        (Stop::Sync(7), Tear::Old, SECOND_ALONE),
    ];
    assert_eq!(rt; first_unmet(rt.alloc(), rows.as_slice())?, None);
    Ok(())
}
