//! Schedules of eras, snapshots, digests, lists and refusals, each refused by one rule.

use crate::moves::Move;
use crate::moves::Move::{
    Cut, Digest, Dropped, Enter, Kept, Leave, List, ListSnap, Mark, Refused, Roll, Snap, Status,
    Tried,
};
use crate::tables::{BROKEN, MARKED, OPEN, Row, VOLATILE, WRITTEN, first_unmet};
use era_model::{Kind, Why};
use std::test::Fail;

/// Block 0 is marked in era 1, and era 2 is present.
const ARCHIVED: [Move; 3] = [Tried(0, 0, 1), Mark(0, 0, 1), Roll(1, 2)];

/// A stripe was inside and left, and the keeper drew since.
const LEFT: [Move; 3] = [Enter(0), Leave(0), Tried(0, 0, 1)];

static SWITCHES: [Row<'static>; 9] = [
    ("no open write", &OPEN, &[Roll(1, 2)], 4),
    ("no cut write", &BROKEN, &[Roll(1, 2)], 5),
    ("no stripe inside", &WRITTEN, &[Roll(1, 2)], 5),
    ("the next era", &[], &[Roll(0, 3)], 0),
    ("a later era", &[], &[Roll(0, 1)], 0),
    ("stays for some stripe", &[], &[Kept(0, 0)], 0),
    ("stays for a stripe inside", &[], &[Kept(0, 1)], 0),
    ("stays for their number", &[Enter(0)], &[Kept(0, 2)], 1),
    ("stays for one that was inside", &LEFT, &[Kept(0, 1)], 3),
];

#[test]
fn eras_move_and_stay_by_their_rules(rt: HostRuntime) -> Result<(), Fail> {
    assert_eq!(rt; first_unmet(rt.alloc(), SWITCHES.as_slice())?, None);
    Ok(())
}

static DIGESTS: [Row<'static>; 11] = [
    ("one snapshot", &[Snap(0, 2)], &[Snap(1, 2)], 1),
    ("at metadata block 2", &[], &[Snap(0, 3)], 0),
    ("a held one is dropped", &[], &[Dropped(0)], 0),
    ("dropped once", &[Snap(0, 2), Dropped(1)], &[Dropped(2)], 2),
    ("an archived set", &MARKED, &[Digest(1, 1, Some(0))], 2),
    ("its era", &ARCHIVED, &[Digest(2, 2, Some(0))], 3),
    ("its least page", &ARCHIVED, &[Digest(2, 1, Some(1))], 3),
    ("not dropped before", &ARCHIVED, &[Digest(2, 1, None)], 3),
    (
        "a page once",
        &ARCHIVED,
        &[Digest(2, 1, Some(0)), Digest(3, 1, Some(0))],
        4,
    ),
    (
        "no page of an empty set",
        &[Roll(0, 2)],
        &[Digest(1, 1, Some(0))],
        1,
    ),
    (
        "a set is dropped once",
        &[Roll(0, 2), Digest(1, 1, None)],
        &[Digest(2, 1, None)],
        2,
    ),
];

#[test]
fn snapshots_and_digests_follow_their_rules(rt: HostRuntime) -> Result<(), Fail> {
    assert_eq!(rt; first_unmet(rt.alloc(), DIGESTS.as_slice())?, None);
    Ok(())
}

/// A snapshot without marks is held, and block 0 is marked behind it.
const HELD: [Move; 3] = [Snap(0, 2), Tried(1, 0, 1), Mark(1, 0, 1)];

static LISTS: [Row<'static>; 13] = [
    ("no block too many", &MARKED, &[List(1, 1, Some((0, 1)))], 2),
    ("no block too few", &MARKED, &[List(1, 1, None)], 2),
    (
        "no block of an earlier era",
        &ARCHIVED,
        &[List(2, 2, Some((0, 0)))],
        3,
    ),
    (
        "no block past the end",
        &[],
        &[List(0, 1, Some((64, 64)))],
        0,
    ),
    ("the snapshot is held", &[], &[ListSnap(0, 1, None)], 0),
    (
        "as the snapshot has it",
        &HELD,
        &[ListSnap(2, 1, Some((0, 0)))],
        3,
    ),
    ("used blocks", &[], &[Status(0, 5, 57, 1, None)], 0),
    (
        "used blocks with a snapshot",
        &HELD,
        &[Status(2, 4, 57, 1, Some(2))],
        3,
    ),
    (
        "at most with the snapshot's own pages",
        &HELD,
        &[Status(2, 8, 57, 1, Some(2))],
        3,
    ),
    ("all blocks", &[], &[Status(0, 4, 56, 1, None)], 0),
    ("present era", &[], &[Status(0, 4, 57, 2, None)], 0),
    ("no snapshot", &[], &[Status(0, 4, 57, 1, Some(2))], 0),
    ("the snapshot", &HELD, &[Status(2, 5, 57, 1, None)], 3),
];

#[test]
fn lists_and_statuses_are_exact(rt: HostRuntime) -> Result<(), Fail> {
    assert_eq!(rt; first_unmet(rt.alloc(), LISTS.as_slice())?, None);
    Ok(())
}

static CAUSES: [Row<'static>; 7] = [
    (
        "the last era",
        &[],
        &[Refused(0, Kind::Checkpoint, Why::End)],
        0,
    ),
    (
        "a snapshot is held",
        &[],
        &[Refused(0, Kind::TakeSnap, Why::Held(2))],
        0,
    ),
    (
        "at metadata block 2",
        &[Snap(0, 2)],
        &[Refused(1, Kind::TakeSnap, Why::Held(3))],
        1,
    ),
    (
        "no snapshot is held",
        &[Snap(0, 2)],
        &[Refused(1, Kind::DropSnap, Why::NoSnap)],
        1,
    ),
    (
        "no set is archived",
        &ARCHIVED,
        &[Refused(2, Kind::Digest, Why::Idle)],
        3,
    ),
    (
        "memory for a list",
        &[],
        &[Refused(0, Kind::Status, Why::Memory)],
        0,
    ),
    (
        "memory for a list alone",
        &[],
        &[Refused(0, Kind::Write, Why::Memory)],
        0,
    ),
];

#[test]
fn a_refusal_has_its_cause(rt: HostRuntime) -> Result<(), Fail> {
    assert_eq!(rt; first_unmet(rt.alloc(), CAUSES.as_slice())?, None);
    Ok(())
}

/// The metadata disk failed, with a count of 3.
const FAULT: Why = Why::MetaFault(3);

/// Part 0 failed, with a count of 5.
const PART_FAULT: Why = Why::DataFault {
    stripe: 0,
    count: 5,
};

static FAULTS: [Row<'static>; 10] = [
    (
        "a write that tried",
        &[],
        &[Refused(0, Kind::Write, FAULT)],
        0,
    ),
    (
        "a checkpoint that moved",
        &[],
        &[Refused(0, Kind::Checkpoint, FAULT)],
        0,
    ),
    (
        "a list in a volatile era",
        &[],
        &[Refused(0, Kind::List, FAULT)],
        0,
    ),
    (
        "a status in a volatile era",
        &[],
        &[Refused(0, Kind::Status, FAULT)],
        0,
    ),
    (
        "an era that is still volatile",
        &VOLATILE,
        &[Snap(1, 2), Refused(2, Kind::List, Why::MetaFault(4))],
        3,
    ),
    (
        "the metadata's count rises",
        &VOLATILE,
        &[Refused(1, Kind::List, FAULT)],
        2,
    ),
    (
        "it never falls",
        &VOLATILE,
        &[Refused(1, Kind::Digest, Why::MetaFault(2))],
        2,
    ),
    (
        "the part's count rises",
        &BROKEN,
        &[Refused(1, Kind::Read, PART_FAULT)],
        5,
    ),
    (
        "it rises for a cut write",
        &OPEN,
        &[Refused(1, Kind::Read, PART_FAULT), Cut(0, 5)],
        5,
    ),
    (
        "it rises each time",
        &[Refused(0, Kind::Read, PART_FAULT)],
        &[Refused(1, Kind::Write, PART_FAULT)],
        1,
    ),
];

#[test]
fn a_fault_has_its_cause_and_a_count_that_rose(rt: HostRuntime) -> Result<(), Fail> {
    assert_eq!(rt; first_unmet(rt.alloc(), FAULTS.as_slice())?, None);
    Ok(())
}
