//! Schedules that the machine accepts whole, each by what a rule allows.

use crate::crash_schedules::{BLANK, BLANK_MARKED, MOVED, TORN, UNMARKED};
use crate::moves::Move;
use crate::moves::Move::{
    Crash, CrashBlank, Digest, Dropped, Enter, Go, Kept, Leave, List, ListSnap, Mark, Read,
    ReadZeros, Refused, Reopen, Roll, Settle, Snap, Status, Tried, Unsettled,
};
use crate::small_images::{Archived, Left, Marked};
use crate::tables::{
    Accepted, BROKEN, MARKED, OPEN, SWITCHED, VOLATILE, first_refused, first_refused_in,
};
use era_model::{Kind, Why};
use std::test::Fail;

/// Part 0 failed, with the greatest count.
const MOST: Why = Why::DataFault {
    stripe: 0,
    count: 18_446_744_073_709_551_615,
};

static WRITES: [Accepted<'static>; 6] = [
    (
        "an open write of another stripe",
        &OPEN,
        &[Enter(1), Tried(1, 16, 1), Mark(1, 16, 1), Go(1, 16, 1)],
    ),
    (
        "a cut write is resolved",
        &BROKEN,
        &[Settle(1, 0, 512), Read(2, 0, 0xcc), Leave(0), Roll(3, 2)],
    ),
    (
        "a cut write stays cut",
        &BROKEN,
        &[Unsettled(1, 0, 6), Unsettled(2, 0, 7)],
    ),
    (
        "a cut write reads as anything",
        &BROKEN,
        &[Read(1, 0, 0x77), Read(2, 0, 0xaa)],
    ),
    ("two sectors are read", &[], &[ReadZeros(0, 6, 1_024)]),
    (
        "the greatest count again",
        &[Refused(0, Kind::Read, MOST)],
        &[Refused(1, Kind::Read, MOST)],
    ),
];

#[test]
fn writes_and_reads_are_accepted(rt: HostRuntime) -> Result<(), Fail> {
    assert_eq!(rt; first_refused(rt.alloc(), WRITES.as_slice())?, None);
    Ok(())
}

static ERAS: [Accepted<'static>; 5] = [
    ("kept for a stripe inside", &[Enter(0)], &[Kept(0, 1)]),
    (
        "kept for those that were inside",
        &[Enter(0), Enter(1), Leave(0)],
        &[Kept(0, 2), Kept(1, 1)],
    ),
    (
        "a fault of any other command",
        &[Refused(0, Kind::TakeSnap, Why::MetaFault(1))],
        &[
            Refused(1, Kind::DropSnap, Why::MetaFault(2)),
            Refused(2, Kind::Digest, Why::MetaFault(3)),
        ],
    ),
    (
        "a fault of a write that asked",
        &[Tried(0, 0, 1)],
        &[Refused(0, Kind::Write, Why::MetaFault(1))],
    ),
    (
        "any fault in a volatile era",
        &VOLATILE,
        &[
            Refused(1, Kind::List, Why::MetaFault(4)),
            Refused(2, Kind::Status, Why::MetaFault(5)),
            Refused(3, Kind::Checkpoint, Why::MetaFault(6)),
            Refused(4, Kind::Write, Why::MetaFault(7)),
        ],
    ),
];

static LAST_ERA: [Accepted<'static>; 1] = [(
    "the last era",
    &[],
    &[Refused(0, Kind::Checkpoint, Why::End)],
)];

#[test]
fn eras_and_faults_are_accepted(rt: HostRuntime) -> Result<(), Fail> {
    assert_eq!(rt; first_refused(rt.alloc(), ERAS.as_slice())?, None);
    let refused = first_refused_in(rt.alloc(), u32::MAX, LAST_ERA.as_slice())?;
    assert_eq!(rt; refused, None);
    Ok(())
}

static SNAPSHOTS: [Accepted<'static>; 5] = [
    (
        "held and dropped",
        &[Snap(0, 2), Refused(1, Kind::TakeSnap, Why::Held(2))],
        &[
            Dropped(2),
            Refused(3, Kind::DropSnap, Why::NoSnap),
            Refused(4, Kind::List, Why::NoSnap),
        ],
    ),
    ("used blocks", &[], &[Status(0, 4, 57, 1, None)]),
    (
        "used blocks with a snapshot",
        &[Snap(0, 2), Status(1, 5, 57, 1, Some(2))],
        &[Status(2, 6, 57, 1, Some(2)), Status(3, 7, 57, 1, Some(2))],
    ),
    (
        "memory for a list",
        &[],
        &[Refused(0, Kind::List, Why::Memory)],
    ),
    (
        "the snapshot's blocks",
        &[
            Tried(0, 0, 1),
            Mark(0, 0, 1),
            Snap(1, 2),
            Tried(2, 1, 1),
            Mark(2, 1, 1),
        ],
        &[
            ListSnap(3, 1, Some((0, 0))),
            ListSnap(4, 2, None),
            List(5, 0, Some((0, 1))),
        ],
    ),
];

#[test]
fn snapshots_and_statuses_are_accepted(rt: HostRuntime) -> Result<(), Fail> {
    assert_eq!(rt; first_refused(rt.alloc(), SNAPSHOTS.as_slice())?, None);
    Ok(())
}

static DIGESTS: [Accepted<'static>; 3] = [
    (
        "nothing to digest",
        &[],
        &[Refused(0, Kind::Digest, Why::Idle)],
    ),
    (
        "an empty set",
        &[Roll(0, 2)],
        &[Digest(1, 1, None), Refused(2, Kind::Digest, Why::Idle)],
    ),
    (
        "a seventeenth set",
        &SWITCHED,
        &[
            Status(18, 20, 57, 18, None),
            List(19, 1, Some((0, 0))),
            List(20, 2, None),
            Digest(21, 2, None),
        ],
    ),
];

#[test]
fn digests_and_folds_are_accepted(rt: HostRuntime) -> Result<(), Fail> {
    assert_eq!(rt; first_refused(rt.alloc(), DIGESTS.as_slice())?, None);
    Ok(())
}

static CRASHES: [Accepted<'static>; 7] = [
    (
        "a torn write",
        &OPEN,
        &[Crash(TORN), Reopen(4), Read(0, 0, 0x77)],
    ),
    (
        "a torn cut write",
        &BROKEN,
        &[Crash(TORN), Reopen(4), Read(0, 0, 0x77)],
    ),
    (
        "a lost snapshot",
        &[Snap(0, 2)],
        &[Crash(BLANK), Reopen(4), Snap(0, 2)],
    ),
    (
        "a found snapshot",
        &[],
        &[
            Crash(Left {
                held: Some(UNMARKED),
                ..BLANK
            }),
            Reopen(4),
            Dropped(0),
        ],
    ),
    (
        "a snapshot of earlier marks",
        &MARKED,
        &[
            Crash(Left {
                held: Some(UNMARKED),
                ..BLANK_MARKED
            }),
            Reopen(4),
        ],
    ),
    (
        "a mark that was tried",
        &[Tried(0, 1, 1)],
        &[
            Crash(Left {
                marks: Marked {
                    current: Some((1, 1)),
                    ..UNMARKED
                },
                ..BLANK
            }),
            Reopen(4),
            List(0, 1, Some((1, 1))),
        ],
    ),
    (
        "the era before a switch",
        &[Roll(0, 2)],
        &[Crash(BLANK), Reopen(4), Roll(0, 3)],
    ),
];

#[test]
fn crashes_of_writes_and_snapshots_are_accepted(rt: HostRuntime) -> Result<(), Fail> {
    assert_eq!(rt; first_refused(rt.alloc(), CRASHES.as_slice())?, None);
    Ok(())
}

/// Block 0 in the array, behind seventeen switches.
const MERGED: Marked = Marked {
    era: 18,
    array: Some((0, 0, 1)),
    ..UNMARKED
};

static VALID: [Accepted<'static>; 4] = [
    (
        "merged sets",
        &SWITCHED,
        &[
            Crash(Left {
                marks: MERGED,
                ..BLANK
            }),
            Reopen(4),
        ],
    ),
    (
        "sixteen sets",
        &SWITCHED,
        &[
            Crash(Left {
                marks: Marked {
                    archived: Archived::Many(16),
                    ..MERGED
                },
                ..BLANK
            }),
            Reopen(4),
        ],
    ),
    (
        "sets in order",
        &MOVED,
        &[
            Crash(Left {
                marks: Marked {
                    era: 3,
                    archived: Archived::Two(1, 2),
                    ..UNMARKED
                },
                ..BLANK
            }),
            Reopen(4),
        ],
    ),
    (
        "the whole origin",
        &[],
        &[CrashBlank(512, 8, 262_144), Reopen(16)],
    ),
];

static BEFORE_LAST: [Accepted<'static>; 1] = [(
    "the last era",
    &[],
    &[
        Crash(Left {
            marks: Marked {
                era: 4_294_967_294,
                ..UNMARKED
            },
            ..BLANK
        }),
        Reopen(4),
        Refused(0, Kind::Checkpoint, Why::End),
    ],
)];

#[test]
fn crashes_of_valid_marks_are_accepted(rt: HostRuntime) -> Result<(), Fail> {
    assert_eq!(rt; first_refused(rt.alloc(), VALID.as_slice())?, None);
    let before = u32::MAX - 1;
    let refused = first_refused_in(rt.alloc(), before, BEFORE_LAST.as_slice())?;
    assert_eq!(rt; refused, None);
    Ok(())
}
