//! Schedules of stripes and writes, each refused by one rule.

use crate::moves::Move;
use crate::moves::Move::{
    Cut, Done, Enter, Go, GoFrom, Leave, Mark, Read, ReadZeros, Roll, Settle, Tried, Unsettled,
};
use crate::tables::{BROKEN, MARKED, OPEN, Row, WRITTEN, first_unmet};
use std::test::Fail;

static ENTERING: [Row<'static>; 7] = [
    ("enters from outside", &[], &[Enter(0), Enter(0)], 1),
    ("enters a known stripe", &[], &[Enter(4)], 0),
    ("leaves from inside", &[], &[Enter(0), Leave(1)], 1),
    ("leaves once", &WRITTEN, &[Leave(0), Leave(0)], 6),
    ("leaves a known stripe", &[], &[Leave(4)], 0),
    ("no open write when it leaves", &OPEN, &[Leave(0)], 4),
    ("no cut write when it leaves", &BROKEN, &[Leave(0)], 5),
];

#[test]
fn stripes_enter_and_leave_by_their_rules(rt: HostRuntime) -> Result<(), Fail> {
    assert_eq!(rt; first_unmet(rt.alloc(), ENTERING.as_slice())?, None);
    Ok(())
}

static MARKING: [Row<'static>; 9] = [
    ("tried in the present era", &[], &[Tried(0, 0, 2)], 0),
    ("tried of a known block", &[], &[Tried(0, 64, 1)], 0),
    ("tried while unmarked", &MARKED, &[Tried(1, 0, 1)], 2),
    ("mark behind its tried", &[], &[Mark(0, 0, 1)], 0),
    ("own tried", &[Tried(0, 0, 1)], &[Mark(1, 0, 1)], 1),
    ("tried block", &[Tried(0, 0, 1)], &[Mark(0, 1, 1)], 1),
    ("tried era", &[Tried(0, 0, 1)], &[Mark(0, 0, 2)], 1),
    ("one mark for a tried", &MARKED, &[Mark(0, 0, 1)], 2),
    (
        "mark in its era",
        &[Tried(0, 0, 1), Roll(1, 2)],
        &[Mark(0, 0, 1)],
        2,
    ),
];

#[test]
fn marks_follow_their_requests(rt: HostRuntime) -> Result<(), Fail> {
    assert_eq!(rt; first_unmet(rt.alloc(), MARKING.as_slice())?, None);
    Ok(())
}

const MOVED: &[Move] = &[Tried(0, 0, 1), Mark(0, 0, 1), Roll(1, 2), Enter(0)];

const READY: &[Move] = &[Tried(0, 0, 1), Mark(0, 0, 1), Enter(0)];

static ISSUING: [Row<'static>; 12] = [
    (
        "marked block",
        &[Enter(0)],
        &[Tried(0, 0, 1), Go(0, 0, 1)],
        2,
    ),
    ("marked in the present era", MOVED, &[Go(0, 0, 2)], 4),
    ("present era", MOVED, &[Go(0, 0, 1)], 4),
    ("one write for a command", &WRITTEN, &[Go(0, 0, 1)], 5),
    ("one open write in a stripe", &OPEN, &[Go(1, 0, 1)], 4),
    (
        "of any of its blocks",
        &OPEN,
        &[Tried(1, 1, 1), Mark(1, 1, 1), Go(1, 1, 1)],
        6,
    ),
    ("no cut write in the stripe", &BROKEN, &[Go(1, 0, 1)], 5),
    ("stripe inside", &MARKED, &[Go(0, 0, 1)], 2),
    ("some bytes", READY, &[GoFrom(0, 0, 0)], 3),
    ("whole sectors", READY, &[GoFrom(0, 0, 511)], 3),
    ("within the block", READY, &[GoFrom(0, 7, 1_024)], 3),
    ("sector of the block", READY, &[GoFrom(0, 8, 512)], 3),
];

#[test]
fn writes_are_issued_by_their_rules(rt: HostRuntime) -> Result<(), Fail> {
    assert_eq!(rt; first_unmet(rt.alloc(), ISSUING.as_slice())?, None);
    Ok(())
}

static ENDING: [Row<'static>; 14] = [
    ("done after go", &MARKED, &[Enter(0), Done(0)], 3),
    ("done once", &WRITTEN, &[Done(0)], 5),
    ("a cut write isn't done", &BROKEN, &[Done(0)], 5),
    ("cut after go", &MARKED, &[Enter(0), Cut(0, 1)], 3),
    ("a done write isn't cut", &WRITTEN, &[Cut(0, 1)], 5),
    ("cut once", &BROKEN, &[Cut(0, 6)], 5),
    (
        "an open write isn't resolved",
        &OPEN,
        &[Settle(1, 0, 512)],
        4,
    ),
    (
        "a done write isn't resolved",
        &WRITTEN,
        &[Settle(1, 0, 512)],
        5,
    ),
    (
        "resolved once",
        &BROKEN,
        &[Settle(1, 0, 512), Settle(1, 0, 512)],
        6,
    ),
    ("all bytes are resolved", &BROKEN, &[Settle(1, 0, 511)], 5),
    (
        "no more bytes are resolved",
        &BROKEN,
        &[Settle(1, 0, 1_024)],
        5,
    ),
    (
        "an open write doesn't stay cut",
        &OPEN,
        &[Unsettled(1, 0, 1)],
        4,
    ),
    ("the part's count rises", &BROKEN, &[Unsettled(1, 0, 5)], 5),
    (
        "it rises each time",
        &BROKEN,
        &[Unsettled(1, 0, 6), Unsettled(2, 0, 6)],
        6,
    ),
];

#[test]
fn writes_end_by_their_rules(rt: HostRuntime) -> Result<(), Fail> {
    assert_eq!(rt; first_unmet(rt.alloc(), ENDING.as_slice())?, None);
    Ok(())
}

static READING: [Row<'static>; 9] = [
    ("what was written", &WRITTEN, &[Read(1, 0, 0)], 5),
    ("what wasn't written", &WRITTEN, &[Read(1, 1, 0xaa)], 5),
    ("not what is still written", &OPEN, &[Read(1, 0, 0xaa)], 4),
    (
        "what was read back",
        &BROKEN,
        &[Settle(1, 0, 512), Read(2, 0, 0xaa)],
        6,
    ),
    (
        "what a cut write left alone",
        &BROKEN,
        &[Read(1, 0, 0x77), Read(2, 1, 0x77)],
        6,
    ),
    ("a known sector", &[], &[Read(0, 512, 0)], 0),
    ("no half sector", &[], &[ReadZeros(0, 0, 256)], 0),
    ("no half sector more", &[], &[ReadZeros(0, 0, 768)], 0),
    ("one block", &[], &[ReadZeros(0, 7, 1_024)], 0),
];

#[test]
fn reads_give_the_content(rt: HostRuntime) -> Result<(), Fail> {
    assert_eq!(rt; first_unmet(rt.alloc(), READING.as_slice())?, None);
    Ok(())
}
