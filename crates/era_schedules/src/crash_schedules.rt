//! Schedules of crashes and reopenings, each refused by one rule.

use crate::moves::Move;
use crate::moves::Move::{Crash, CrashBlank, Enter, Leave, Mark, Reopen, Roll, Snap, Tried};
use crate::small_images::{Archived, Left, Marked};
use crate::tables::{BROKEN, MARKED, Row, SWITCHED, WRITTEN, first_unmet, first_unmet_in};
use std::test::Fail;

/// Marks of no block in era 1.
pub const UNMARKED: Marked = Marked {
    era: 1,
    array: None,
    archived: Archived::None,
    current: None,
};

/// Marks of block 0 in era 1.
pub const FIRST_MARKED: Marked = Marked {
    current: Some((0, 0)),
    ..UNMARKED
};

/// What a crash leaves of an origin of zeros without marks and without a snapshot.
pub const BLANK: Left = Left {
    sectors: [0, 0],
    marks: UNMARKED,
    held: None,
};

/// The same with block 0 marked.
pub const BLANK_MARKED: Left = Left {
    marks: FIRST_MARKED,
    ..BLANK
};

static ENDS: [Row<'static>; 8] = [
    ("no event", &[], &[Crash(BLANK), Snap(0, 2)], 1),
    ("no stripe enters", &[], &[Crash(BLANK), Enter(0)], 1),
    (
        "no stripe leaves",
        &[Enter(0)],
        &[Crash(BLANK), Leave(0)],
        2,
    ),
    ("no other crash", &[], &[Crash(BLANK), Crash(BLANK)], 1),
    ("a crash before", &[], &[Reopen(4)], 0),
    ("some stripe", &[], &[Crash(BLANK), Reopen(0)], 1),
    ("sixteen stripes", &[], &[Crash(BLANK), Reopen(17)], 1),
    (
        "opens once",
        &[],
        &[Crash(BLANK), Reopen(16), Reopen(16)],
        2,
    ),
];

/// Marks of no block in the last era.
const LAST: Marked = Marked {
    era: 4_294_967_295,
    ..UNMARKED
};

static LAST_ENDS: [Row<'static>; 1] = [(
    "an era behind it",
    &[],
    &[
        Crash(Left {
            marks: LAST,
            ..BLANK
        }),
        Reopen(4),
    ],
    1,
)];

#[test]
fn sessions_open_right_after_a_crash(rt: HostRuntime) -> Result<(), Fail> {
    assert_eq!(rt; first_unmet(rt.alloc(), ENDS.as_slice())?, None);
    let unmet = first_unmet_in(rt.alloc(), u32::MAX, LAST_ENDS.as_slice())?;
    assert_eq!(rt; unmet, None);
    Ok(())
}

/// The write of block 0 is torn.
pub const TORN: Left = Left {
    sectors: [0x77, 0],
    ..BLANK_MARKED
};

static LEFT: [Row<'static>; 8] = [
    ("no more bytes", &[], &[CrashBlank(512, 8, 262_145)], 0),
    ("all bytes", &[], &[CrashBlank(512, 8, 261_632)], 0),
    (
        "marks of the length",
        &[],
        &[CrashBlank(513, 8, 262_144)],
        0,
    ),
    (
        "marks of the block size",
        &[],
        &[CrashBlank(512, 16, 262_144)],
        0,
    ),
    (
        "outside a cut write",
        &BROKEN,
        &[Crash(Left {
            sectors: [0x77, 0x77],
            ..TORN
        })],
        5,
    ),
    ("what was written", &WRITTEN, &[Crash(BLANK_MARKED)], 5),
    (
        "what wasn't",
        &[],
        &[Crash(Left {
            marks: UNMARKED,
            ..TORN
        })],
        0,
    ),
    (
        "within a cut write all may be left",
        &BROKEN,
        &[Crash(TORN), Crash(TORN)],
        6,
    ),
];

#[test]
fn a_crash_leaves_all_but_writes_in_flight(rt: HostRuntime) -> Result<(), Fail> {
    assert_eq!(rt; first_unmet(rt.alloc(), LEFT.as_slice())?, None);
    Ok(())
}

static RECOVERED: [Row<'static>; 6] = [
    ("no block is lacking", &MARKED, &[Crash(BLANK)], 2),
    (
        "no block that nobody tried",
        &MARKED,
        &[Crash(Left {
            marks: Marked {
                current: Some((0, 1)),
                ..UNMARKED
            },
            ..BLANK
        })],
        2,
    ),
    (
        "one exceptional block",
        &[Tried(0, 1, 1), Tried(1, 2, 1)],
        &[Crash(Left {
            marks: Marked {
                current: Some((1, 2)),
                ..UNMARKED
            },
            ..BLANK
        })],
        2,
    ),
    (
        "the present era",
        &[],
        &[Crash(Left {
            marks: Marked { era: 2, ..UNMARKED },
            ..BLANK
        })],
        0,
    ),
    (
        "the era before a switch alone",
        &[Roll(0, 2), Tried(1, 0, 2)],
        &[Crash(BLANK)],
        2,
    ),
    (
        "valid marks",
        &[],
        &[Crash(Left {
            marks: Marked { era: 0, ..UNMARKED },
            ..BLANK
        })],
        0,
    ),
];

#[test]
fn recovered_marks_are_the_journals(rt: HostRuntime) -> Result<(), Fail> {
    assert_eq!(rt; first_unmet(rt.alloc(), RECOVERED.as_slice())?, None);
    Ok(())
}

static SNAPSHOTS: [Row<'static>; 3] = [
    (
        "marks of no moment",
        &[],
        &[Crash(Left {
            held: Some(FIRST_MARKED),
            ..BLANK
        })],
        0,
    ),
    (
        "no later marks",
        &[Snap(0, 2), Tried(1, 0, 1), Mark(1, 0, 1)],
        &[Crash(Left {
            held: Some(FIRST_MARKED),
            ..BLANK_MARKED
        })],
        3,
    ),
    (
        "valid marks",
        &[],
        &[Crash(Left {
            held: Some(Marked { era: 0, ..UNMARKED }),
            ..BLANK
        })],
        0,
    ),
];

#[test]
fn a_recovered_snapshot_is_one_of_the_session(rt: HostRuntime) -> Result<(), Fail> {
    assert_eq!(rt; first_unmet(rt.alloc(), SNAPSHOTS.as_slice())?, None);
    Ok(())
}

/// The era moved to 3.
pub const MOVED: [Move; 2] = [Roll(0, 2), Roll(1, 3)];

/// The era moved to 3, and block 0 was marked in era 2.
const LATER: [Move; 4] = [Roll(0, 2), Tried(1, 0, 2), Mark(1, 0, 2), Roll(2, 3)];

/// What a crash leaves without marks in era 3.
const IN_THREE: Marked = Marked { era: 3, ..UNMARKED };

static VALID: [Row<'static>; 7] = [
    (
        "sets in order",
        &MOVED,
        &[Crash(Left {
            marks: Marked {
                archived: Archived::Two(2, 1),
                ..IN_THREE
            },
            ..BLANK
        })],
        2,
    ),
    (
        "one set of an era",
        &MOVED,
        &[Crash(Left {
            marks: Marked {
                archived: Archived::Two(1, 1),
                ..IN_THREE
            },
            ..BLANK
        })],
        2,
    ),
    (
        "sets of earlier eras",
        &MOVED,
        &[Crash(Left {
            marks: Marked {
                archived: Archived::Two(2, 3),
                ..IN_THREE
            },
            ..BLANK
        })],
        2,
    ),
    (
        "sets of some era",
        &MOVED,
        &[Crash(Left {
            marks: Marked {
                archived: Archived::Two(0, 1),
                ..IN_THREE
            },
            ..BLANK
        })],
        2,
    ),
    (
        "sixteen sets",
        &SWITCHED,
        &[Crash(Left {
            marks: Marked {
                era: 18,
                array: Some((0, 0, 1)),
                archived: Archived::Many(17),
                ..UNMARKED
            },
            ..BLANK
        })],
        19,
    ),
    (
        "entries up to the oldest set",
        &LATER,
        &[Crash(Left {
            marks: Marked {
                array: Some((0, 0, 2)),
                archived: Archived::Two(1, 2),
                ..IN_THREE
            },
            ..BLANK
        })],
        4,
    ),
    (
        "entries of earlier eras",
        &MARKED,
        &[Crash(Left {
            marks: Marked {
                array: Some((0, 0, 1)),
                ..UNMARKED
            },
            ..BLANK
        })],
        2,
    ),
];

#[test]
fn recovered_marks_are_valid(rt: HostRuntime) -> Result<(), Fail> {
    assert_eq!(rt; first_unmet(rt.alloc(), VALID.as_slice())?, None);
    Ok(())
}
