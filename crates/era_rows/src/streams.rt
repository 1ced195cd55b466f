//! Inputs and outputs that fail.

use crate::row::Answer::{Around, Whole};
use crate::row::Fails::{Disk, Give, Take};
use crate::row::Sent::{Text, Write, Writes};
use crate::row::{Row, SERVE};
use crate::run::first_unmet;
use era_disks::DiskCall;
use std::test::Fail;

/// Seventy writes of 1,035 bytes a line, of whose input a take fails: the first of 65,536 bytes, then the rest, then the
/// end.
const UNREAD: Row<'static> = Row {
    shows: "the first take",
    words: SERVE,
    origin: 512,
    fails: &[Take(0)],
    stream: &[Writes("0", "aa", 1, 70)],
    answer: Whole("open 1 64\nfault source 1\nend 1 0\n"),
    status: 7,
    holds: &[(0, 262_144, 0)],
};

static TAKES: [Row<'static>; 7] = [
    Row { ..UNREAD },
    Row {
        shows: "a take in the middle",
        fails: &[Take(1)],
        ..UNREAD
    },
    Row {
        shows: "the take that would tell the end",
        fails: &[Take(2)],
        ..UNREAD
    },
    Row {
        shows: "a take behind the one that told the end, which is not made",
        fails: &[Take(3)],
        answer: Around(
            "open 1 64\n1 ok t0 m1 g2 d3\n2 ok g4 d5\n",
            "\n69 ok g138 d139\n70 ok g140 d141\nend 1 142\n",
        ),
        status: 0,
        holds: &[(0, 512, 170), (512, 262_144, 0)],
        ..UNREAD
    },
    Row {
        shows: "a take before a refused line",
        fails: &[Take(1)],
        stream: &[Writes("0", "aa", 1, 70), Text("0 status\n")],
        ..UNREAD
    },
    Row {
        shows: "a take behind a command that is not served yet, before its round has ended",
        fails: &[Take(2)],
        stream: &[Writes("0", "aa", 1, 70), Text("0 status\n")],
        ..UNREAD
    },
    Row {
        shows: "a take behind a refused line",
        fails: &[Take(2)],
        stream: &[Writes("0", "aa", 1, 70), Text("0 discard 0\n")],
        answer: Whole("open 1 64\nline 71 Unknown\nend 1 0\n"),
        status: 3,
        ..UNREAD
    },
];

/// Two writes, whose answers can't be given: the first line, the replies of the round and the last line are a piece each.
const UNGIVEN: Row<'static> = Row {
    shows: "the first line",
    fails: &[Give(0, 0)],
    stream: &[Write("0", "aa", 1), Write("1", "bb", 1)],
    answer: Whole(""),
    status: 8,
    ..UNREAD
};

static GIVES: [Row<'static>; 7] = [
    Row { ..UNGIVEN },
    Row {
        shows: "four bytes of the first line",
        fails: &[Give(0, 4)],
        answer: Whole("open"),
        ..UNGIVEN
    },
    Row {
        shows: "all of the first line, and a fault",
        fails: &[Give(0, 99)],
        answer: Whole("open 1 64\n"),
        ..UNGIVEN
    },
    Row {
        shows: "a part of the answers",
        fails: &[Give(1, 26)],
        answer: Whole("open 1 64\n1 ok t0 m1 g2 d3\n2 ok g4 d"),
        holds: &[(0, 512, 170), (512, 1_024, 187)],
        ..UNGIVEN
    },
    Row {
        shows: "all of the answers, and a fault",
        fails: &[Give(1, 99)],
        answer: Whole("open 1 64\n1 ok t0 m1 g2 d3\n2 ok g4 d5\n"),
        holds: &[(0, 512, 170), (512, 1_024, 187)],
        ..UNGIVEN
    },
    Row {
        shows: "a part of the last line",
        fails: &[Give(2, 5)],
        answer: Whole("open 1 64\n1 ok t0 m1 g2 d3\n2 ok g4 d5\nend 1"),
        holds: &[(0, 512, 170), (512, 1_024, 187)],
        ..UNGIVEN
    },
    Row {
        shows: "a give that is not made",
        fails: &[Give(3, 0)],
        answer: Whole("open 1 64\n1 ok t0 m1 g2 d3\n2 ok g4 d5\nend 1 6\n"),
        status: 0,
        holds: &[(0, 512, 170), (512, 1_024, 187)],
        ..UNGIVEN
    },
];

/// A failed sink is told before every other fault.
static BOTH: [Row<'static>; 2] = [
    Row {
        shows: "a take and a give",
        fails: &[Take(0), Give(1, 0)],
        answer: Whole("open 1 64\n"),
        ..UNGIVEN
    },
    Row {
        shows: "a write and a give",
        fails: &[Disk(DiskCall::Write, 0), Give(1, 0)],
        answer: Whole("open 1 64\n"),
        ..UNGIVEN
    },
];

#[test]
fn a_failed_take_leaves_the_origin_as_it_was(rt: HostRuntime) -> Result<(), Fail> {
    let unmet = first_unmet(&rt, rt.alloc(), TAKES.as_slice())?;
    assert_eq!(rt; unmet, None);
    Ok(())
}

#[test]
fn a_failed_give_leaves_a_front_of_the_text(rt: HostRuntime) -> Result<(), Fail> {
    let unmet = first_unmet(&rt, rt.alloc(), GIVES.as_slice())?;
    assert_eq!(rt; unmet, None);
    Ok(())
}

#[test]
fn a_failed_sink_is_told_first(rt: HostRuntime) -> Result<(), Fail> {
    let unmet = first_unmet(&rt, rt.alloc(), BOTH.as_slice())?;
    assert_eq!(rt; unmet, None);
    Ok(())
}
