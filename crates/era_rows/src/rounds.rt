//! Streams of several rounds: each is run and answered before the source is asked for the next one.

use crate::row::Answer::Whole;
use crate::row::Fails::{Disk, Give, Take};
use crate::row::Sent::{Text, Write};
use crate::row::{Row, SERVE};
use crate::run::first_unmet;
use era_disks::DiskCall;
use std::test::Fail;

/// What the origin holds behind the first write of these rows, and behind both.
const FIRST: &[(usize, usize, u8)] = &[(0, 512, 170), (512, 262_144, 0)];

const BOTH: &[(usize, usize, u8)] = &[(0, 512, 170), (4_096, 4_608, 187)];

/// Three rounds on the marks of one session.
const ROUNDS: Row<'static> = Row {
    shows: "rounds one after the other",
    words: SERVE,
    origin: 512,
    fails: &[],
    stream: &[
        Write("0", "aa", 1),
        Text("run\n"),
        Text("0 checkpoint\n"),
        Text("run\n"),
        Write("8", "bb", 1),
        Text("0 list 1\n"),
        Text("0 list 2\n"),
        Text("run\n"),
    ],
    answer: Whole(
        "open 1 64\n\
         1 ok t0 m1 g2 d3\n\
         3 era 2 e4\n\
         5 ok t5 m6 g7 d8\n\
         6 blocks 0-1 l9\n\
         7 blocks 1 l10\n\
         end 2 11\n",
    ),
    status: 0,
    holds: BOTH,
};

static IN_ORDER: [Row<'static>; 1] = [Row { ..ROUNDS }];

/// Rounds without commands, which aren't answered.
static EMPTY: [Row<'static>; 3] = [
    Row {
        shows: "a line that ends a round alone",
        stream: &[Text("run\n")],
        answer: Whole("open 1 64\nend 1 0\n"),
        holds: &[(0, 262_144, 0)],
        ..ROUNDS
    },
    Row {
        shows: "rounds without commands before and behind one with a command",
        stream: &[
            Text("run\n"),
            Text("run\n"),
            Write("0", "aa", 1),
            Text("run\n"),
            Text("run\n"),
        ],
        answer: Whole("open 1 64\n3 ok t0 m1 g2 d3\nend 1 4\n"),
        holds: FIRST,
        ..ROUNDS
    },
    Row {
        shows: "a last round that no line ends",
        stream: &[Write("0", "aa", 1), Text("run\n"), Write("8", "bb", 1)],
        answer: Whole("open 1 64\n1 ok t0 m1 g2 d3\n3 ok t4 m5 g6 d7\nend 1 8\n"),
        ..ROUNDS
    },
];

/// A round, and then one with a line that is refused.
const REFUSED: Row<'static> = Row {
    shows: "a line of a later round, of which nothing is run",
    stream: &[
        Write("0", "aa", 1),
        Text("run\n"),
        Write("8", "bb", 1),
        Text("0 write 8 zz\n"),
        Write("16", "cc", 1),
    ],
    answer: Whole("open 1 64\n1 ok t0 m1 g2 d3\nline 4 BadHex\nend 1 4\n"),
    status: 3,
    holds: FIRST,
    ..ROUNDS
};

static REFUSALS: [Row<'static>; 6] = [
    Row { ..REFUSED },
    Row {
        shows: "the first line of a later round",
        stream: &[Write("0", "aa", 1), Text("run\n"), Text("0 write 8 zz\n")],
        answer: Whole("open 1 64\n1 ok t0 m1 g2 d3\nline 3 BadHex\nend 1 4\n"),
        ..REFUSED
    },
    Row {
        shows: "a command that is not served yet",
        stream: &[
            Write("0", "aa", 1),
            Text("run\n"),
            Write("8", "bb", 1),
            Text("0 status\n"),
            Text("0 read 0 1\n"),
            Text("run\n"),
        ],
        answer: Whole("open 1 64\n1 ok t0 m1 g2 d3\nline 4 NotYet\nend 1 4\n"),
        ..REFUSED
    },
    Row {
        shows: "a refused line behind a command that is not served yet",
        stream: &[
            Write("0", "aa", 1),
            Text("run\n"),
            Text("0 status\n"),
            Text("0 discard 0\n"),
        ],
        answer: Whole("open 1 64\n1 ok t0 m1 g2 d3\nline 4 Unknown\nend 1 4\n"),
        ..REFUSED
    },
    Row {
        shows: "a refused line of the round behind that of a command that is not served yet",
        stream: &[
            Write("0", "aa", 1),
            Text("run\n"),
            Text("0 status\n"),
            Text("run\n"),
            Text("0 discard 0\n"),
        ],
        answer: Whole("open 1 64\n1 ok t0 m1 g2 d3\nline 3 NotYet\nend 1 4\n"),
        ..REFUSED
    },
    Row {
        shows: "a line alone",
        stream: &[Text("0 discard 0\n")],
        answer: Whole("open 1 64\nline 1 Unknown\nend 1 0\n"),
        holds: &[(0, 262_144, 0)],
        ..REFUSED
    },
];

/// Two rounds, of which something fails.
const FAILED: Row<'static> = Row {
    shows: "the take behind a round that was read",
    fails: &[Take(1)],
    stream: &[Write("0", "aa", 1), Text("run\n"), Write("8", "bb", 1)],
    answer: Whole("open 1 64\n1 ok t0 m1 g2 d3\nfault source 1\nend 1 4\n"),
    status: 7,
    holds: FIRST,
    ..ROUNDS
};

static FAILURES: [Row<'static>; 5] = [
    Row { ..FAILED },
    Row {
        shows: "the take that would tell the end behind the last round",
        stream: &[
            Write("0", "aa", 1),
            Text("run\n"),
            Write("8", "bb", 1),
            Text("run\n"),
        ],
        answer: Whole("open 1 64\n1 ok t0 m1 g2 d3\n3 ok t4 m5 g6 d7\nfault source 1\nend 1 8\n"),
        holds: BOTH,
        ..FAILED
    },
    Row {
        shows: "no round is run behind a write that was cut",
        fails: &[Disk(DiskCall::Write, 0)],
        answer: Whole("open 1 64\n1 fault data 1 t0 m1 g2 c3\nend 1 4\n"),
        status: 4,
        holds: &[(0, 262_144, 0)],
        ..FAILED
    },
    Row {
        shows: "no round is run behind replies that were not given",
        fails: &[Give(1, 4)],
        answer: Whole("open 1 64\n1 ok"),
        status: 8,
        ..FAILED
    },
    Row {
        shows: "the replies of the second round",
        fails: &[Give(2, 4)],
        answer: Whole("open 1 64\n1 ok t0 m1 g2 d3\n3 ok"),
        status: 8,
        holds: BOTH,
        ..FAILED
    },
];

#[test]
fn rounds_go_on_with_the_marks_of_those_before(rt: HostRuntime) -> Result<(), Fail> {
    let unmet = first_unmet(&rt, rt.alloc(), IN_ORDER.as_slice())?;
    assert_eq!(rt; unmet, None);
    Ok(())
}

#[test]
fn rounds_without_commands_are_not_answered(rt: HostRuntime) -> Result<(), Fail> {
    let unmet = first_unmet(&rt, rt.alloc(), EMPTY.as_slice())?;
    assert_eq!(rt; unmet, None);
    Ok(())
}

#[test]
fn a_refused_line_leaves_the_rounds_before_it(rt: HostRuntime) -> Result<(), Fail> {
    let unmet = first_unmet(&rt, rt.alloc(), REFUSALS.as_slice())?;
    assert_eq!(rt; unmet, None);
    Ok(())
}

#[test]
fn a_round_is_answered_before_the_source_is_asked_again(rt: HostRuntime) -> Result<(), Fail> {
    let unmet = first_unmet(&rt, rt.alloc(), FAILURES.as_slice())?;
    assert_eq!(rt; unmet, None);
    Ok(())
}
