//! Devices that fail.

use crate::row::Answer::Whole;
use crate::row::Fails::{self, Disk};
use crate::row::Sent::{Text, Write};
use crate::row::{Row, SERVE};
use crate::run::{first_unmet, run_over};
use era_base::Bay;
use era_disks::{BayCall, DiskCall, MemBay, TextSink, TextSource};
use std::alloc::Global;
use std::test::Fail;

/// Two writes in two eras, and a list, of which all succeed.
const SERVED: Row<'static> = Row {
    shows: "a session without a fault",
    words: SERVE,
    origin: 512,
    fails: &[],
    stream: &[
        Write("0", "aa", 1),
        Text("0 checkpoint\n"),
        Write("8", "bb", 1),
        Text("0 list 1\n"),
    ],
    answer: Whole(
        "open 1 64\n\
         1 ok t0 m1 g2 d3\n\
         2 era 2 e4\n\
         3 ok t5 m6 g7 d8\n\
         4 blocks 0-1 l9\n\
         end 2 10\n",
    ),
    status: 0,
    holds: &[
        (0, 512, 170),
        (512, 4_096, 0),
        (4_096, 4_608, 187),
        (4_608, 262_144, 0),
    ],
};

/// What the same stream is answered where its first write fails.
const FIRST: &str = "open 1 64\n1 fault data 1 t0 m1 g2 c3\nend 1 4\n";

/// What it is answered where its second write fails.
const SECOND: &str =
    "open 1 64\n1 ok t0 m1 g2 d3\n2 era 2 e4\n3 fault data 1 t5 m6 g7 c8\nend 2 9\n";

static DISKS: [Row<'static>; 8] = [
    Row { ..SERVED },
    Row {
        shows: "the first write",
        fails: &[Disk(DiskCall::Write, 0)],
        answer: Whole(FIRST),
        status: 4,
        holds: &[(0, 262_144, 0)],
        ..SERVED
    },
    Row {
        shows: "nothing is run behind a cut write",
        fails: &[Disk(DiskCall::Write, 1)],
        answer: Whole(SECOND),
        status: 4,
        holds: &[(0, 512, 170), (512, 262_144, 0)],
        ..SERVED
    },
    Row {
        shows: "the first sync, behind a write that is kept",
        fails: &[Disk(DiskCall::Sync, 0)],
        answer: Whole(FIRST),
        status: 4,
        holds: &[(0, 512, 170), (512, 262_144, 0)],
        ..SERVED
    },
    Row {
        shows: "the second sync",
        fails: &[Disk(DiskCall::Sync, 1)],
        answer: Whole(SECOND),
        status: 4,
        ..SERVED
    },
    Row {
        shows: "calls that are not made",
        fails: &[
            Disk(DiskCall::Sync, 2),
            Disk(DiskCall::Write, 2),
            Disk(DiskCall::Read, 0),
        ],
        ..SERVED
    },
    Row {
        shows: "a second write to a block",
        fails: &[Disk(DiskCall::Write, 1)],
        stream: &[
            Write("0", "aa", 1),
            Write("1", "bb", 1),
            Write("2", "cc", 1),
        ],
        answer: Whole("open 1 64\n1 ok t0 m1 g2 d3\n2 fault data 1 g4 c5\nend 1 6\n"),
        status: 4,
        holds: &[(0, 512, 170), (512, 262_144, 0)],
        ..SERVED
    },
    Row {
        shows: "an origin that the bay lacks",
        words: &["serve", "0 512 era meta nothing 8"],
        answer: Whole("fault bay 1\n"),
        status: 4,
        holds: &[(0, 262_144, 0)],
        ..SERVED
    },
];

/// An empty session that a call of the bay ends.
const UNOPENED: Row<'static> = Row {
    shows: "a call of the bay",
    stream: &[],
    answer: Whole("fault bay 1\n"),
    status: 4,
    holds: &[(0, 262_144, 0)],
    ..SERVED
};

static BAYS: [Row<'static>; 3] = [
    Row {
        shows: "the size of the origin",
        fails: &[Fails::Bay(BayCall::Size, 0)],
        ..UNOPENED
    },
    Row {
        shows: "its opening",
        fails: &[Fails::Bay(BayCall::OpenPart, 0)],
        ..UNOPENED
    },
    Row {
        shows: "calls that are not made",
        fails: &[
            Fails::Bay(BayCall::Size, 1),
            Fails::Bay(BayCall::OpenPart, 1),
            Fails::Bay(BayCall::OpenMeta, 0),
        ],
        answer: Whole("open 1 64\nend 1 0\n"),
        status: 0,
        ..UNOPENED
    },
];

#[test]
fn a_fault_ends_the_session(rt: HostRuntime) -> Result<(), Fail> {
    let unmet = first_unmet(&rt, rt.alloc(), DISKS.as_slice())?;
    assert_eq!(rt; unmet, None);
    Ok(())
}

#[test]
fn a_bay_that_refuses_the_origin_is_a_fault(rt: HostRuntime) -> Result<(), Fail> {
    let unmet = first_unmet(&rt, rt.alloc(), BAYS.as_slice())?;
    assert_eq!(rt; unmet, None);
    Ok(())
}

/// A bay that has lent the last sector of its origin of 512 sectors.
fn lent_bay(alloc: Global) -> Result<MemBay, Fail> {
    let mut bay = MemBay::new(alloc);
    bay.add("origin", 512)?;
    let size = bay.size("origin")?;
    if size == 512 {
        let _last = bay.open_part("origin", 511, 1)?;
    }
    Ok(bay)
}

#[test]
fn an_origin_that_is_lent_already_is_a_fault(rt: HostRuntime) -> Result<(), Fail> {
    let alloc = rt.alloc();
    let fault: &[u8] = b"fault bay 1\n";
    let served: &[u8] = b"open 1 64\nend 1 0\n";
    let whole = "0 512 era meta origin 8";
    for (table, expected, status) in [(whole, fault, 4), ("0 511 era meta origin 8", served, 0)] {
        let source = TextSource::new(alloc, b"")?;
        let sink = TextSink::new(alloc);
        let bay = lent_bay(alloc)?;
        let ran = run_over(&rt, alloc, &["serve", table], source, sink, bay)?;
        assert_eq!(rt; ran.text.as_slice(), expected);
        assert_eq!(rt; ran.status, status);
    }
    Ok(())
}
