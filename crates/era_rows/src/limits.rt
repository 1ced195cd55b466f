//! Each limit is served, and what is one past it refused. Only tests tell that nothing gives up there, since want of
//! memory is free in each contract.

use crate::row::Answer::{Around, Whole};
use crate::row::Sent::{Many, Text, Write};
use crate::row::{Row, SERVE};
use crate::run::first_unmet;
use std::test::Fail;

/// The same origin in blocks of 128 sectors.
const WIDE: &[&str] = &["serve", "0 512 era meta origin 128"];

const LIMIT: Row<'static> = Row {
    shows: "4,096 commands",
    words: SERVE,
    origin: 512,
    fails: &[],
    stream: &[Many("0 list 1\n", 4_096)],
    answer: Around(
        "open 1 64\n1 blocks - l0\n",
        "\n4096 blocks - l4095\nend 1 4096\n",
    ),
    status: 0,
    holds: &[(0, 262_144, 0)],
};

static LIMITS: [Row<'static>; 4] = [
    Row { ..LIMIT },
    Row {
        shows: "one command too many",
        stream: &[Many("0 list 1\n", 4_097)],
        answer: Whole("open 1 64\nline 4097 RoundBig\nend 1 0\n"),
        status: 3,
        ..LIMIT
    },
    Row {
        shows: "one command too many, of those that are not served yet",
        stream: &[Many("0 status\n", 4_097)],
        answer: Whole("open 1 64\nline 4097 RoundBig\nend 1 0\n"),
        status: 3,
        ..LIMIT
    },
    Row {
        shows: "the greatest payload of a line",
        words: WIDE,
        stream: &[Write("128", "aa", 128)],
        answer: Whole("open 1 4\n1 ok t0 m1 g2 d3\nend 1 4\n"),
        holds: &[
            (0, 65_536, 0),
            (65_536, 131_072, 170),
            (131_072, 262_144, 0),
        ],
        ..LIMIT
    },
];

static MOST_BLOCKS: [Row<'static>; 1] = [Row {
    shows: "65,536 blocks",
    words: &["serve", "0 524288 era meta origin 8"],
    origin: 524_288,
    stream: &[Write("524287", "aa", 1), Text("0 list 1\n")],
    answer: Whole("open 1 65536\n1 ok t0 m1 g2 d3\n2 blocks 65535 l4\nend 1 5\n"),
    holds: &[
        (268_430_848, 268_434_944, 0),
        (268_434_944, 268_435_456, 170),
    ],
    ..LIMIT
}];

#[test]
fn limits_are_served(rt: HostRuntime) -> Result<(), Fail> {
    let unmet = first_unmet(&rt, rt.alloc(), LIMITS.as_slice())?;
    assert_eq!(rt; unmet, None);
    Ok(())
}

#[test]
fn the_greatest_number_of_blocks_is_served(rt: HostRuntime) -> Result<(), Fail> {
    let unmet = first_unmet(&rt, rt.alloc(), MOST_BLOCKS.as_slice())?;
    assert_eq!(rt; unmet, None);
    Ok(())
}
