//! Streams of writes, and their answers.

use crate::row::Answer::Whole;
use crate::row::Sent::{Digits, Text, Write};
use crate::row::{Row, SERVE};
use crate::run::first_unmet;
use std::test::Fail;

static WRITES: [Row<'static>; 5] = [
    Row {
        shows: "an empty stream ends at once",
        words: SERVE,
        origin: 512,
        fails: &[],
        stream: &[],
        answer: Whole("open 1 64\nend 1 0\n"),
        status: 0,
        holds: &[(0, 262_144, 0)],
    },
    Row {
        shows: "a write over two blocks is out of range",
        words: SERVE,
        origin: 512,
        fails: &[],
        stream: &[Text("0 write 7 "), Digits("aa", 2)],
        answer: Whole("open 1 64\n1 range\nend 1 0\n"),
        status: 0,
        holds: &[(0, 262_144, 0)],
    },
    Row {
        shows: "only a first write marks its block",
        words: SERVE,
        origin: 600,
        fails: &[],
        stream: &[
            Write("0", "aa", 1),
            Write("1", "Bb", 1),
            Write("512", "cc", 1),
            Write("8", "dd", 8),
            Write("18446744073709551615", "ee", 1),
            Write("0", "0f", 1),
        ],
        answer: Whole(
            "open 1 64\n\
             1 ok t0 m1 g2 d3\n\
             2 ok g4 d5\n\
             3 range\n\
             4 ok t6 m7 g8 d9\n\
             5 range\n\
             6 ok g10 d11\n\
             end 1 12\n",
        ),
        status: 0,
        holds: &[
            (0, 512, 15),
            (512, 1_024, 187),
            (1_024, 4_096, 0),
            (4_096, 8_192, 221),
            (8_192, 307_200, 0),
        ],
    },
    Row {
        shows: "the last block may be short",
        words: &["serve", "0 508 era meta origin 8"],
        origin: 512,
        fails: &[],
        stream: &[
            Write("507", "aa", 1),
            Write("508", "aa", 1),
            Write("504", "bb", 4),
        ],
        answer: Whole("open 1 64\n1 ok t0 m1 g2 d3\n2 range\n3 ok g4 d5\nend 1 6\n"),
        status: 0,
        holds: &[(0, 258_048, 0), (258_048, 260_096, 187)],
    },
    Row {
        shows: "the last line needs no line feed",
        words: SERVE,
        origin: 512,
        fails: &[],
        stream: &[Text("0 write 8 "), Digits("5a", 8)],
        answer: Whole("open 1 64\n1 ok t0 m1 g2 d3\nend 1 4\n"),
        status: 0,
        holds: &[(0, 4_096, 0), (4_096, 8_192, 90), (8_192, 262_144, 0)],
    },
];

#[test]
fn writes_are_answered(rt: HostRuntime) -> Result<(), Fail> {
    let unmet = first_unmet(&rt, rt.alloc(), WRITES.as_slice())?;
    assert_eq!(rt; unmet, None);
    Ok(())
}
