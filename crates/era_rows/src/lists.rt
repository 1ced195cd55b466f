//! Streams of writes, checkpoints and lists, and their answers.

use crate::row::Answer::Whole;
use crate::row::Sent::{Many, Text, Write};
use crate::row::{Row, SERVE};
use crate::run::first_unmet;
use std::test::Fail;

static LISTS: [Row<'static>; 4] = [
    Row {
        shows: "a list names the blocks since its era",
        words: SERVE,
        origin: 512,
        fails: &[],
        stream: &[Write("0", "aa", 1), Text("0 list 1\n0 list 2\n0 list 0\n")],
        answer: Whole(
            "open 1 64\n\
             1 ok t0 m1 g2 d3\n\
             2 blocks 0 l4\n\
             3 blocks - l5\n\
             4 blocks 0 l6\n\
             end 1 7\n",
        ),
        status: 0,
        holds: &[(0, 512, 170)],
    },
    Row {
        shows: "a list names a short last block",
        words: &["serve", "0 508 era meta origin 8"],
        origin: 512,
        fails: &[],
        stream: &[
            Write("507", "aa", 1),
            Write("508", "aa", 1),
            Write("504", "bb", 4),
            Text("0 list 1\n"),
        ],
        answer: Whole(
            "open 1 64\n\
             1 ok t0 m1 g2 d3\n\
             2 range\n\
             3 ok g4 d5\n\
             4 blocks 63 l6\n\
             end 1 7\n",
        ),
        status: 0,
        holds: &[],
    },
    Row {
        shows: "a checkpoint parts what was written",
        words: SERVE,
        origin: 512,
        fails: &[],
        stream: &[
            Write("0", "aa", 1),
            Text("0 checkpoint\n"),
            Write("8", "bb", 1),
            Text("0 list 1\n0 list 2"),
        ],
        answer: Whole(
            "open 1 64\n\
             1 ok t0 m1 g2 d3\n\
             2 era 2 e4\n\
             3 ok t5 m6 g7 d8\n\
             4 blocks 0-1 l9\n\
             5 blocks 1 l10\n\
             end 2 11\n",
        ),
        status: 0,
        holds: &[(0, 512, 170), (4_096, 4_608, 187)],
    },
    Row {
        shows: "a session may have no write",
        words: SERVE,
        origin: 512,
        fails: &[],
        stream: &[
            Text("0 list 4294967295\n"),
            Many("0 checkpoint\n", 2),
            Text("0 list 0\n"),
        ],
        answer: Whole(
            "open 1 64\n\
             1 blocks - l0\n\
             2 era 2 e1\n\
             3 era 3 e2\n\
             4 blocks - l3\n\
             end 3 4\n",
        ),
        status: 0,
        holds: &[],
    },
];

#[test]
fn lists_are_answered(rt: HostRuntime) -> Result<(), Fail> {
    let unmet = first_unmet(&rt, rt.alloc(), LISTS.as_slice())?;
    assert_eq!(rt; unmet, None);
    Ok(())
}
