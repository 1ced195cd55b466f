//! Lines that are refused, each by its kind. Nothing of their round is run then.

use crate::row::Answer::Whole;
use crate::row::Sent::{Bytes, Digits, Text, Write};
use crate::row::{Row, SERVE};
use crate::run::first_unmet;
use std::test::Fail;

/// A good write and then a line that is refused, so that nothing is written.
const REFUSED: Row<'static> = Row {
    shows: "a line that is not served yet",
    words: SERVE,
    origin: 512,
    fails: &[],
    stream: &[Write("0", "aa", 1), Text("0 status\n")],
    answer: Whole("open 1 64\nline 2 NotYet\nend 1 0\n"),
    status: 3,
    holds: &[(0, 262_144, 0)],
};

/// The same where the line has no form, a number that is none, bytes that are none, or too many bytes.
const UNKNOWN: Row<'static> = Row {
    shows: "a line of no form",
    answer: Whole("open 1 64\nline 2 Unknown\nend 1 0\n"),
    ..REFUSED
};

const BAD_NUMBER: Row<'static> = Row {
    shows: "a number that is none",
    answer: Whole("open 1 64\nline 2 BadNumber\nend 1 0\n"),
    ..REFUSED
};

const BAD_HEX: Row<'static> = Row {
    shows: "bytes that are none",
    answer: Whole("open 1 64\nline 2 BadHex\nend 1 0\n"),
    ..REFUSED
};

const LONG_LINE: Row<'static> = Row {
    shows: "a line that is too long",
    answer: Whole("open 1 64\nline 2 LongLine\nend 1 0\n"),
    ..REFUSED
};

static ASKS: [Row<'static>; 12] = [
    Row {
        stream: &[Text("0 status\n")],
        answer: Whole("open 1 64\nline 1 NotYet\nend 1 0\n"),
        ..REFUSED
    },
    Row {
        stream: &[Write("0", "aa", 1), Text("0 status\n")],
        ..REFUSED
    },
    Row {
        stream: &[Write("0", "aa", 1), Text("\n")],
        ..UNKNOWN
    },
    Row {
        stream: &[Write("0", "aa", 1), Text("0 checkpoint 1\n")],
        ..UNKNOWN
    },
    Row {
        stream: &[Write("0", "aa", 1), Text("0 checkpoint \n")],
        ..UNKNOWN
    },
    Row {
        stream: &[Write("0", "aa", 1), Text("1 checkpoint\n")],
        ..REFUSED
    },
    Row {
        stream: &[Write("0", "aa", 1), Text("0 list\n")],
        ..UNKNOWN
    },
    Row {
        stream: &[Write("0", "aa", 1), Text("0 list \n")],
        ..BAD_NUMBER
    },
    Row {
        stream: &[Write("0", "aa", 1), Text("0 list 01\n")],
        ..BAD_NUMBER
    },
    Row {
        stream: &[Write("0", "aa", 1), Text("0 list 4294967296\n")],
        ..BAD_NUMBER
    },
    Row {
        stream: &[Write("0", "aa", 1), Text("0 list 1 2\n")],
        ..UNKNOWN
    },
    Row {
        stream: &[Write("0", "aa", 1), Text("0 list_snap 1\n")],
        ..REFUSED
    },
];

static SHORT_WRITES: [Row<'static>; 10] = [
    Row {
        stream: &[Write("0", "aa", 1), Text("0 write\n")],
        ..UNKNOWN
    },
    Row {
        stream: &[Write("0", "aa", 1), Text("0 write 0\n")],
        ..UNKNOWN
    },
    Row {
        stream: &[Write("0", "aa", 1), Text("0 write 0 \n")],
        ..BAD_HEX
    },
    Row {
        stream: &[Write("0", "aa", 1), Text("0 write 0 a\n")],
        ..BAD_HEX
    },
    Row {
        stream: &[Write("0", "aa", 1), Text("0 write 0 aa\n")],
        ..BAD_HEX
    },
    Row {
        stream: &[Write("0", "aa", 1), Text("0 write 0 zz\n")],
        ..BAD_HEX
    },
    Row {
        stream: &[Write("0", "aa", 1), Text("0 write 18446744073709551616 aa")],
        ..BAD_NUMBER
    },
    Row {
        stream: &[Write("0", "aa", 1), Text("0  write 0 aa\n")],
        ..UNKNOWN
    },
    Row {
        stream: &[Write("0", "aa", 1), Text("0 write 0 aa\r\n")],
        ..BAD_HEX
    },
    Row {
        stream: &[Write("0", "aa", 1), Bytes(b"\xff\xfe\x00\n")],
        ..UNKNOWN
    },
];

static LONG_WRITES: [Row<'static>; 7] = [
    Row {
        stream: &[
            Write("0", "aa", 1),
            Text("1 write 0 "),
            Digits("aa", 1),
            Text("\n"),
        ],
        ..REFUSED
    },
    Row {
        stream: &[
            Write("0", "aa", 1),
            Text("0 write 00 "),
            Digits("aa", 1),
            Text("\n"),
        ],
        ..BAD_NUMBER
    },
    Row {
        stream: &[
            Write("0", "aa", 1),
            Text("0 write +1 "),
            Digits("aa", 1),
            Text("\n"),
        ],
        ..BAD_NUMBER
    },
    Row {
        stream: &[
            Write("0", "aa", 1),
            Text("0 write 0 "),
            Digits("aa", 1),
            Text("aa\n"),
        ],
        ..BAD_HEX
    },
    Row {
        stream: &[
            Write("0", "aa", 1),
            Text("0 write 0 "),
            Digits("aa", 1),
            Text(" \n"),
        ],
        ..UNKNOWN
    },
    Row {
        stream: &[Write("0", "aa", 1), Text("0 write 0 "), Digits("aa", 129)],
        ..LONG_LINE
    },
    Row {
        stream: &[
            Write("0", "aa", 1),
            Text("0 write 0 "),
            Digits("aa", 300),
            Text("\n0 write 0 aa\n"),
        ],
        ..LONG_LINE
    },
];

#[test]
fn asks_that_are_not_served_are_refused(rt: HostRuntime) -> Result<(), Fail> {
    let unmet = first_unmet(&rt, rt.alloc(), ASKS.as_slice())?;
    assert_eq!(rt; unmet, None);
    Ok(())
}

#[test]
fn writes_of_no_sectors_are_refused(rt: HostRuntime) -> Result<(), Fail> {
    let unmet = first_unmet(&rt, rt.alloc(), SHORT_WRITES.as_slice())?;
    assert_eq!(rt; unmet, None);
    Ok(())
}

#[test]
fn odd_and_overlong_writes_are_refused(rt: HostRuntime) -> Result<(), Fail> {
    let unmet = first_unmet(&rt, rt.alloc(), LONG_WRITES.as_slice())?;
    assert_eq!(rt; unmet, None);
    Ok(())
}
