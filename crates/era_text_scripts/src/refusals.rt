//! Lines that are refused, each for the first kind that applies to it.

use crate::fronts::{ARRAY, CURRENT, ENDED, HEAD, SET, SIXTEEN};
use crate::texts::{first_unmet, is_refused, text_of};
use era_text::DumpKind;
use era_text::DumpKind::{
    BadEra, BadGeometry, BadNumber, LongLine, Order, PastEnd, TooManySets, Trailing, Truncated,
    Unknown,
};
use std::test::*;

/// First lines.
static HEADS: [(&str, DumpKind); 13] = [
    ("", Unknown),
    ("eradump 1 512 8", Unknown),
    ("eradump 1 512 8 2 ", Unknown),
    ("eradump 2 x 9 0", Unknown),
    ("Eradump 1 512 9 0", Unknown),
    ("eradump 1 x 9 0", BadNumber),
    ("eradump 1 18446744073709551616 8 1", BadNumber),
    ("eradump 1 512 08 1", BadNumber),
    ("eradump 1 512 9 4294967296", BadNumber),
    ("eradump 1 512 9 0", BadGeometry),
    ("eradump 1 0 8 0", BadGeometry),
    ("eradump 1 524289 8 1", BadGeometry),
    ("eradump 1 512 8 0", BadEra),
];

/// Second lines.
static SECONDS: [(&str, DumpKind); 4] = [
    ("arrays", Unknown),
    ("array ", Unknown),
    ("current", Unknown),
    ("2 64 5", Unknown),
];

/// Lines behind a run of the array.
static ENTRIES: [(&str, DumpKind); 22] = [
    ("end", Unknown),
    ("0 64", Unknown),
    ("3 2 1 1", Unknown),
    ("x 64 9", BadNumber),
    ("3 2 07", BadNumber),
    ("set x", BadNumber),
    ("set 4294967296", BadNumber),
    ("set 0 0", BadNumber),
    ("9 64 4", PastEnd),
    ("65 64 4", PastEnd),
    ("2 64 5", PastEnd),
    ("5 4 1", Order),
    ("0 5 1", Order),
    ("1 5 4", Order),
    ("2 5 3", Order),
    ("5 4 5", Order),
    ("1 1 0", Order),
    ("2 2 5", BadEra),
    ("4 4 0", BadEra),
    ("set 2", BadEra),
    ("set 5", BadEra),
    ("set 0", BadEra),
];

/// Lines behind a run of an archived set.
static RUNS: [(&str, DumpKind); 15] = [
    ("array", Unknown),
    ("end", Unknown),
    ("0 64 4", Unknown),
    ("x 64", BadNumber),
    ("3 02", BadNumber),
    ("set x", BadNumber),
    ("9 64", PastEnd),
    ("65 64", PastEnd),
    ("5 4", Order),
    ("1 5", Order),
    ("2 5", Order),
    ("set 3", Order),
    ("set 2", Order),
    ("set 0", Order),
    ("set 5", BadEra),
];

/// Lines behind a run of the current set.
static CURRENTS: [(&str, DumpKind); 6] = [
    ("current", Unknown),
    ("5 5 5", Unknown),
    ("set 4", BadNumber),
    ("0 64", PastEnd),
    ("1 1", Order),
    ("2 3", Order),
];

/// Lines behind sixteen archived sets.
static SEVENTEENTHS: [(&str, DumpKind); 5] = [
    ("set 17 17", Unknown),
    ("set x", BadNumber),
    ("set 16", Order),
    ("set 99", BadEra),
    ("set 17", TooManySets),
];

/// Lines behind the last one.
static TRAILING: [(&str, DumpKind); 5] = [
    ("", Trailing),
    ("end", Trailing),
    ("x", Trailing),
    ("65 64", Trailing),
    ("set 0", Trailing),
];

/// Fronts, lines that have too many bytes with zeros behind them, and their numbers.
static LONG: [(&str, &str, u32); 7] = [
    ("", "eradump 2 x 9 ", 1),
    ("", "eradump 1 512 9 0", 1),
    (HEAD, "array", 2),
    (ARRAY, "65 64 5", 4),
    (SET, "3 2", 6),
    (SIXTEEN, "set 0", 19),
    (ENDED, "x", 5),
];

/// Texts that end too early, and the numbers of the lines that they lack.
static SHORT: [(&str, u32); 6] = [
    ("", 1),
    (HEAD, 2),
    (ARRAY, 4),
    (SET, 6),
    (CURRENT, 5),
    (SIXTEEN, 19),
];

#[test]
fn first_lines_are_refused(rt: HostRuntime) -> Result<(), Fail> {
    assert_eq!(rt; first_unmet(rt.alloc(), "", 1, &HEADS)?, None);
    assert_eq!(rt; first_unmet(rt.alloc(), HEAD, 2, &SECONDS)?, None);
    Ok(())
}

#[test]
fn lines_of_the_array_are_refused(rt: HostRuntime) -> Result<(), Fail> {
    assert_eq!(rt; first_unmet(rt.alloc(), ARRAY, 4, &ENTRIES)?, None);
    Ok(())
}

#[test]
fn lines_of_sets_are_refused(rt: HostRuntime) -> Result<(), Fail> {
    assert_eq!(rt; first_unmet(rt.alloc(), SET, 6, &RUNS)?, None);
    assert_eq!(rt; first_unmet(rt.alloc(), CURRENT, 5, &CURRENTS)?, None);
    assert_eq!(rt; first_unmet(rt.alloc(), SIXTEEN, 19, &SEVENTEENTHS)?, None);
    assert_eq!(rt; first_unmet(rt.alloc(), ENDED, 5, &TRAILING)?, None);
    Ok(())
}

#[test]
fn long_lines_and_short_texts_are_refused(rt: HostRuntime) -> Result<(), Fail> {
    for (front, line, number) in &LONG {
        let text = text_of(rt.alloc(), front, line, 129)?;
        assert!(rt;
            is_refused(rt.alloc(), text.as_slice(), *number, LongLine)?,
            "at {line}"
        );
    }
    for (text, number) in &SHORT {
        assert!(rt;
            is_refused(rt.alloc(), text.as_bytes(), *number, Truncated)?,
            "at {text}"
        );
    }
    Ok(())
}
