//! Tables of small schedules that the machine refuses, or accepts whole, and what many of them begin with.

use crate::moves::Move::{Cut, Done, Enter, Go, Mark, Refused, Roll, Tried};
use crate::moves::{Move, steps_of};
use crate::small_sessions::core_in;
use era_core::{CoreStop, run};
use era_model::{Kind, Why};
use std::alloc::Global;
use std::test::Fail;

/// A rule, how a schedule begins, its further steps, of which one breaks the rule, and the index of that one over all.
pub type Row<'a> = (&'a str, &'a [Move], &'a [Move], usize);

/// What is accepted, how a schedule begins, and its further steps.
pub type Accepted<'a> = (&'a str, &'a [Move], &'a [Move]);

/// Block 0 is marked.
pub const MARKED: [Move; 2] = [Tried(0, 0, 1), Mark(0, 0, 1)];

/// A write of block 0 is open.
pub const OPEN: [Move; 4] = [Enter(0), Tried(0, 0, 1), Mark(0, 0, 1), Go(0, 0, 1)];

/// The same write is done.
pub const WRITTEN: [Move; 5] = [
    Enter(0),
    Tried(0, 0, 1),
    Mark(0, 0, 1),
    Go(0, 0, 1),
    Done(0),
];

/// The same write is cut, and the count of faults is 5.
pub const BROKEN: [Move; 5] = [
    Enter(0),
    Tried(0, 0, 1),
    Mark(0, 0, 1),
    Go(0, 0, 1),
    Cut(0, 5),
];

/// The era moved to 2, and the metadata disk failed then, with a count of 3.
pub const VOLATILE: [Move; 2] = [Roll(0, 2), Refused(0, Kind::Checkpoint, Why::MetaFault(3))];

/// Block 0 is marked, and seventeen switches of the era follow.
pub const SWITCHED: [Move; 19] = [
    Tried(0, 0, 1),
    Mark(0, 0, 1),
    Roll(1, 2),
    Roll(2, 3),
    Roll(3, 4),
    Roll(4, 5),
    Roll(5, 6),
    Roll(6, 7),
    Roll(7, 8),
    Roll(8, 9),
    Roll(9, 10),
    Roll(10, 11),
    Roll(11, 12),
    Roll(12, 13),
    Roll(13, 14),
    Roll(14, 15),
    Roll(15, 16),
    Roll(16, 17),
    Roll(17, 18),
];

/// Why the machine stops in these steps, from the era on, or `None`.
fn stop_of(
    alloc: Global,
    era: u32,
    front: &[Move],
    further: &[Move],
) -> Result<Option<CoreStop>, Fail> {
    let mut spelled = Vec::from_slice(alloc, front)?;
    spelled.extend_from_slice(further)?;
    let steps = steps_of(alloc, spelled.as_slice())?;
    Ok(run(alloc, core_in(alloc, era)?, steps.as_slice()).err())
}

/// The rule of the first row that the machine, from the era on, doesn't refuse at its index, or `None`.
pub fn first_unmet_in<'a>(
    alloc: Global,
    era: u32,
    rows: &[Row<'a>],
) -> Result<Option<&'a str>, Fail> {
    for row in rows {
        if stop_of(alloc, era, row.1, row.2)? != Some(CoreStop::NotEnabled(row.3)) {
            return Ok(Some(row.0));
        }
    }
    Ok(None)
}

/// The same from era 1 on.
pub fn first_unmet<'a>(alloc: Global, rows: &[Row<'a>]) -> Result<Option<&'a str>, Fail> {
    first_unmet_in(alloc, 1, rows)
}

/// What is accepted by the first row that the machine, from the era on, doesn't accept whole, or `None`.
pub fn first_refused_in<'a>(
    alloc: Global,
    era: u32,
    rows: &[Accepted<'a>],
) -> Result<Option<&'a str>, Fail> {
    for row in rows {
        if stop_of(alloc, era, row.1, row.2)?.is_some() {
            return Ok(Some(row.0));
        }
    }
    Ok(None)
}

/// The same from era 1 on.
pub fn first_refused<'a>(alloc: Global, rows: &[Accepted<'a>]) -> Result<Option<&'a str>, Fail> {
    first_refused_in(alloc, 1, rows)
}
