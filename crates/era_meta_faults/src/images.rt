//! What a look finds on a disk.

use era_base::Disk;
use era_meta::{LiveMarks, Meta, MetaError};
use std::alloc::Global;

/// What is told of the blocks 0, 1, 3 and 1,500, of which those past the origin's end count as never marked.
pub type Eras = [u32; 4];

/// The metadata of a disk: the present era, the number of the last commit, how many sets are archived, the last marked
/// eras, the entries of the era array, and the last marked eras of the snapshot, if one is held.
#[derive(Clone, Copy, Debug, PartialEq, Eq)]
pub struct Found {
    pub era: u32,
    pub sequence: u64,
    pub sets: usize,
    pub last: Eras,
    pub entries: Eras,
    pub snapshot: Option<Eras>,
}

/// What a look finds, or why it is refused.
#[derive(Clone, Copy, Debug, PartialEq, Eq)]
pub enum Seen {
    Found(Found),
    Refused(MetaError),
}

/// No gate is open.
pub const BLANK: Seen = Seen::Refused(MetaError::Unformatted);

/// The era in which a block was last marked.
fn last_of(marks: &LiveMarks, block: u32) -> u32 {
    if block < marks.blocks() {
        marks.last_era(block)
    } else {
        0
    }
}

/// The last marked eras.
fn lasts_of(marks: &LiveMarks) -> Eras {
    [
        last_of(marks, 0),
        last_of(marks, 1),
        last_of(marks, 3),
        last_of(marks, 1_500),
    ]
}

/// The entry of a block in the era array.
fn entry_of(marks: &LiveMarks, block: usize) -> u32 {
    match marks.array().as_slice().get(block) {
        Some(era) => *era,
        None => 0,
    }
}

/// The entries of the era array.
fn entries_of(marks: &LiveMarks) -> Eras {
    [
        entry_of(marks, 0),
        entry_of(marks, 1),
        entry_of(marks, 3),
        entry_of(marks, 1_500),
    ]
}

/// The last marked eras of the snapshot, if one is held.
fn snapshot_of<D: Disk>(meta: &Meta<D>) -> Option<Eras> {
    if meta.held() {
        Some(lasts_of(&meta.snapshot.marks))
    } else {
        None
    }
}

/// What the metadata tells.
fn told<D: Disk>(meta: &Meta<D>) -> Found {
    Found {
        era: meta.era(),
        sequence: meta.sequence(),
        sets: meta.marks.archive().len(),
        last: lasts_of(&meta.marks),
        entries: entries_of(&meta.marks),
        snapshot: snapshot_of(meta),
    }
}

/// What a look finds on a disk.
pub fn look<D: Disk + Drop>(alloc: Global, disk: D) -> Seen {
    match Meta::look(alloc, disk) {
        Ok(meta) => Seen::Found(told(&meta)),
        Err(refusal) => Seen::Refused(refusal.error),
    }
}
