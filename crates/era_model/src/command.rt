//! Commands of a stream.

use era_base::{Bytes, CmdId};

/// What a command asks of the metadata.
#[derive(Clone, Copy, Debug, PartialEq, Eq)]
pub enum Request {
    /// Moves to the next era.
    Checkpoint,
    /// Holds a snapshot of the metadata.
    TakeSnap,
    /// Drops the snapshot.
    DropSnap,
    /// Transcribes a page of the oldest archived set, or drops the set.
    Digest,
    /// Tells the usage of the metadata disk, the era, and the block of the snapshot.
    Status,
    /// Lists the blocks that were written since an era, by the marks or by the snapshot. Era 0 means the same as 1.
    List { since: u32, snap: bool },
}

/// What a command does.
#[derive(Debug, Drop)]
pub enum Task {
    /// Writes whole sectors of 512 bytes, from this one on.
    Write { sector: u64, bytes: Bytes },
    /// Reads so many sectors from this one on.
    Read { sector: u64, count: u32 },
    /// Asks something of the metadata.
    Ask(Request),
}

/// A command of a stream: the number of its line, counted from 1, its name and what it does.
#[derive(Debug, Drop)]
pub struct Command {
    pub line: u32,
    pub id: CmdId,
    pub task: Task,
}
