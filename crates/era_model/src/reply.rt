//! What a command is answered.

use era_base::{Bytes, Runs, Trail};

/// A device of the session.
#[derive(Clone, Copy, Debug, PartialEq, Eq)]
pub enum Device {
    /// The origin.
    Data,
    /// The metadata disk.
    Meta,
}

/// The answer to a command.
#[derive(Debug, Drop)]
pub enum Answer {
    /// The write is done, or the snapshot is dropped.
    Fine,
    /// The sectors lie in no one block.
    Range,
    /// The device failed; the count is its count of faults.
    Fault(Device, u64),
    /// The bytes that were read.
    Found(Bytes),
    /// The session moved to this era.
    EraIs(u32),
    /// The era stayed, since so many stripes were inside.
    Kept(u32),
    /// The era is the last one.
    End,
    /// A snapshot was taken, at this metadata block.
    Snap(u32),
    /// A snapshot is held already, at this metadata block.
    Held(u32),
    /// No snapshot is held.
    NoSnap,
    /// The era of the oldest archived set, and the page that was transcribed; none where the set was dropped.
    Digest(u32, Option<u32>),
    /// Nothing to digest.
    Idle,
    /// The used metadata blocks, all metadata blocks, the era, and the block of the snapshot.
    Status(u32, u64, u32, Option<u32>),
    /// The listed blocks.
    Blocks(Runs),
    /// Memory was refused.
    Memory,
}

/// An answer, with the events of its command.
#[derive(Debug, Drop)]
pub struct Reply {
    pub answer: Answer,
    pub trail: Trail,
}
