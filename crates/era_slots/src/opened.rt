//! What an opening answers.

use crate::slots::Slots;
use era_base::Bytes;

/// An opened disk.
#[derive(Drop)]
pub enum Opened<D> {
    /// Neither gate is open: the disk holds no body.
    Blank(Slots<D>),
    /// The body of the greater commit number, in the slot `active` (0 or 1), and the body under the other gate, if
    /// that is open too. Each is 3,576 bytes.
    Whole {
        slots: Slots<D>,
        active: u32,
        body: Bytes,
        other: Option<Bytes>,
        sequence: u64,
    },
}

/// Why slots weren't opened or wiped.
#[derive(Clone, Copy, Debug, PartialEq, Eq)]
pub enum SlotError {
    /// The sync, a read or a write failed. It has the disk's count of faults, which rose.
    Fault(u64),
    /// The slot of this number is open, and its commit number is 0 or at least 2^63. It is the first such slot.
    BadSequence(u32),
    /// Both slots are open with one commit number.
    SequenceTie,
    /// Memory for the bodies was refused.
    Memory,
}

/// A refusal, with the disk.
#[derive(Drop)]
pub struct SlotRefusal<D> {
    pub error: SlotError,
    pub disk: D,
}
