//! One call of a disk in memory, as its record has it.

/// A call that was made, the sectors of 512 bytes that it was of, and whether it answered Ok.
#[derive(Clone, Copy, Debug, PartialEq, Eq)]
pub enum MadeCall {
    Read {
        first: u64,
        sectors: u64,
        answered: bool,
    },
    Write {
        first: u64,
        sectors: u64,
        answered: bool,
    },
    Sync {
        answered: bool,
    },
}
