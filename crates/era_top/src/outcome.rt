//! How one command of the stream went.

use era_base::Runs;

/// How one command of the stream went.
#[derive(Debug, Drop)]
pub enum Outcome {
    /// The sectors of the write lie in no one block of the origin.
    OutOfRange,
    /// The write is on the disk. `marks` tells whether it was the first one to its block in the era, which marks it.
    Done { marks: bool },
    /// The origin failed at the write, and this is its count of faults.
    Cut { marks: bool, faults: u64 },
    /// The checkpoint moved the session to this era.
    Moved { era: u32 },
    /// The era is the last one, and the checkpoint left it.
    LastEra,
    /// The list names these blocks.
    Listed { blocks: Runs },
    /// Memory for the list was refused.
    NoMemory,
}
