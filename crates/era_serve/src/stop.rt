//! How serving the rounds of a source ended.

use era_plan::LineError;

/// Why no more rounds were served.
#[derive(Clone, Copy, Debug, PartialEq, Eq)]
pub enum Stop {
    /// The stream was read to its end.
    Read,
    /// A line was refused, or stands for a command of another lane than the first one's. Of its round nothing was run.
    Line(LineError),
    /// The source failed. This is its count of failures.
    Source(u64),
    /// Memory for a round was refused, and nothing of it was run.
    Memory,
    /// The sink failed at the replies of the last round. All of its commands were run.
    Sink,
}

/// How it ended, and what the commands were answered.
#[derive(Clone, Copy, Debug, PartialEq, Eq)]
pub struct Stopped {
    pub stop: Stop,
    /// Whether a command was answered that a device failed.
    pub some_fault: bool,
    /// Whether a command was answered that memory was refused.
    pub some_memory: bool,
}
