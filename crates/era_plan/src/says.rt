//! What a line of the stream says.

use crate::round::LineKind;
use era_model::Task;

/// What a line of the stream says by itself.
#[derive(Debug, Drop)]
pub enum Says {
    /// The round ends.
    Run,
    /// A command of a lane.
    Does { lane: u32, task: Task },
    /// Nothing: it is refused.
    Nothing(LineKind),
}
