//! What a session keeps from one round to the next.

use era_marks::SessionMarks;

/// A session between two rounds.
#[derive(Debug, Drop)]
pub struct Progress {
    pub marks: SessionMarks,
    /// The place of the next event, which is the number of events so far.
    pub place: u64,
    /// Whether memory for a list was refused.
    pub lacked: bool,
}
