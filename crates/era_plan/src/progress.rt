//! What a line comes to.

/// What reading the next line has come to.
#[derive(Clone, Copy, Debug, PartialEq, Eq)]
pub enum Progress {
    /// The round goes on behind it.
    Goes,
    /// It has ended the round.
    Ends,
    /// There was none: the input has ended.
    Over,
}
