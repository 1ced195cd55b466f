//! What becomes of the bytes that were taken.

/// What moving the bytes that were taken into a line has come to.
#[derive(Clone, Copy)]
pub enum Moved {
    /// The line has ended.
    Ended,
    /// The line has more bytes than it may have.
    TooLong,
    /// All of them belong to the line, which hasn't ended with them.
    All,
}
