//! Why words are refused.

/// Why words are refused.
#[derive(Clone, Copy, Debug, PartialEq, Eq)]
pub enum WordsRefusal {
    /// The words are no command.
    NoCommand,
    /// The words are a command that isn't served yet.
    NotYet,
    /// Memory was refused.
    NoRoom,
}
