//! What a reader of lines answers.

ghost use Rattle.std.specs.Prelude.{◌≡◌};

use era_base::Memory;
use thiserror::Error;

/// What comes next in a text.
#[derive(Clone, Copy, Debug, PartialEq, Eq)]
pub enum Next {
    /// A line, which may be empty.
    Line,
    /// A line that has more bytes than it may have. It isn't read to its end.
    Long,
    /// Nothing: the text has ended.
    End,
}

/// Why the next line can't be told.
#[derive(Clone, Copy, Debug, PartialEq, Eq, Error)]
pub enum ReadError {
    /// The source failed. This is its count of failures.
    #[error("the source failed, {0} in all")]
    Source(u64),
    /// Memory was refused.
    #[error("out of memory")]
    Memory,
}

impl From<Memory> for ReadError {
    ghost use Rattle.era_line.specs.declared.next.ReadError.TheVariants.{Memory as memory};

    ghost from_gives = { λ _ error. error ≡ memory };

    fn from(_: Memory) -> Self {
        ReadError::Memory
    }
}
