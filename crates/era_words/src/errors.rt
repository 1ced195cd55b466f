//! Why no command was read.

ghost use Rattle.std.specs.Prelude.{◌≡◌};

use era_base::Memory;
use thiserror::Error;

/// Why no command was read.
#[derive(Clone, Copy, Debug, PartialEq, Eq, Error)]
pub enum WordsError {
    /// The words are no command.
    #[error("the words are no command")]
    Usage,
    /// Memory was refused.
    #[error("out of memory")]
    Memory,
}

impl From<Memory> for WordsError {
    ghost use Rattle.era_words.specs.declared.errors.WordsError.TheVariants.{Memory as memory};

    ghost from_gives = { λ _ error. error ≡ memory };

    fn from(_: Memory) -> Self {
        WordsError::Memory
    }
}
