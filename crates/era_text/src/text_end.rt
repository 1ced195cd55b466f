//! Why a text wasn't written or read to its end.

ghost use Rattle.std.specs.Prelude.{◌≡◌};

use crate::dump_kind::DumpKind;
use era_base::Memory;
use thiserror::Error;

/// Why a text wasn't written or read to its end.
#[derive(Clone, Copy, Debug, PartialEq, Eq, Error)]
pub enum TextEnd {
    /// A line was refused. Its number is counted from 1. Nothing behind it was needed.
    #[error("line {line} is refused")]
    Line { line: u32, kind: DumpKind },
    /// The source failed. This is its count of failures.
    #[error("the source failed, {0} in all")]
    Source(u64),
    /// The sink failed. This is its count of failures.
    #[error("the sink failed, {0} in all")]
    Sink(u64),
    /// Memory was refused.
    #[error("out of memory")]
    Memory,
}

impl From<Memory> for TextEnd {
    ghost use Rattle.era_text.specs.declared.text_end.TextEnd.TheVariants.{Memory as memory};

    ghost from_gives = { λ _ error. error ≡ memory };

    fn from(_: Memory) -> Self {
        TextEnd::Memory
    }
}
