//! A round of commands, and why a stream gives none.

ghost use Rattle.std.specs.Prelude.{◌≡◌};

use era_base::{Items, Memory};
use era_line::ReadError;
use era_model::Command;
use thiserror::Error;

/// Commands in the order of the input.
pub type CommandList = Items<Command>;

/// The commands that are run before the next round is read.
#[derive(Debug, Drop)]
pub struct Round {
    pub commands: CommandList,
}

/// Why a line is refused, in the order of the tests: a line has the first kind that applies to it.
#[derive(Clone, Copy, Debug, PartialEq, Eq)]
pub enum LineKind {
    /// It has more than 131,200 bytes.
    LongLine,
    /// The number of its words and its command word fit no form.
    Unknown,
    /// Its lane, sector, count or era isn't a decimal in its range.
    BadNumber,
    /// The last word of a write isn't hexadecimal digits of 1 to 128 whole sectors.
    BadHex,
    /// With its command the round would have more than 4,096 commands or 67,108,864 bytes.
    RoundBig,
    /// Its number is above 131,072, or with its command the session would have more than 65,536 commands or 268,435,456
    /// bytes.
    TooMany,
    /// The session doesn't serve its command yet.
    NotYet,
}

/// A refused line: its number, counted from 1, and why.
#[derive(Clone, Copy, Debug, PartialEq, Eq)]
pub struct LineError {
    pub line: u32,
    pub kind: LineKind,
}

/// Why no round was read.
#[derive(Clone, Copy, Debug, PartialEq, Eq, Error)]
pub enum PlanError {
    /// A line was refused. Nothing behind it was needed.
    #[error("line {} is refused", .0.line)]
    Line(LineError),
    /// The source failed. This is its count of failures.
    #[error("the source failed, {0} in all")]
    Source(u64),
    /// Memory was refused.
    #[error("out of memory")]
    Memory,
}

impl From<Memory> for PlanError {
    ghost use Rattle.era_plan.specs.declared.round.PlanError.TheVariants.{Memory as memory};

    ghost from_gives = { λ _ error. error ≡ memory };

    fn from(_: Memory) -> Self {
        PlanError::Memory
    }
}

impl From<ReadError> for PlanError {
    ghost use Rattle.era_plan.specs.Errors.{plan_error};

    ghost from_gives = { λ reason error. error ≡ plan_error reason };

    fn from(reason: ReadError) -> Self {
        match reason {
            ReadError::Source(count) => PlanError::Source(count),
            ReadError::Memory => PlanError::Memory,
        }
    }
}
