//! Why a line of a dump text isn't taken.

ghost use Rattle.std.specs.Prelude.{◌≡◌};

use crate::dump_kind::DumpKind;
use era_base::Memory;

/// Why a line isn't taken.
#[derive(Clone, Copy, Debug, PartialEq, Eq)]
pub enum LineFault {
    /// It is refused.
    Refused(DumpKind),
    /// Memory was refused.
    NoMemory,
}

impl From<Memory> for LineFault {
    ghost use Rattle.era_text.specs.declared.line_fault.LineFault.TheVariants.{NoMemory};

    ghost from_gives = { λ _ error. error ≡ NoMemory };

    fn from(_: Memory) -> Self {
        LineFault::NoMemory
    }
}
