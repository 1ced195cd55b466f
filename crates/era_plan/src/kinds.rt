//! The words of the kinds of refused lines.

ghost use Rattle.std.specs.Prelude.{◌≡◌};
ghost use Rattle.era_plan.specs.Kinds.{kind_text as text_of_kind};

use crate::round::LineKind;

/// The word that tells why a line was refused.
pub fn kind_text(kind: LineKind) -> &'static str
    ensures { result.now ≡ text_of_kind kind }
{
    match kind {
        LineKind::LongLine => "LongLine",
        LineKind::Unknown => "Unknown",
        LineKind::BadNumber => "BadNumber",
        LineKind::BadHex => "BadHex",
        LineKind::RoundBig => "RoundBig",
        LineKind::TooMany => "TooMany",
        LineKind::NotYet => "NotYet",
    }
}
