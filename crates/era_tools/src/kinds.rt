//! The words of the kinds of damages, and of the kinds of refused lines of a dump.

ghost use Rattle.std.specs.Prelude.{◌≡◌};
ghost use Rattle.era_tools.specs.ToolLines.{damage_word, dump_kind_word};

use era_layout::DamageKind;
use era_text::DumpKind;

/// The word that tells a damage.
pub fn damage_text(kind: DamageKind) -> &'static str
    ensures { result.now ≡ damage_word kind }
{
    match kind {
        DamageKind::BadSequence => "BadSequence",
        DamageKind::SequenceTie => "SequenceTie",
        DamageKind::BadMagic => "BadMagic",
        DamageKind::BadVersion => "BadVersion",
        DamageKind::BadGeometry => "BadGeometry",
        DamageKind::BadEra => "BadEra",
        DamageKind::BadHeld => "BadHeld",
        DamageKind::ArchiveOrder => "ArchiveOrder",
        DamageKind::PageRange => "PageRange",
        DamageKind::PageTwice => "PageTwice",
        DamageKind::TailNotZero => "TailNotZero",
        DamageKind::EntryPastEnd => "EntryPastEnd",
        DamageKind::EraFuture => "EraFuture",
        DamageKind::BitPastEnd => "BitPastEnd",
        DamageKind::HeldGeometry => "HeldGeometry",
    }
}

/// The word that tells why a line of a dump is refused.
pub fn dump_kind_text(kind: DumpKind) -> &'static str
    ensures { result.now ≡ dump_kind_word kind }
{
    match kind {
        DumpKind::Truncated => "Truncated",
        DumpKind::LongLine => "LongLine",
        DumpKind::Unknown => "Unknown",
        DumpKind::BadNumber => "BadNumber",
        DumpKind::BadGeometry => "BadGeometry",
        DumpKind::PastEnd => "PastEnd",
        DumpKind::Order => "Order",
        DumpKind::BadEra => "BadEra",
        DumpKind::TooManySets => "TooManySets",
        DumpKind::Trailing => "Trailing",
    }
}
