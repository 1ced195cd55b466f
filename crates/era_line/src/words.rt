//! The words of a line, and numbers at the beginning of a text. Nothing here takes memory.

ghost use Rattle.std.specs.Prelude.{◌≡◌, ◌<◌, ◌^◌, [], ◌∷◌, IfSome, IfNone};
ghost use Rattle.era_line.specs.Cuts.{IsCut};
ghost use Rattle.era_line.specs.Lines.{HasNo};
ghost use Rattle.era_line.specs.Numbers.{BeginsWith, BeginsWithNo};
ghost use Rattle.era_line.specs.Words.{words_of};

use crate::decimal::{read_decimal, read_u32};
use memchr::memchr;

/// What stands before the first byte of this kind, and what stands behind it. None where the text has no such byte.
pub fn cut_at(separator: u8, text: &[u8]) -> Option<(&[u8], &[u8])>
    ensures some { IfSome result (λ parts. IsCut separator text.now parts.0.now parts.1.now) }
    ensures none { IfNone result (HasNo separator text.now) }
{
    let at = memchr(separator, text)?;
    let (front, rest) = text.split_at(at);
    Some((front, rest.split_at(1).1))
}

/// The first word of a line that has more than one, and what stands behind its space.
pub fn split_word(line: &[u8]) -> Option<(&[u8], &[u8])>
    ensures some { IfSome result (λ parts.
        words_of line.now ≡ parts.0.now ∷ words_of parts.1.now) }
    ensures cut { IfSome result (λ parts. IsCut 32 line.now parts.0.now parts.1.now) }
    ensures none { IfNone result (words_of line.now ≡ line.now ∷ []) }
    ensures whole { IfNone result (HasNo 32 line.now) }
{
    cut_at(b' ', line)
}

/// The number below 2^64 that stands before the first byte of this kind, and what stands behind it.
pub fn split_number(separator: u8, text: &[u8]) -> Option<(u64, &[u8])>
    requires { separator < 48 }
    ensures some { IfSome result (λ next.
        BeginsWith (2 ^ 64) separator text.now next.0 next.1.now) }
    ensures none { IfNone result (BeginsWithNo (2 ^ 64) separator text.now) }
{
    let (first, rest) = cut_at(separator, text)?;
    Some((read_decimal(first)?, rest))
}

/// The number below 2^32 that stands before the first byte of this kind, and what stands behind it.
pub fn split_u32(separator: u8, text: &[u8]) -> Option<(u32, &[u8])>
    requires { separator < 48 }
    ensures some { IfSome result (λ next.
        BeginsWith (2 ^ 32) separator text.now next.0 next.1.now) }
    ensures none { IfNone result (BeginsWithNo (2 ^ 32) separator text.now) }
{
    let (first, rest) = cut_at(separator, text)?;
    Some((read_u32(first)?, rest))
}
