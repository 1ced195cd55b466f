//! Numbers as they are spelled in words and lines.

ghost use Rattle.std.specs.Prelude.{◌≡◌, ◌≢◌, ℕ, ◌<◌, ◌^◌, decimal, IfSome, IfNone};

use itoa::Buffer;
use std::str;

/// The number below 2^64 of which a text is the decimal: digits alone, without leading zeros.
pub fn read_decimal(text: &[u8]) -> Option<u64>
    ensures some { IfSome result (λ value. text.now ≡ decimal value) }
    ensures none { IfNone result ((value : ℕ) → value < 2 ^ 64 → text.now ≢ decimal value) }
{
    let Ok(text) = str::from_utf8(text) else {
        return None;
    };
    let Ok(number) = text.parse::<u64>() else {
        return None;
    };
    if Buffer::new().format(number) == text {
        Some(number)
    } else {
        None
    }
}

/// The number below 2^32 of which a text is the decimal, as an era or a block.
pub fn read_u32(text: &[u8]) -> Option<u32>
    ensures some { IfSome result (λ value. text.now ≡ decimal value) }
    ensures none { IfNone result ((value : ℕ) → value < 2 ^ 32 → text.now ≢ decimal value) }
{
    u32::try_from(read_decimal(text)?).ok()
}
