//! Whether a read may give bytes.

ghost use Rattle.std.specs.Prelude.{◌≡◌, ◌↔◌, ◌+◌, ◌*◌, ◌<◌, ◌^◌, IsTrue, ℕ, false, length, slice_index, reverse};
ghost use Rattle.era_model.specs.Writes.{is_cut_at};

use crate::flights::is_byte_cut;
use era_model::FlightWrite;

/// Whether the bytes are those of the block's content from an offset on, but in ranges of cut writes.
pub fn reads_as(
    writes: &[FlightWrite],
    content: &[u8],
    block: u32,
    start: u64,
    bytes: &[u8],
) -> bool
    requires { start < 2 ^ 48 }
    ensures { IsTrue result
        ↔ ((offset : ℕ) → offset < length bytes.now
        → is_cut_at writes.now block (start + offset) ≡ false
        → slice_index bytes.now offset ≡ slice_index content.now (start + offset)) }
{
    for (offset, byte) in bytes.iter().enumerate() {
        let at = start + offset as u64;
        if !is_byte_cut(writes, block, at) && *byte != byte_at(content, at) {
            return false;
        }
    }
    true
}

/// The byte at an offset, 0 past the end.
fn byte_at(bytes: &[u8], at: u64) -> u8
    ensures { result ≡ slice_index bytes.now at }
{
    match bytes.get(at as usize) {
        Some(byte) => *byte,
        None => 0,
    }
}
