//! Whether a crash may leave images of the origin.

ghost use Rattle.std.specs.Prelude.{◌≡◌, ◌↔◌, ◌≤◌, [], IsTrue, ℕ, false, length, reverse, slice_index};
ghost use Rattle.era_base.specs.Bytes.{part};
ghost use Rattle.era_core.specs.Present.{HaveContents};
ghost use Rattle.era_model.specs.Changed.{IsCrashContent};
ghost use Rattle.era_model.specs.Crashes.{AreOriginImages};
ghost use Rattle.era_model.specs.History.{at_opening, content, contents_of, in_flight, known_bytes};
ghost use Rattle.era_model.specs.Writes.{block_bytes, is_written_at};

use crate::flights::is_byte_written;
use crate::lookups::present_opening;
use crate::present::{block_count, block_size};
use era_base::Bytes;
use era_model::{Contents, FlightWrite, Happening, Images, part_of};

/// The known bytes of the origin, none where they aren't known.
fn known(contents: &Contents) -> &[u8]
    ensures { result.now ≡ known_bytes contents.now.bytes }
{
    match &contents.bytes {
        Some(bytes) => bytes.as_slice(),
        None => &[],
    }
}

/// How many bytes of the origin were known at the session's opening.
fn opening_len(h: &[Happening]) -> usize
    ensures { result ≡ length (at_opening [] contents_of (reverse h.now)) }
{
    match present_opening(h) {
        Some(opening) => known(&opening.contents).len(),
        None => 0,
    }
}

/// The bytes of a block of so many sectors.
fn bytes_of_block(bytes: &[u8], block_sectors: u32, block: u32) -> &[u8]
    requires { block_sectors ≤ 128 }
    ensures { result.now ≡ block_bytes block_sectors bytes.now block }
{
    part_of(
        bytes,
        block as usize * block_sectors as usize * 512,
        block_sectors as usize * 512,
    )
}

/// Whether the bytes are the content outside the ranges of writes.
fn is_same_outside(writes: &[FlightWrite], content: &[u8], block: u32, image: &[u8]) -> bool
    requires { length image.now ≡ length content.now }
    ensures { IsTrue result ↔ ((offset : ℕ) → is_written_at writes.now block offset ≡ false
        → slice_index image.now offset ≡ slice_index content.now offset) }
{
    for (offset, byte) in image.iter().enumerate() {
        if !is_byte_written(writes, block, offset as u64) && *byte != content[offset] {
            return false;
        }
    }
    true
}

/// Whether a crash may leave these bytes of the block.
fn may_be_left(
    h: &[Happening],
    writes: &[FlightWrite],
    before: &Bytes,
    block: u32,
    image: &[u8],
) -> bool
    requires flight { writes.now ≡ in_flight (reverse h.now) }
    requires content { before.now ≡ content (reverse h.now) block }
    ensures { IsTrue result ↔ IsCrashContent (reverse h.now) block image.now }
{
    image.len() == before.len() && is_same_outside(writes, before.as_slice(), block, image)
}

/// Whether a crash may leave the contents.
pub fn may_leave_contents(
    h: &[Happening],
    writes: &[FlightWrite],
    contents: &[Bytes],
    images: &Images,
) -> bool
    requires flight { writes.now ≡ in_flight (reverse h.now) }
    requires contents { HaveContents (reverse h.now) contents.now }
    ensures { IsTrue result ↔ AreOriginImages (reverse h.now) images.now }
{
    let bytes = known(&images.contents);
    if bytes.len() != opening_len(h) {
        return false;
    }
    let size = block_size(h);
    for block in 0..block_count(h) {
        let before = &contents[block as usize];
        if !may_be_left(h, writes, before, block, bytes_of_block(bytes, size, block)) {
            return false;
        }
    }
    true
}
