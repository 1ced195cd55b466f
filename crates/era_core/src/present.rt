//! What the machine reads off the opening of its session: its numbers, and where blocks and writes lie in it.

ghost use Rattle.std.specs.Prelude.{◌≡◌, ◌≤◌, ◌<◌, IfSome, reverse};
ghost use Rattle.era_core.specs.Present.{HaveStripes};
ghost use Rattle.era_model.specs.CommandEvents.{written_stripe};
ghost use Rattle.era_model.specs.History.{at_opening, blocks_now, knows_contents, stripe_now};
ghost use Rattle.era_model.specs.SessionRun.{place_now};

use crate::lookups::{present_opening, written_block_of};
use era_base::CmdId;
use era_model::Happening;

/// The number of blocks of the origin.
pub fn block_count(h: &[Happening]) -> u32
    ensures { result ≡ blocks_now (reverse h.now) }
{
    match present_opening(h) {
        Some(opening) => opening.geometry.blocks(),
        None => 0,
    }
}

/// The number of stripes of the session.
pub fn stripe_count(h: &[Happening]) -> u32
    ensures { result ≡ at_opening 0 (λ opening. opening.stripes) (reverse h.now) }
{
    match present_opening(h) {
        Some(opening) => opening.stripes,
        None => 0,
    }
}

/// The number of metadata blocks.
pub fn total_blocks(h: &[Happening]) -> u64
    ensures { result ≡ at_opening 0 (λ opening. opening.total) (reverse h.now) }
{
    match present_opening(h) {
        Some(opening) => opening.total,
        None => 0,
    }
}

/// The block of the sectors, and the first of them within it, or `None`.
pub fn place_of(h: &[Happening], sector: u64, count: u64) -> Option<(u32, u32)>
    ensures value { result ≡ place_now (reverse h.now) sector count }
    ensures block { IfSome result (λ place. place.0 < blocks_now (reverse h.now)) }
{
    match present_opening(h) {
        Some(opening) => opening.geometry.place_of(sector, count),
        None => None,
    }
}

/// Whether the opening tells the contents of the origin.
pub fn knows_contents(h: &[Happening]) -> bool
    ensures { result ≡ knows_contents (reverse h.now) }
{
    match present_opening(h) {
        Some(opening) => opening.contents.bytes.is_some(),
        None => false,
    }
}

/// The stripe of a block.
pub fn stripe_of(h: &[Happening], block: u32) -> u32
    requires { HaveStripes (reverse h.now) }
    ensures { result ≡ stripe_now (reverse h.now) block }
{
    match present_opening(h) {
        Some(opening) => block / opening.geometry.blocks().div_ceil(opening.stripes),
        None => 0,
    }
}

/// The stripe to which the command issued a write, or `None`.
pub fn written_stripe_of(h: &[Happening], id: CmdId) -> Option<u32>
    requires { HaveStripes (reverse h.now) }
    ensures { result ≡ written_stripe (reverse h.now) id }
{
    match written_block_of(h, id) {
        Some(block) => Some(stripe_of(h, block)),
        None => None,
    }
}

/// The block size in sectors, 0 before the first session.
pub fn block_size(h: &[Happening]) -> u32
    ensures value { result
        ≡ at_opening 0 (λ opening. opening.geometry.block_sectors) (reverse h.now) }
    ensures small { result ≤ 128 }
{
    match present_opening(h) {
        Some(opening) => opening.geometry.block_sectors(),
        None => 0,
    }
}

/// The length of the origin in sectors, 0 before the first session.
pub fn sector_count(h: &[Happening]) -> u64
    ensures { result ≡ at_opening 0 (λ opening. opening.geometry.sectors) (reverse h.now) }
{
    match present_opening(h) {
        Some(opening) => opening.geometry.sectors(),
        None => 0,
    }
}
