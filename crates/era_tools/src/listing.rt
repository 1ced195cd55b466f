//! What a backup is to copy, by the marks of a closed image.

ghost use Rattle.std.specs.Prelude.{◌≡◌, ◌<◌};
ghost use Rattle.std.specs.List.{All};
ghost use Rattle.era_base.specs.Geometry.{blocks_of};

use era_base::Geometry;

/// What a backup is to copy.
#[derive(Debug, Drop)]
pub struct Listing {
    /// The origin's length and its block size.
    pub geometry: Geometry,
    /// The present era.
    pub era: u32,
    /// The blocks, ascending.
    pub blocks: Vec<u32>,
    pub ghost within: { All
        (λ block. block < blocks_of geometry.sectors geometry.block_sectors) blocks.items },
}
