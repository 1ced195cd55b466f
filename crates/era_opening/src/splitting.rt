//! How an origin is split into parts.

ghost use Rattle.std.specs.Prelude.{◌<◌, ◌≤◌};
ghost use Rattle.era_opening.specs.Splits.{IsSplit};

use era_base::Geometry;

/// Parts of an origin: how many blocks each has but the last one, and how many parts there are.
#[derive(Clone, Copy, Debug, PartialEq, Eq)]
pub struct Split {
    pub each: u32,
    pub count: u32,
}

/// Splits an origin into at most so many parts, of as few blocks as that allows. Fewer parts are made where these have
/// all blocks.
pub fn split_origin(geometry: &Geometry, stripes: u32) -> Split
    requires { (0 < stripes) × (stripes ≤ 16) }
    ensures { IsSplit geometry.now stripes result }
{
    let blocks = geometry.blocks();
    let each = blocks.div_ceil(stripes);
    Split {
        each,
        count: blocks.div_ceil(each),
    }
}
