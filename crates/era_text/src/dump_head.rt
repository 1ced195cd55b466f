//! What the first line of a dump text says.

ghost use Rattle.std.specs.Prelude.{◌≡◌};
ghost use Rattle.era_text.specs.FirstLine.{blocks_in, is_past_era};
ghost use Rattle.era_text.specs.Taking.{head_of};

use era_base::Geometry;

/// The geometry and the present era.
#[derive(Clone, Copy, Debug)]
pub struct DumpHead {
    pub geometry: Geometry,
    pub era: u32,
}

impl DumpHead {
    /// The number of blocks.
    pub fn blocks(&self) -> u32
        ensures { result ≡ blocks_in (head_of self.now) }
    {
        self.geometry.blocks()
    }

    /// Whether an era is one of the past: it isn't 0 and is below the present one.
    pub fn is_past(&self, era: u32) -> bool
        ensures { result ≡ is_past_era (head_of self.now) era }
    {
        era > 0 && era < self.era
    }
}
