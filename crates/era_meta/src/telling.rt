//! What the metadata tells of itself, and its disk.

ghost use Rattle.std.specs.Prelude.{◌≡◌};

use crate::metadata::Meta;
use era_base::{Disk, Geometry};

impl<D: Disk> Meta<D> {
    /// The origin's length and its block size, both in sectors.
    pub fn geometry(&self) -> Geometry
        ensures { result ≡ self.now.root.geometry }
    {
        self.root.geometry
    }

    /// The present era, in memory.
    pub fn era(&self) -> u32
        ensures { result ≡ self.now.marks.era }
    {
        self.marks.era()
    }

    /// The number of the last commit.
    pub fn sequence(&self) -> u64
        ensures { result ≡ self.now.slots.number }
    {
        self.slots.number
    }

    /// Gives the disk back. It takes no memory.
    pub fn into_disk(self) -> D
        ensures { result ≡ self.slots.disk }
    {
        let Meta { slots, .. } = self;
        slots.into_disk()
    }
}
