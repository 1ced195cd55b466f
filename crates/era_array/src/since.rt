//! The entries of the era array since an era.

ghost use Rattle.std.specs.Prelude.{◌≡◌, ◌<◌, max, length};

use era_base::RunSource;

/// The blocks whose entry is an era from 1 on, or a later one.
#[derive(Drop)]
pub struct Since<'a> {
    entries: &'a [u32],
    era: u32,
    ghost some: { 0 < era },
    ghost small: { length entries.now < 4294967296 },
}

impl<'a> Since<'a> {
    /// The blocks whose entry is the era or a later one. Era 0 means the same as 1.
    pub fn new(entries: &'a [u32], era: u32) -> Since<'a>
        requires { length entries.now < 4294967296 }
        ensures entries { result.entries.now ≡ entries.now }
        ensures era { result.era ≡ max era 1 }
    {
        Since {
            entries,
            era: era.max(1),
        }
    }
}

impl RunSource for Since<'_> {
    ghost use Rattle.std.specs.Prelude.{nat_le, length, slice_index};

    ghost blocks = { λ since. length since.entries.now };

    ghost has = { λ since block. nat_le since.era (slice_index since.entries.now block) };

    fn blocks(&self) -> u32 {
        self.entries.len() as u32
    }

    fn first_with(&self, from: u32, flag: bool) -> u32 {
        for block in from..self.blocks() {
            if (self.era <= self.entries[block as usize]) == flag {
                return block;
            }
        }
        self.blocks()
    }
}
