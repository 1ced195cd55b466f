//! What is stored as pages: the era array, and write sets.

ghost use Rattle.std.specs.Prelude.{◌≡◌, ℕ, ◌≤◌, List, length, take, drop};

use era_array::EraArray;
use era_layout::{encode_array_page, encode_bits_page};
use era_sets::BitSet;

/// The blocks of a page of the era array.
const ARRAY_BLOCKS: usize = 1_024;

/// The words of a page of a write set.
const SET_WORDS: usize = 512;

/// What is stored as pages of 4,096 bytes.
pub trait PageSource {
    /// What the page with an index says.
    ghost says: { Self → ℕ → List ℕ → Type 0 };

    /// Writes the page with an index, of 4,096 bytes. Past the last block it says nothing but zeros. It takes no memory.
    fn encode_page(&self, index: u32, into: &mut [u8])
        requires { length into.old ≡ 4096 }
        ensures { says self.now index into.new };
}

/// So many items of a list from an index on, or as many as there are.
pub fn part<T>(items: &[T], from: usize, count: usize) -> &[T]
    ensures items { result.now ≡ take count (drop from items.now) }
    ensures count { length result.now ≤ count }
{
    let first = from.min(items.len());
    let behind = &items[first..];
    &behind[..count.min(behind.len())]
}

impl PageSource for EraArray {
    ghost use Rattle.era_meta.specs.PageParts.{IsArrayPageOf};

    ghost says = { IsArrayPageOf };

    fn encode_page(&self, index: u32, into: &mut [u8]) {
        let first = ARRAY_BLOCKS * index as usize;
        encode_array_page(part(self.as_slice(), first, ARRAY_BLOCKS), into);
    }
}

impl PageSource for BitSet {
    ghost use Rattle.era_meta.specs.PageParts.{IsBitsPageOf};

    ghost says = { IsBitsPageOf };

    fn encode_page(&self, index: u32, into: &mut [u8]) {
        let first = SET_WORDS * index as usize;
        encode_bits_page(part(self.words(), first, SET_WORDS), into);
    }
}
