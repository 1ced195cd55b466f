//! The numbers of pages.

ghost use Rattle.std.specs.Prelude.{◌≡◌, ◌+◌, ◌≤◌, ◌^◌, length};
ghost use Rattle.era_layout.specs.Root.{numbers_from};

use era_base::Items;

/// Metadata blocks in which pages stand, in the order of what the pages hold.
pub type PageList = Items<u32>;

/// Gives pages the numbers from a first one on, in their order. It takes no memory.
pub fn renumber(pages: &mut PageList, first: u32)
    requires { first + length pages.old ≤ 2 ^ 32 }
    ensures { pages.new ≡ numbers_from first (length pages.old) }
{
    for index in 0..pages.len() {
        pages.set(index, first + index as u32);
    }
}
