//! The tests of page numbers, eras and unused bytes.

ghost use Rattle.std.specs.Prelude.{◌≡◌, ◌+◌, ◌*◌, ◌≤◌, ◌↔◌, ℕ, length, IsTrue};
ghost use Rattle.era_base.specs.Geometry.{need_of};
ghost use Rattle.era_layout.specs.Root.{EraOrder, AreInImage, AreDifferent};
ghost use Rattle.era_layout.specs.Damage.{AreZeros, sets_at};

use crate::numbers::read_u32;

/// Whether all bytes are 0.
pub fn are_zeros(bytes: &[u8]) -> bool
    ensures { IsTrue result ↔ AreZeros bytes.now }
{
    bytes.iter().all(|byte| *byte == 0)
}

/// Whether each number is that of a page of an image that needs so many metadata blocks.
pub fn are_in_image(pages: &[u32], need: u32) -> bool
    ensures { (blocks : ℕ) → need ≡ need_of blocks → IsTrue result ↔ AreInImage blocks pages.now }
{
    pages.iter().all(|page| *page >= 3 && *page < need)
}

/// Whether no number stands twice.
pub fn are_different(pages: &[u32]) -> bool
    ensures { IsTrue result ↔ AreDifferent pages.now }
{
    for (index, page) in pages.iter().enumerate() {
        if pages[..index].contains(page) {
            return false;
        }
    }
    true
}

/// Whether the eras of so many archived sets ascend strictly from above 0 and stay below an era. Each set has
/// `width` pages, at most 2.
pub fn are_in_order(bytes: &[u8], width: usize, offset: usize, count: u32, era: u32) -> bool
    requires width { width ≤ 2 }
    requires bytes { offset + 12 * count ≤ length bytes.now }
    ensures { IsTrue result ↔ EraOrder 0 era (sets_at bytes.now width offset count) }
{
    let mut last = 0;
    let mut at = offset;
    for _ in 0..count {
        let next = read_u32(bytes, at);
        if next <= last || next >= era {
            return false;
        }
        last = next;
        at += 4 + 4 * width;
    }
    true
}
