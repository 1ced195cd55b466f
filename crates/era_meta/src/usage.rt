//! How many metadata blocks are used. It takes no memory.

ghost use Rattle.std.specs.Prelude.{◌≡◌, ◌+◌, ◌*◌, ◌≤◌, ℕ, List, length, Option, option_copied};
ghost use Rattle.std.specs.List.{AllByRecursion};
ghost use Rattle.era_base.specs.declared.limits.TheConstants.{MOST_SETS};
ghost use Rattle.era_layout.specs.Root.{archive_pages, fields_of, pages_of, IsValidRoot};
ghost use Rattle.era_meta.specs.Areas.{held_fields};
ghost use Rattle.era_meta.specs.Usage.{count_apart, has_number, used_by, HasHeldSizes, HasSizes, IsValidHeld};

use era_layout::{Archived, Root};

/// Whether a block is a page of one of these sets.
fn has_set_page(sets: &[Archived], block: u32) -> bool
    ensures { result ≡ has_number (archive_pages sets.now) block }
{
    for set in sets {
        if set.pages.as_slice().contains(&block) {
            return true;
        }
    }
    false
}

/// Whether a block is a page of the root.
fn has_page(root: &Root, block: u32) -> bool
    ensures { result ≡ has_number (pages_of (fields_of root.now)) block }
{
    root.array.as_slice().contains(&block)
        || root.current.as_slice().contains(&block)
        || has_set_page(root.archive.as_slice(), block)
}

/// How many of these pages aren't the root's.
fn count_others(pages: &[u32], root: &Root) -> u32
    requires { length pages.now ≤ 65536 }
    ensures value { result ≡ count_apart (pages_of (fields_of root.now)) pages.now }
    ensures most { result ≤ 65536 }
{
    let mut count = 0;
    for page in pages {
        if !has_page(root, *page) {
            count += 1;
        }
    }
    count
}

/// How many of the pages of these sets aren't the root's.
fn count_set_others(sets: &[Archived], root: &Root) -> u32
    requires count { length sets.now ≤ MOST_SETS }
    requires sizes { AllByRecursion (λ set. length set.pages ≤ 65536) sets.now }
    ensures value { result
        ≡ count_apart (pages_of (fields_of root.now)) (archive_pages sets.now) }
    ensures most { result ≤ 65536 * MOST_SETS }
{
    let mut count = 0;
    for set in sets {
        count += count_others(set.pages.as_slice(), root);
    }
    count
}

/// How many of a held root's pages aren't the root's.
fn count_held_others(held: &Root, root: &Root) -> u32
    requires { HasSizes (fields_of held.now) }
    ensures value { result
        ≡ count_apart (pages_of (fields_of root.now)) (pages_of (fields_of held.now)) }
    ensures most { result ≤ 65536 * 18 }
{
    let array = count_others(held.array.as_slice(), root);
    let current = count_others(held.current.as_slice(), root);
    array + current + count_set_others(held.archive.as_slice(), root)
}

/// How many pages the root has.
fn count_pages(root: &Root) -> u32
    requires { IsValidRoot (fields_of root.now) }
    ensures value { result ≡ length (pages_of (fields_of root.now)) }
    ensures most { result ≤ 98 }
{
    let _blocks = root.geometry.blocks();
    root.geometry.array_pages() + root.geometry.bit_pages() * (1 + root.archive.len() as u32)
}

/// How many metadata blocks are used: the two slots, and each block that the root or the held root reaches, once. A page
/// that both have counts once. The held root is valid where its disk says so.
pub fn used_blocks(root: &Root, held: Option<&Root>) -> u32
    requires root { IsValidRoot (fields_of root.now) }
    requires held { HasHeldSizes (held_fields (option_copied held)) }
    ensures { IsValidHeld (held_fields (option_copied held.entry)) → result
        ≡ used_by (fields_of root.now) (held_fields (option_copied held.entry)) }
{
    let used = 2 + count_pages(root);
    match held {
        Some(held) => used + 1 + count_held_others(held, root),
        None => used,
    }
}
