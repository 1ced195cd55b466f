//! The metadata blocks that the pages of a next root take.

ghost use Rattle.std.specs.Prelude.{◌≡◌, ◌+◌, ◌-◌, ◌^◌, ◌<◌, ◌≤◌, ◌∷◌, length, take, drop, option_copied};
ghost use Rattle.era_base.specs.Geometry.{root_pages_of};
ghost use Rattle.era_layout.specs.Root.{fields_of};
ghost use Rattle.era_meta.specs.Areas.{held_fields, free_between, AreNextBlocks, HaveFewPages, ArePlaces};
ghost use Rattle.era_meta.specs.Content.{blocks_of_root};
ghost use Rattle.era_meta.specs.Meaning.{reached};

use crate::areas::{area_size, free_area, is_free};
use era_layout::{PageList, Root};
use std::marker::Model;

/// The least metadata block from `from` up to `end` that neither root uses.
fn least_free(root: &Root, held: Option<&Root>, from: u32, end: u32) -> u32
    requires range { (3 ≤ from) × (end < 2 ^ 32 - 1) }
    requires some { 0 < length (free_between
        (reached (fields_of root.now) (held_fields (option_copied held))) from end) }
    ensures least { free_between
        (reached (fields_of root.now) (held_fields (option_copied held.entry))) from end
        ≡ result ∷ free_between
        (reached (fields_of root.now) (held_fields (option_copied held.entry))) (result + 1) end }
    ensures range { (from ≤ result) × (result < end) }
{
    for block in from..end {
        if is_free(root, held, block, 1) {
            return block;
        }
    }
    end
}

/// Metadata blocks that neither of two roots uses, in ascending order: those from `at` up to `end`.
#[derive(Drop)]
pub(crate) struct FreeBlocks<'a> {
    root: &'a Root,
    held: Option<&'a Root>,
    at: u32,
    end: u32,
}

impl<'a> Model for FreeBlocks<'a> {
    ghost use Rattle.std.specs.Prelude.{ℕ, ◌-◌, ◌≤◌, ◌<◌, ◌^◌, List, option_copied};
    ghost use Rattle.era_layout.specs.Root.{fields_of};
    ghost use Rattle.era_meta.specs.Areas.{held_fields, free_between};
    ghost use Rattle.era_meta.specs.Meaning.{reached};

    ghost Value = { List ℕ };

    ghost view = { λ f. free_between (reached (fields_of f.root.now)
        (held_fields (option_copied f.held))) f.at f.end };

    ghost invariant = { λ f. (3 ≤ f.at) × (f.end < 2 ^ 32 - 1) };
}

impl<'a> FreeBlocks<'a> {
    /// The blocks that the pages of the next root may take, beside a committed root and its held one: the least page
    /// area that is free, and where none is free all blocks that neither root uses, behind the held root's.
    pub(crate) fn beside(root: &'a Root, held: Option<&'a Root>) -> FreeBlocks<'a>
        requires { HaveFewPages (blocks_of_root (fields_of root.now)) (fields_of root.now)
            (held_fields (option_copied held)) }
        ensures next { AreNextBlocks (blocks_of_root (fields_of root.now))
            (reached (fields_of root.now) (held_fields (option_copied held.entry))) result }
        ensures enough { root_pages_of (blocks_of_root (fields_of root.now)) ≤ length result }
        ensures places { ArePlaces (blocks_of_root (fields_of root.now))
            (reached (fields_of root.now) (held_fields (option_copied held.entry))) result }
    {
        let size = area_size(&root.geometry);
        let (at, end) = match free_area(root, held) {
            Some(area) => (3 + area * size, 3 + area * size + size),
            None => (3, 3 + 3 * size),
        };
        FreeBlocks {
            root,
            held,
            at,
            end,
        }
    }

    /// Takes the least of the blocks.
    fn take(&mut self) -> u32
        requires { 0 < length self.old }
        ensures { self.old ≡ result ∷ self.new }
    {
        let block = least_free(self.root, self.held, self.at, self.end);
        self.at = block + 1;
        block
    }
}

/// Gives pages the least of the free blocks, in their order. It takes no memory.
pub(crate) fn number_list(pages: &mut PageList, free: &mut FreeBlocks)
    requires { length pages.old ≤ length free.old }
    ensures pages { pages.new ≡ take (length pages.old) free.old }
    ensures left { free.new ≡ drop (length pages.old) free.old }
{
    for index in 0..pages.len() {
        let block = free.take();
        pages.set(index, block);
    }
}
