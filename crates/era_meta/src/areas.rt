//! Where the pages of the next root go while each commit writes them all. Three page areas of as many metadata blocks as
//! one root may reach follow the two slots and the held root's block.

ghost use Rattle.std.specs.Prelude.{◌≡◌, ◌↔◌, ◌+◌, ◌*◌, ◌<◌, ◌≤◌, ◌^◌, ℕ, List, [], ◌++◌, length, drop, map, All, IsTrue, MatchOption, Option, option_copied};
ghost use Rattle.std.specs.List.{AllByRecursion};
ghost use Rattle.era_base.specs.CrashModel.{State};
ghost use Rattle.era_base.specs.Geometry.{blocks_of, root_pages_of};
ghost use Rattle.era_base.specs.declared.limits.TheConstants.{MOST_SETS};
ghost use Rattle.era_layout.specs.Root.{fields_of, pages_of, IsValidRoot};
ghost use Rattle.era_model.specs.Marks.{BlockMarks};
ghost use Rattle.era_model.specs.Validity.{AreValidMarks};
ghost use Rattle.era_meta.specs.Areas.{archived_from, held_fields, IsOutside, IsLeastFreeArea, HasFreeArea, IsNumbered, HasPageLists, HaveFewPages};
ghost use Rattle.era_meta.specs.Content.{blocks_of_root};
ghost use Rattle.era_meta.specs.Keeping.{HasRoom};
ghost use Rattle.era_meta.specs.Meaning.{reached};
ghost use Rattle.era_meta.specs.Placing.{IsPlaced};
ghost use Rattle.era_meta.specs.SaysMarks.{IsRootFor};

use crate::free_blocks::{FreeBlocks, number_list};
use crate::live_set::LiveSet;
use era_base::{Geometry, MOST_SETS, ReservedList};
use era_layout::{ArchiveList, Archived, PageList, Root};

/// Lists of pages for sets: as many as the committed root, the next one and the held one have.
const LISTS: usize = 3 * MOST_SETS as usize;

/// Lists of pages that no root has now, for sets that are archived later.
pub type SpareLists = ReservedList<PageList, { LISTS }>;

/// Whether all pages are outside of `count` blocks from `first` on.
fn are_outside(pages: &[u32], first: u32, count: u32) -> bool
    requires { first + count < 2 ^ 32 }
    ensures { IsTrue result ↔ All (IsOutside first count) pages.now }
{
    let end = first + count;
    pages.iter().all(|page| *page < first || *page >= end)
}

/// Whether all pages of archived sets are outside of `count` blocks from `first` on.
fn are_sets_outside(sets: &[Archived], first: u32, count: u32) -> bool
    requires { first + count < 2 ^ 32 }
    ensures { IsTrue result ↔ All (λ set. All (IsOutside first count) set.pages) sets.now }
{
    for set in sets {
        if !are_outside(set.pages.as_slice(), first, count) {
            return false;
        }
    }
    true
}

/// Whether all pages of a root are outside of `count` blocks from `first` on.
fn is_outside(root: &Root, first: u32, count: u32) -> bool
    requires { first + count < 2 ^ 32 }
    ensures { IsTrue result
        ↔ AllByRecursion (IsOutside first count) (pages_of (fields_of root.now)) }
{
    if !are_outside(root.array.as_slice(), first, count) {
        return false;
    }
    if !are_outside(root.current.as_slice(), first, count) {
        return false;
    }
    are_sets_outside(root.archive.as_slice(), first, count)
}

/// Whether a page area of `count` blocks from `first` on is free: no page of either root lies in it.
pub(crate) fn is_free(root: &Root, held: Option<&Root>, first: u32, count: u32) -> bool
    requires behind { 3 ≤ first }
    requires end { first + count < 2 ^ 32 }
    ensures { IsTrue result ↔ AllByRecursion (IsOutside first count)
        (reached (fields_of root.now) (held_fields (option_copied held.entry))) }
{
    if !is_outside(root, first, count) {
        return false;
    }
    match held {
        Some(held) => is_outside(held, first, count),
        None => true,
    }
}

/// How many blocks a page area has, 98 at most.
pub(crate) fn area_size(geometry: &Geometry) -> u32
    ensures value { result
        ≡ root_pages_of (blocks_of geometry.now.sectors geometry.now.block_sectors) }
    ensures most { result ≤ 98 }
{
    let _blocks = geometry.blocks();
    geometry.root_pages()
}

/// The least page area, counted from 0, in which no page of either root lies, if there is one.
pub(crate) fn free_area(root: &Root, held: Option<&Root>) -> Option<u32>
    ensures { MatchOption result
        (¬ HasFreeArea (blocks_of_root (fields_of root.now))
        (reached (fields_of root.now) (held_fields (option_copied held.entry))))
        (IsLeastFreeArea (blocks_of_root (fields_of root.now))
        (reached (fields_of root.now) (held_fields (option_copied held.entry)))) }
{
    let size = area_size(&root.geometry);
    for area in 0..3 {
        if is_free(root, held, 3 + area * size, size) {
            return Some(area);
        }
    }
    None
}

/// Puts the lists of pages of all archived sets behind the spare ones, and leaves no set. It takes no memory.
pub(crate) fn release_lists(archive: &mut ArchiveList, spare: &mut SpareLists)
    requires { length archive.old + length spare.old ≤ 3 * MOST_SETS }
    ensures archive { archive.new ≡ [] }
    ensures spare { spare.new ≡ spare.old ++ map (λ set. set.pages) archive.old }
{
    for _ in 0..archive.len() {
        let set = archive.take_first();
        spare.push_reserved(set.pages);
    }
}

/// Archives sets of these eras, where none is archived. Each takes the first spare list, and its `width` pages take the
/// first free blocks that are left. It takes no memory.
fn archive_sets(
    archive: &mut ArchiveList,
    spare: &mut SpareLists,
    sets: &[LiveSet],
    free: &mut FreeBlocks,
    width: u32,
)
    requires none { archive.old ≡ [] }
    requires lists { AllByRecursion (λ pages. length pages ≡ width) spare.old }
    requires enough { length sets.now ≤ length spare.old }
    requires count { length sets.now ≤ MOST_SETS }
    requires blocks { length sets.now * width ≤ length free.old }
    ensures archive { archive.new ≡ archived_from free.old width sets.now }
    ensures spare { spare.new ≡ drop (length sets.now) spare.old }
{
    for set in sets {
        let mut pages = spare.take_first();
        number_list(&mut pages, free);
        archive.push_reserved(Archived {
            era: set.era(),
            pages,
        });
    }
}

/// Numbers the pages of a root by free blocks: those of the era array, of the current set, and of archived sets of these
/// eras. It takes no memory.
fn number_pages(next: &mut Root, spare: &mut SpareLists, free: &mut FreeBlocks, sets: &[LiveSet])
    requires lists { HasPageLists (blocks_of_root (fields_of next.old)) (fields_of next.old)
        spare.old }
    requires enough { length sets.now ≤ length next.old.archive + length spare.old }
    requires count { length sets.now ≤ MOST_SETS }
    requires blocks { root_pages_of (blocks_of_root (fields_of next.old)) ≤ length free.old }
    ensures numbered { IsNumbered free.old sets.now (fields_of next.new) }
    ensures spare { spare.new ≡ drop (length sets.now)
        (spare.old ++ map (λ set. set.pages) next.old.archive) }
    ensures same { (next.new.geometry ≡ next.old.geometry) × (next.new.era ≡ next.old.era)
        × (next.new.held ≡ next.old.held) }
{
    let width = next.geometry.bit_pages();
    number_list(&mut next.array, free);
    number_list(&mut next.current, free);
    release_lists(&mut next.archive, spare);
    archive_sets(&mut next.archive, spare, sets, free, width);
}

/// Makes `next` the root of marks of an era with these archived sets, over the geometry of the committed root and with
/// its snapshot. Its pages take the least page area in which no page of the committed and of the held root lies, and
/// where there is none the least metadata blocks that neither uses, in the order of the root. Lists of pages come from
/// `next` and the spare ones; it takes no memory.
pub fn prepare(
    next: &mut Root,
    spare: &mut SpareLists,
    root: &Root,
    held: Option<&Root>,
    era: u32,
    sets: &[LiveSet],
)
    requires few { HaveFewPages (blocks_of_root (fields_of root.now)) (fields_of root.now)
        (held_fields (option_copied held)) }
    requires lists { HasPageLists (blocks_of_root (fields_of root.now)) (fields_of next.old)
        spare.old }
    requires sets { (length sets.now ≤ length next.old.archive + length spare.old)
        × (length sets.now ≤ MOST_SETS) }
    ensures marks { (m : BlockMarks) → root.now.geometry.sectors ≡ m.sectors
        → root.now.geometry.block_sectors ≡ m.block_sectors → era ≡ m.era → sets.now ≡ m.archive
        → IsRootFor (fields_of next.new) m }
    ensures valid { (m : BlockMarks) → AreValidMarks m → IsRootFor (fields_of next.new) m
        → IsValidRoot (fields_of next.new) }
    ensures placed { IsPlaced (fields_of root.now) (fields_of next.new)
        (held_fields (option_copied held.entry)) }
    ensures room { (now : State) → HasRoom (fields_of root.now) now
        → HasRoom (fields_of next.new) now }
    ensures lists { HasPageLists (blocks_of_root (fields_of next.new)) (fields_of next.new)
        spare.new × (length next.new.archive + length spare.new
        ≡ length next.old.archive + length spare.old) }
{
    let _sectors = root.geometry.sectors();
    let mut free = FreeBlocks::beside(root, held);
    next.geometry = root.geometry;
    next.era = era;
    next.held = root.held;
    number_pages(next, spare, &mut free, sets);
}
