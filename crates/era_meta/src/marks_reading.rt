//! Reads all pages of a root from a disk into memory.

ghost use Rattle.std.specs.Prelude.{◌≡◌, ◌+◌, ◌<◌, ◌≤◌, true, false, length, replicate, IfOk};
ghost use Rattle.std.specs.List.{AllByRecursion};
ghost use Rattle.era_base.specs.declared.limits.TheConstants.{MOST_SETS};
ghost use Rattle.era_layout.specs.Root.{fields_of, IsValidRoot};
ghost use Rattle.era_meta.specs.Content.{blocks_of_root, root_limit};
ghost use Rattle.era_meta.specs.Damage.{page_tests};
ghost use Rattle.era_meta.specs.Meaning.{pages_in, marks_on};
ghost use Rattle.era_meta.specs.Reading.{AreOfRoot};
ghost use Rattle.era_meta.specs.SaysMarks.{IsRootFor};
ghost use Rattle.era_meta.specs.Stored.{HasBlocks};
ghost use Rattle.era_meta.specs.Walks.{Walked};

use crate::array_reading::read_array;
use crate::finding::Finding;
use crate::live_marks::LiveMarks;
use crate::live_set::LiveSet;
use crate::merging::ROOM;
use crate::page_laws::pages_say_marks;
use crate::set_reading::{read_archive, read_set};
use era_array::EraArray;
use era_base::{Disk, Memory, ReservedList};
use era_layout::Root;
use era_sets::BitSet;
use era_slots::Slots;
use std::alloc::Global;

/// The greatest era that an entry of a root's era array may have.
fn limit_of(root: &Root) -> u32
    requires { 0 < root.now.era }
    ensures { result ≡ root_limit root.now.archive root.now.era }
{
    match root.archive.as_slice().first() {
        Some(oldest) => oldest.era,
        None => root.era - 1,
    }
}

/// Sets of so many blocks without any, for eras that are archived later: as many as can be archived beside `archived`
/// ones.
fn spare_sets(
    alloc: Global,
    blocks: u32,
    archived: usize,
) -> Result<ReservedList<LiveSet, { ROOM }>, Memory>
    requires { archived ≤ MOST_SETS }
    ensures { IfOk result (λ sets. (archived + length sets ≡ MOST_SETS)
        × AllByRecursion (λ set. length set.blocks ≡ blocks) sets) }
{
    let mut sets = ReservedList::with_room(alloc)?;
    for _ in 0..ROOM - archived {
        let set = BitSet::new(alloc, blocks)?;
        sets.push_reserved(LiveSet::new(0, set));
    }
    Ok(sets)
}

/// An era array without entries, and a set without blocks.
fn blank_parts(alloc: Global, blocks: u32) -> Result<(EraArray, BitSet), Memory>
    ensures { IfOk result (λ parts. (parts.0 ≡ replicate blocks 0)
        × (parts.1 ≡ replicate blocks false)) }
{
    let array = EraArray::new(alloc, blocks)?;
    let current = BitSet::new(alloc, blocks)?;
    Ok((array, current))
}

/// Reads all pages of a root, in the order of their tests.
fn read_pages<D: Disk>(
    alloc: Global,
    slots: &mut Slots<D>,
    root: &Root,
    array: &mut EraArray,
    current: &mut BitSet,
) -> Result<ReservedList<LiveSet, { ROOM }>, Finding>
    requires valid { IsValidRoot (fields_of root.now) }
    requires room { HasBlocks (fields_of root.now) (D.sectors slots.old.disk) }
    requires array { array.old ≡ replicate (blocks_of_root (fields_of root.now)) 0 }
    requires current { current.old ≡ replicate (blocks_of_root (fields_of root.now)) false }
    ensures walked { Walked D.Disk (page_tests (fields_of root.now)) slots.old slots.new result }
    ensures read { IfOk result (AreOfRoot D.tells (D.history slots.old.disk).now
        (fields_of root.now) array.new current.new) }
{
    match read_array(slots, root.array.as_slice(), limit_of(root), array) {
        Ok(()) => {}
        Err(finding) => return Err(finding),
    }
    let blocks = root.geometry.blocks();
    let archive = match read_archive(alloc, slots, root.archive.as_slice(), blocks) {
        Ok(archive) => archive,
        Err(finding) => return Err(finding),
    };
    match read_set(slots, root.current.as_slice(), current) {
        Ok(()) => Ok(archive),
        Err(finding) => Err(finding),
    }
}

/// Reads all pages of a root, each by one read, tests them in their order, and gives the marks that the root says. All
/// memory for marks that are changed later is taken too.
pub fn read_marks<D: Disk>(
    alloc: Global,
    slots: &mut Slots<D>,
    root: &Root,
) -> Result<LiveMarks, Finding>
    requires valid { IsValidRoot (fields_of root.now) }
    requires room { HasBlocks (fields_of root.now) (D.sectors slots.old.disk) }
    ensures walked { Walked D.Disk (page_tests (fields_of root.now)) slots.old slots.new result }
    ensures says { IfOk result (λ marks. D.tells ≡ true → marks
        ≡ marks_on (pages_in (D.history slots.old.disk).now.seen) (fields_of root.now)) }
    ensures root { IfOk result (IsRootFor (fields_of root.now)) }
{
    pages_say_marks();
    let blocks = root.geometry.blocks();
    let Ok((mut array, mut current)) = blank_parts(alloc, blocks) else {
        return Err(Finding::Memory);
    };
    let archive = match read_pages(alloc, slots, root, &mut array, &mut current) {
        Ok(archive) => archive,
        Err(finding) => return Err(finding),
    };
    let Ok(spare) = spare_sets(alloc, blocks, archive.len()) else {
        return Err(Finding::Memory);
    };
    Ok(LiveMarks {
        geometry: root.geometry,
        era: root.era,
        array,
        current,
        archive,
        spare,
    })
}
