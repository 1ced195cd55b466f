//! Reads the pages of an era array from a disk, tests them, and takes them over into memory.

ghost use Rattle.std.specs.Prelude.{◌≡◌, ◌+◌, ◌-◌, ◌*◌, ◌<◌, ◌≤◌, ℕ, true, [], ◌∷◌, min, map, length, slice_index, OnOk, MatchResult};
ghost use Rattle.std.specs.List.{AllByRecursion};
ghost use Rattle.era_base.specs.Geometry.{array_pages_of};
ghost use Rattle.era_base.specs.declared.limits.TheConstants.{MOST_BLOCKS};
ghost use Rattle.era_layout.specs.Pages.{entry_at, IsArrayPage};
ghost use Rattle.era_slots.specs.Slot.{page_of};
ghost use Rattle.era_meta.specs.Damage.{ArrayPage, array_tests, IsArrayDamage};
ghost use Rattle.era_meta.specs.Meaning.{pages_in};
ghost use Rattle.era_meta.specs.PageParts.{IsArrayPageOf};
ghost use Rattle.era_meta.specs.SaysMarks.{SayEntries};
ghost use Rattle.era_meta.specs.Stored.{CanHold};
ghost use Rattle.era_meta.specs.Walks.{Walked, IsDamageAt};

use crate::finding::Finding;
use era_array::EraArray;
use era_base::Disk;
use era_layout::{DamageKind, check_array_page, era_at};
use era_slots::Slots;

/// The blocks of a page of the era array.
const ENTRIES: usize = 1_024;

/// How many entries of the page with an index belong to blocks, where the array has so many.
fn entries_of(blocks: usize, index: u32) -> u32
    requires { 1024 * index < blocks }
    ensures { result ≡ min 1024 (blocks - 1024 * index) }
{
    (blocks - ENTRIES * index as usize).min(ENTRIES) as u32
}

/// Tests a page of 4,096 bytes that was read from a block.
fn test_array_page(page: &[u8], block: u32, entries: u32, limit: u32) -> Result<(), Finding>
    requires page { length page.now ≡ 4096 }
    requires entries { entries ≤ 1024 }
    ensures { MatchResult result (λ _. IsArrayPage page.now entries limit)
        (IsDamageAt block (IsArrayDamage page.now entries limit)) }
{
    match check_array_page(page, entries, limit) {
        Ok(()) => Ok(()),
        Err(error) => Err(Finding::Damage {
            kind: DamageKind::of_page(error),
            block,
        }),
    }
}

/// Takes the entries of a page of 4,096 bytes over: they are those of the page with an index.
fn take_entries(page: &[u8], index: u32, into: &mut EraArray)
    requires page { length page.now ≡ 4096 }
    requires index { (1024 * index < length into.old) × (length into.old ≤ MOST_BLOCKS) }
    ensures size { length into.new ≡ length into.old }
    ensures own { (entry : ℕ) → entry < 1024 → 1024 * index + entry < length into.old
        → slice_index into.new (1024 * index + entry) ≡ entry_at page.now entry }
    ensures others { (block : ℕ) → (1024 * index ≤ block → 1024 * index + 1024 ≤ block)
        → slice_index into.new block ≡ slice_index into.old block }
{
    for entry in 0..entries_of(into.as_slice().len(), index) {
        into.put_entries(1_024 * index + entry, [era_at(page, entry)].as_slice());
    }
}

/// Reads the page with an index of an era array from a block, tests it, and takes its entries over.
fn read_array_page<D: Disk>(
    slots: &mut Slots<D>,
    block: u32,
    index: u32,
    limit: u32,
    into: &mut EraArray,
) -> Result<(), Finding>
    requires block { block * 8 + 8 ≤ D.sectors slots.old.disk }
    requires index { (1024 * index < length into.old) × (length into.old ≤ MOST_BLOCKS) }
    requires limited { (entry : ℕ) → slice_index into.old entry ≤ limit }
    ensures walked { Walked D.Disk
        (ArrayPage block (min 1024 (length into.old - 1024 * index)) limit ∷ [])
        slots.old slots.new result }
    ensures says { OnOk result (D.tells ≡ true → IsArrayPageOf into.new index
        (page_of block (D.history slots.old.disk).now.seen)) }
    ensures limited { OnOk result ((entry : ℕ) → slice_index into.new entry ≤ limit) }
    ensures others { OnOk result ((entry : ℕ) → entry < 1024 * index
        → slice_index into.new entry ≡ slice_index into.old entry) }
    ensures size { length into.new ≡ length into.old }
{
    let mut page = [0; 4_096];
    match slots.read_page(block, &mut page) {
        Ok(()) => {}
        Err(count) => return Err(Finding::Fault(count)),
    }
    let entries = entries_of(into.as_slice().len(), index);
    match test_array_page(&page, block, entries, limit) {
        Ok(()) => {}
        Err(finding) => return Err(finding),
    }
    take_entries(&page, index, into);
    Ok(())
}

/// Reads all pages of an era array from their blocks, each by one read, tests them in their order, and takes the entries
/// over. No entry may be above `limit`. It takes no memory.
pub fn read_array<D: Disk>(
    slots: &mut Slots<D>,
    numbers: &[u32],
    limit: u32,
    into: &mut EraArray,
) -> Result<(), Finding>
    requires blocks { AllByRecursion (CanHold (D.sectors slots.old.disk)) numbers.now }
    requires pages { (length numbers.now ≡ array_pages_of (length into.old))
        × (length into.old ≤ MOST_BLOCKS) }
    requires limited { (entry : ℕ) → slice_index into.old entry ≤ limit }
    ensures walked { Walked D.Disk (array_tests (length into.old) limit 0 numbers.now)
        slots.old slots.new result }
    ensures says { OnOk result (D.tells ≡ true → SayEntries into.new
        (map (pages_in (D.history slots.old.disk).now.seen) numbers.now)) }
    ensures limited { OnOk result ((entry : ℕ) → slice_index into.new entry ≤ limit) }
    ensures size { length into.new ≡ length into.old }
{
    for index in 0..numbers.len() {
        match read_array_page(slots, numbers[index], index as u32, limit, into) {
            Ok(()) => {}
            Err(finding) => return Err(finding),
        }
    }
    Ok(())
}
