//! Reads the pages of write sets from a disk, tests them, and takes them over into memory.

ghost use Rattle.std.specs.Prelude.{◌≡◌, ◌+◌, ◌-◌, ◌*◌, ◌<◌, ◌≤◌, ℕ, true, false, [], ◌∷◌, min, map, length, OnOk, IfOk, MatchResult};
ghost use Rattle.std.specs.List.{AllByRecursion};
ghost use Rattle.era_base.specs.Flags.{has};
ghost use Rattle.era_base.specs.Geometry.{bit_pages_of};
ghost use Rattle.era_base.specs.declared.limits.TheConstants.{MOST_BLOCKS, MOST_SETS};
ghost use Rattle.era_layout.specs.Pages.{flag_at, FlagsEndAt};
ghost use Rattle.era_layout.specs.Root.{archive_pages};
ghost use Rattle.era_slots.specs.Slot.{page_of};
ghost use Rattle.era_meta.specs.Content.{archived_content};
ghost use Rattle.era_meta.specs.Damage.{BitsPage, set_tests, archive_tests, IsBitsDamage};
ghost use Rattle.era_meta.specs.Meaning.{pages_in};
ghost use Rattle.era_meta.specs.PageParts.{IsBitsPageOf};
ghost use Rattle.era_meta.specs.SaysMarks.{SayFlags, SaySets, HasSets};
ghost use Rattle.era_meta.specs.Stored.{CanHold};
ghost use Rattle.era_meta.specs.Walks.{Walked, IsDamageAt};

use crate::finding::Finding;
use crate::live_set::LiveSet;
use crate::merging::ROOM;
use era_base::{Disk, ReservedList};
use era_layout::{Archived, DamageKind, bit_at, check_bits_page};
use era_sets::BitSet;
use era_slots::Slots;
use std::alloc::Global;

/// The blocks of a page of a write set.
const BITS: u32 = 32_768;

/// Tests a page of 4,096 bytes that was read from a block.
fn test_bits_page(page: &[u8], block: u32, bits: u32) -> Result<(), Finding>
    requires page { length page.now ≡ 4096 }
    requires bits { bits ≤ 32768 }
    ensures { MatchResult result (λ _. FlagsEndAt page.now bits)
        (IsDamageAt block (IsBitsDamage page.now bits)) }
{
    match check_bits_page(page, bits) {
        Ok(()) => Ok(()),
        Err(error) => Err(Finding::Damage {
            kind: DamageKind::of_page(error),
            block,
        }),
    }
}

/// How many bits of the page with an index belong to blocks, where the set is of so many.
fn bits_of(blocks: u32, index: u32) -> u32
    requires { 32768 * index < blocks }
    ensures { result ≡ min 32768 (blocks - 32768 * index) }
{
    (blocks - BITS * index).min(BITS)
}

/// Takes the first bits of a page of 4,096 bytes over: they are those of the page with an index, of which the set has no
/// block.
fn take_bits(page: &[u8], index: u32, into: &mut BitSet)
    requires page { length page.now ≡ 4096 }
    requires index { (32768 * index < length into.old) × (length into.old ≤ MOST_BLOCKS) }
    requires clear { (block : ℕ) → 32768 * index ≤ block → has into.old block ≡ false }
    ensures size { length into.new ≡ length into.old }
    ensures own { (bit : ℕ) → bit < 32768 → 32768 * index + bit < length into.old
        → has into.new (32768 * index + bit) ≡ flag_at page.now bit }
    ensures before { (block : ℕ) → block < 32768 * index
        → has into.new block ≡ has into.old block }
    ensures behind { (block : ℕ) → 32768 * index + 32768 ≤ block → has into.new block ≡ false }
{
    let first = BITS * index;
    for bit in 0..bits_of(into.len(), index) {
        if bit_at(page, bit) {
            into.mark(first + bit);
        }
    }
}

/// Reads the page with an index of a write set from a block, tests it, and takes its bits over.
fn read_bits_page<D: Disk>(
    slots: &mut Slots<D>,
    block: u32,
    index: u32,
    into: &mut BitSet,
) -> Result<(), Finding>
    requires block { block * 8 + 8 ≤ D.sectors slots.old.disk }
    requires index { (32768 * index < length into.old) × (length into.old ≤ MOST_BLOCKS) }
    requires clear { (other : ℕ) → 32768 * index ≤ other → has into.old other ≡ false }
    ensures walked { Walked D.Disk
        (BitsPage block (min 32768 (length into.old - 32768 * index)) ∷ [])
        slots.old slots.new result }
    ensures says { OnOk result (D.tells ≡ true → IsBitsPageOf into.new index
        (page_of block (D.history slots.old.disk).now.seen)) }
    ensures before { OnOk result ((other : ℕ) → other < 32768 * index
        → has into.new other ≡ has into.old other) }
    ensures behind { OnOk result ((other : ℕ) → 32768 * index + 32768 ≤ other
        → has into.new other ≡ false) }
    ensures size { length into.new ≡ length into.old }
{
    let mut page = [0; 4_096];
    match slots.read_page(block, &mut page) {
        Ok(()) => {}
        Err(count) => return Err(Finding::Fault(count)),
    }
    let bits = bits_of(into.len(), index);
    match test_bits_page(&page, block, bits) {
        Ok(()) => {}
        Err(finding) => return Err(finding),
    }
    take_bits(&page, index, into);
    Ok(())
}

/// Reads all pages of a write set from their blocks, each by one read, tests them in their order, and takes the bits over
/// into a set that has none. It takes no memory.
pub fn read_set<D: Disk>(
    slots: &mut Slots<D>,
    numbers: &[u32],
    into: &mut BitSet,
) -> Result<(), Finding>
    requires blocks { AllByRecursion (CanHold (D.sectors slots.old.disk)) numbers.now }
    requires pages { (length numbers.now ≡ bit_pages_of (length into.old))
        × (length into.old ≤ MOST_BLOCKS) }
    requires clear { (block : ℕ) → has into.old block ≡ false }
    ensures walked { Walked D.Disk (set_tests (length into.old) 0 numbers.now)
        slots.old slots.new result }
    ensures says { OnOk result (D.tells ≡ true → SayFlags into.new
        (map (pages_in (D.history slots.old.disk).now.seen) numbers.now)) }
    ensures size { length into.new ≡ length into.old }
{
    for index in 0..numbers.len() {
        match read_bits_page(slots, numbers[index], index as u32, into) {
            Ok(()) => {}
            Err(finding) => return Err(finding),
        }
    }
    Ok(())
}

/// Reads an archived set of so many blocks.
fn read_archived<D: Disk>(
    alloc: Global,
    slots: &mut Slots<D>,
    archived: &Archived,
    blocks: u32,
) -> Result<LiveSet, Finding>
    requires blocks { AllByRecursion (CanHold (D.sectors slots.old.disk)) archived.now.pages }
    requires pages { (length archived.now.pages ≡ bit_pages_of blocks)
        × (blocks ≤ MOST_BLOCKS) }
    ensures walked { Walked D.Disk (set_tests blocks 0 archived.now.pages)
        slots.old slots.new result }
    ensures says { IfOk result (λ set. D.tells ≡ true → SayFlags set.blocks
        (map (pages_in (D.history slots.old.disk).now.seen) archived.now.pages)) }
    ensures set { IfOk result (λ set. (set.era ≡ archived.now.era)
        × (length set.blocks ≡ blocks)) }
{
    let Ok(mut set) = BitSet::new(alloc, blocks) else {
        return Err(Finding::Memory);
    };
    match read_set(slots, archived.pages.as_slice(), &mut set) {
        Ok(()) => Ok(LiveSet::new(archived.era, set)),
        Err(finding) => Err(finding),
    }
}

/// Reads archived sets of so many blocks, the oldest first, set by set.
pub fn read_archive<D: Disk>(
    alloc: Global,
    slots: &mut Slots<D>,
    archive: &[Archived],
    blocks: u32,
) -> Result<ReservedList<LiveSet, { ROOM }>, Finding>
    requires blocks { AllByRecursion (CanHold (D.sectors slots.old.disk))
        (archive_pages archive.now) }
    requires pages { AllByRecursion (λ set. length set.pages ≡ bit_pages_of blocks) archive.now }
    requires count { (length archive.now ≤ MOST_SETS) × (blocks ≤ MOST_BLOCKS) }
    ensures walked { Walked D.Disk (archive_tests blocks archive.now)
        slots.old slots.new result }
    ensures says { IfOk result (λ sets. D.tells ≡ true → SaySets sets
        (map (archived_content (pages_in (D.history slots.old.disk).now.seen)) archive.now)) }
    ensures sets { IfOk result (λ sets. HasSets sets archive.now
        × AllByRecursion (λ set. length set.blocks ≡ blocks) sets) }
{
    let Ok(mut sets) = ReservedList::with_room(alloc) else {
        return Err(Finding::Memory);
    };
    for index in 0..archive.len() {
        let archived = &archive[index];
        match read_archived(alloc, slots, archived, blocks) {
            Ok(set) => sets.push_reserved(set),
            Err(finding) => return Err(finding),
        }
    }
    Ok(sets)
}
