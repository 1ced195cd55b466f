//! Whether bytes are a root, and the first reason why not. No test takes memory, so want of memory hides no damage.

ghost use Rattle.std.specs.Prelude.{◌≡◌, ◌+◌, ◌*◌, ◌≤◌, ◌↔◌, ◌++◌, length, IsTrue, OnOk, IfOk, IfErr, OnSome, IfSome, IfNone};
ghost use Rattle.era_layout.specs.Numbers.{u32_at, u64_at, u32s_at};
ghost use Rattle.era_layout.specs.Root.{archive_pages, pages_of};
ghost use Rattle.era_layout.specs.Damage.{sets_at, archive_offset, fields_at, Passes, PassesAs, HeldPasses, root_kinds, IsFirst, IsFirstOf, NoneApplies, NoneAppliesOf};
ghost use Rattle.era_base.specs.declared.limits.TheConstants.{MOST_SETS};
ghost use Rattle.era_base.specs.Geometry.{blocks_of, array_pages_of, bit_pages_of};

use crate::damage::RootError;
use crate::lists_checker::{are_different, are_in_image, are_in_order, are_zeros};
use crate::numbers::{read_u32, read_u64};
use crate::offsets::{
    BLOCK_SECTORS, COUNT, ERA, GAP, HELD, HELD_BLOCK, LAYOUT, LISTS, MAGIC, SECTORS, VERSION,
};
use crate::page_numbers::PageNumbers;
use era_base::{Geometry, MOST_SETS};

/// Whether bytes begin with the magic.
#[tactic(auto, unfolding(crate::specs::Root::magic, crate::specs::Damage::Passes))]
fn has_magic(bytes: &[u8]) -> bool
    requires { length bytes.now ≡ 3576 }
    ensures { IsTrue result ↔ Passes bytes.now RootError.BadMagic }
{
    &bytes[..8] == MAGIC.as_slice()
}

/// Whether the version is the one that is read.
#[tactic(auto, unfolding(crate::specs::Damage::Passes))]
fn has_version(bytes: &[u8]) -> bool
    requires { length bytes.now ≡ 3576 }
    ensures { IsTrue result ↔ Passes bytes.now RootError.BadVersion }
{
    read_u32(bytes, VERSION) == LAYOUT
}

/// The geometry that the length and the block size make, if they make one.
#[tactic(auto, unfolding(crate::specs::Damage::Passes))]
fn geometry_at(bytes: &[u8]) -> Option<Geometry>
    requires { length bytes.now ≡ 3576 }
    ensures some { OnSome result (Passes bytes.now RootError.BadGeometry) }
    ensures same { IfSome result (λ geometry.
        (geometry.sectors ≡ u64_at bytes.now 16) × (geometry.block_sectors ≡ u32_at bytes.now 12)) }
    ensures none { IfNone result (¬ Passes bytes.now RootError.BadGeometry) }
{
    let block_sectors = u64::from(read_u32(bytes, BLOCK_SECTORS));
    match Geometry::new(read_u64(bytes, SECTORS), block_sectors) {
        Ok(geometry) => Some(geometry),
        Err(_) => None,
    }
}

/// Whether there is a current era.
#[tactic(auto, unfolding(crate::specs::Damage::Passes))]
fn has_era(bytes: &[u8]) -> bool
    requires { length bytes.now ≡ 3576 }
    ensures { IsTrue result ↔ Passes bytes.now RootError.BadEra }
{
    read_u32(bytes, ERA) != 0
}

/// Whether the held field has one of the values that it may have.
#[tactic(auto, unfolding(crate::specs::Damage::Passes))]
fn has_held(bytes: &[u8], may_hold: bool) -> bool
    requires { length bytes.now ≡ 3576 }
    ensures { IsTrue result ↔ PassesAs may_hold bytes.now RootError.BadHeld }
{
    let held = read_u32(bytes, HELD);
    held == 0 || (may_hold && held == HELD_BLOCK)
}

/// The offset of the archived sets in a root of this geometry.
fn archive_at(geometry: &Geometry) -> usize
    ensures value { result ≡ archive_offset
        (array_pages_of (blocks_of geometry.now.sectors geometry.now.block_sectors))
        (bit_pages_of (blocks_of geometry.now.sectors geometry.now.block_sectors)) }
    ensures range { result ≤ 304 }
{
    LISTS + 4 * geometry.array_pages() as usize + 4 * geometry.bit_pages() as usize
}

/// Whether the archived sets are few enough and their eras in order.
#[tactic(auto, unfolding(crate::specs::Damage::Passes))]
fn has_archive_in_order(bytes: &[u8], geometry: &Geometry) -> bool
    requires size { length bytes.now ≡ 3576 }
    requires sectors { geometry.now.sectors ≡ u64_at bytes.now 16 }
    requires block_sectors { geometry.now.block_sectors ≡ u32_at bytes.now 12 }
    ensures same { IsTrue result ↔ Passes bytes.now RootError.ArchiveOrder }
    ensures count { IsTrue result → u32_at bytes.now 32 ≤ MOST_SETS }
{
    let count = read_u32(bytes, COUNT);
    let width = geometry.bit_pages() as usize;
    let offset = archive_at(geometry);
    count <= MOST_SETS && are_in_order(bytes, width, offset, count, read_u32(bytes, ERA))
}

/// The page numbers of a root whose era array takes `array` pages and whose `count` archived sets take `width` pages
/// each, in their order.
fn read_page_numbers(bytes: &[u8], array: usize, width: usize, count: u32) -> PageNumbers
    requires size { length bytes.now ≡ 3576 }
    requires array { array ≤ 64 }
    requires width { width ≤ 2 }
    requires count { count ≤ MOST_SETS }
    ensures { result ≡ u32s_at bytes.now 40 array ++ u32s_at bytes.now (40 + 4 * array) width
        ++ archive_pages (sets_at bytes.now width (archive_offset array width) count) }
{
    let mut pages = PageNumbers::new();
    pages.read(bytes, LISTS, array);
    pages.read(bytes, LISTS + 4 * array, width);
    let mut at = LISTS + 4 * array + 4 * width;
    for _ in 0..count {
        pages.read(bytes, at + 4, width);
        at += 4 + 4 * width;
    }
    pages
}

/// The page numbers of a root of this geometry, in their order.
fn page_numbers(bytes: &[u8], geometry: &Geometry) -> PageNumbers
    requires size { length bytes.now ≡ 3576 }
    requires sectors { geometry.now.sectors ≡ u64_at bytes.now 16 }
    requires block_sectors { geometry.now.block_sectors ≡ u32_at bytes.now 12 }
    requires count { u32_at bytes.now 32 ≤ MOST_SETS }
    ensures { result ≡ pages_of (fields_at bytes.now) }
{
    let array = geometry.array_pages() as usize;
    let width = geometry.bit_pages() as usize;
    read_page_numbers(bytes, array, width, read_u32(bytes, COUNT))
}

/// Whether each page number is that of a page of the image.
#[tactic(auto, unfolding(crate::specs::Damage::Passes))]
fn has_pages_in_image(bytes: &[u8], geometry: &Geometry) -> bool
    requires size { length bytes.now ≡ 3576 }
    requires sectors { geometry.now.sectors ≡ u64_at bytes.now 16 }
    requires block_sectors { geometry.now.block_sectors ≡ u32_at bytes.now 12 }
    requires count { u32_at bytes.now 32 ≤ MOST_SETS }
    ensures { IsTrue result ↔ Passes bytes.now RootError.PageRange }
{
    are_in_image(page_numbers(bytes, geometry).as_slice(), geometry.need())
}

/// Whether no page number stands twice.
#[tactic(auto, unfolding(crate::specs::Damage::Passes))]
fn has_different_pages(bytes: &[u8], geometry: &Geometry) -> bool
    requires size { length bytes.now ≡ 3576 }
    requires sectors { geometry.now.sectors ≡ u64_at bytes.now 16 }
    requires block_sectors { geometry.now.block_sectors ≡ u32_at bytes.now 12 }
    requires count { u32_at bytes.now 32 ≤ MOST_SETS }
    ensures { IsTrue result ↔ Passes bytes.now RootError.PageTwice }
{
    are_different(page_numbers(bytes, geometry).as_slice())
}

/// Whether the bytes that no field has are 0.
#[tactic(auto, unfolding(crate::specs::Damage::Passes))]
fn has_zero_tail(bytes: &[u8], geometry: &Geometry) -> bool
    requires size { length bytes.now ≡ 3576 }
    requires sectors { geometry.now.sectors ≡ u64_at bytes.now 16 }
    requires block_sectors { geometry.now.block_sectors ≡ u32_at bytes.now 12 }
    requires count { u32_at bytes.now 32 ≤ MOST_SETS }
    ensures { IsTrue result ↔ Passes bytes.now RootError.TailNotZero }
{
    let set_size = 4 + 4 * geometry.bit_pages() as usize;
    let end = archive_at(geometry) + read_u32(bytes, COUNT) as usize * set_size;
    read_u32(bytes, GAP) == 0 && are_zeros(&bytes[end..])
}

/// Tests 3,576 bytes as a root, which may hold a snapshot or not.
fn check_fields(bytes: &[u8], may_hold: bool) -> Result<Geometry, RootError>
    requires { length bytes.now ≡ 3576 }
    ensures none { OnOk result (NoneAppliesOf (PassesAs may_hold bytes.now) root_kinds) }
    ensures same { IfOk result (λ geometry.
        (geometry.sectors ≡ u64_at bytes.now 16) × (geometry.block_sectors ≡ u32_at bytes.now 12)) }
    ensures count { OnOk result (u32_at bytes.now 32 ≤ MOST_SETS) }
    ensures first { IfErr result (IsFirstOf (PassesAs may_hold bytes.now) root_kinds) }
{
    if !has_magic(bytes) {
        return Err(RootError::BadMagic);
    }
    if !has_version(bytes) {
        return Err(RootError::BadVersion);
    }
    let Some(geometry) = geometry_at(bytes) else {
        return Err(RootError::BadGeometry);
    };
    if !has_era(bytes) {
        return Err(RootError::BadEra);
    }
    if !has_held(bytes, may_hold) {
        return Err(RootError::BadHeld);
    }
    if !has_archive_in_order(bytes, &geometry) {
        return Err(RootError::ArchiveOrder);
    }
    if !has_pages_in_image(bytes, &geometry) {
        return Err(RootError::PageRange);
    }
    if !has_different_pages(bytes, &geometry) {
        return Err(RootError::PageTwice);
    }
    if !has_zero_tail(bytes, &geometry) {
        return Err(RootError::TailNotZero);
    }
    Ok(geometry)
}

/// Tests 3,576 bytes, and gives the geometry of the root that they are. Otherwise it gives the first kind of damage
/// that applies. It takes no memory.
pub fn check_root(bytes: &[u8]) -> Result<Geometry, RootError>
    requires { length bytes.now ≡ 3576 }
    ensures none { OnOk result (NoneApplies bytes.now root_kinds) }
    ensures same { IfOk result (λ geometry.
        (geometry.sectors ≡ u64_at bytes.now 16) × (geometry.block_sectors ≡ u32_at bytes.now 12)) }
    ensures count { OnOk result (u32_at bytes.now 32 ≤ MOST_SETS) }
    ensures first { IfErr result (λ kind. IsFirst bytes.now root_kinds kind) }
{
    check_fields(bytes, true)
}

/// As [`check_root`], for the held root: `BadHeld` applies to it exactly where its held field isn't 0, since it holds no
/// snapshot itself.
pub fn check_held_root(bytes: &[u8]) -> Result<Geometry, RootError>
    requires { length bytes.now ≡ 3576 }
    ensures none { OnOk result (NoneAppliesOf (HeldPasses bytes.now) root_kinds) }
    ensures same { IfOk result (λ geometry.
        (geometry.sectors ≡ u64_at bytes.now 16) × (geometry.block_sectors ≡ u32_at bytes.now 12)) }
    ensures count { OnOk result (u32_at bytes.now 32 ≤ MOST_SETS) }
    ensures first { IfErr result (IsFirstOf (HeldPasses bytes.now) root_kinds) }
{
    check_fields(bytes, false)
}
