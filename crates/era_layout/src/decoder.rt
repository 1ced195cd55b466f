//! Roots from bytes.

ghost use Rattle.std.specs.Prelude.{◌≡◌, ◌≢◌, ◌+◌, ◌*◌, ◌≤◌, ◌↔◌, length, false, IfOk, IsErrOf, MatchResult};
ghost use Rattle.std.specs.Result.{ForOk};
ghost use Rattle.era_base.specs.declared.limits.TheConstants.{MOST_SETS};
ghost use Rattle.era_layout.specs.Numbers.{u32_at, u64_at, u32s_at};
ghost use Rattle.era_layout.specs.Root.{RootFields, fields_of, root_bytes, IsValidRoot};
ghost use Rattle.era_layout.specs.Damage.{sets_at, fields_at, HeldPasses, root_kinds, IsFirst, IsFirstOf, NoneApplies, NoneAppliesOf};

use crate::archive::{ArchiveList, Archived};
use crate::checker::{check_held_root, check_root};
use crate::damage::RootError;
use crate::numbers::read_u32;
use crate::offsets::{COUNT, ERA, HELD, HELD_BLOCK, LISTS};
use crate::page_list::PageList;
use crate::root::Root;
use era_base::{Geometry, Memory};
use std::alloc::Global;

/// So many page numbers from an offset on.
fn read_pages(alloc: Global, bytes: &[u8], offset: usize, count: usize) -> Result<PageList, Memory>
    requires { offset + 4 * count ≤ length bytes.now }
    ensures { IfOk result (λ pages. pages ≡ u32s_at bytes.now offset count) }
{
    let mut pages = PageList::new(alloc);
    for index in 0..count {
        pages.push(read_u32(bytes, offset + 4 * index))?;
    }
    Ok(pages)
}

/// So many archived sets of `width` pages each, at most 2, from an offset on.
fn read_sets(
    alloc: Global,
    bytes: &[u8],
    width: usize,
    offset: usize,
    count: u32,
) -> Result<ArchiveList, Memory>
    requires width { width ≤ 2 }
    requires count { count ≤ MOST_SETS }
    requires bytes { offset + 12 * count ≤ length bytes.now }
    ensures { IfOk result (λ sets. sets ≡ sets_at bytes.now width offset count) }
{
    let mut sets = ArchiveList::with_room(alloc)?;
    let mut at = offset;
    for _ in 0..count {
        let era = read_u32(bytes, at);
        let pages = read_pages(alloc, bytes, at + 4, width)?;
        sets.push_reserved(Archived { era, pages });
        at += 4 + 4 * width;
    }
    Ok(sets)
}

/// The root that bytes of its geometry are.
fn read_root(alloc: Global, bytes: &[u8], geometry: Geometry) -> Result<Root, Memory>
    requires size { length bytes.now ≡ 3576 }
    requires sectors { geometry.sectors ≡ u64_at bytes.now 16 }
    requires block_sectors { geometry.block_sectors ≡ u32_at bytes.now 12 }
    requires count { u32_at bytes.now 32 ≤ MOST_SETS }
    ensures { IfOk result (λ root. fields_of root ≡ fields_at bytes.now) }
{
    let count = geometry.array_pages() as usize;
    let width = geometry.bit_pages() as usize;
    let behind = LISTS + 4 * count;
    Ok(Root {
        geometry,
        era: read_u32(bytes, ERA),
        held: read_u32(bytes, HELD) == HELD_BLOCK,
        array: read_pages(alloc, bytes, LISTS, count)?,
        current: read_pages(alloc, bytes, behind, width)?,
        archive: read_sets(
            alloc,
            bytes,
            width,
            behind + 4 * width,
            read_u32(bytes, COUNT),
        )?,
    })
}

/// The root that bytes are, if they were tested.
fn read_tested(
    alloc: Global,
    bytes: &[u8],
    tested: Result<Geometry, RootError>,
) -> Result<Root, RootError>
    requires size { length bytes.now ≡ 3576 }
    requires same { ForOk tested (λ geometry.
        (geometry.sectors ≡ u64_at bytes.now 16) × (geometry.block_sectors ≡ u32_at bytes.now 12)) }
    requires count { ForOk tested (λ _. u32_at bytes.now 32 ≤ MOST_SETS) }
    ensures { MatchResult tested
        (λ _. MatchResult result (λ root. fields_of root ≡ fields_at bytes.now)
        (λ error. error ≡ RootError.Memory))
        (λ kind. result ≡ Err kind) }
{
    match tested {
        Err(kind) => Err(kind),
        Ok(geometry) => match read_root(alloc, bytes, geometry) {
            Ok(root) => Ok(root),
            Err(Memory) => Err(RootError::Memory),
        },
    }
}

/// The root that 3,576 bytes are. Otherwise it refuses them by the first kind of damage that applies, in the order of
/// [`RootError`]. `Memory` comes only where none applies.
pub fn decode_root(alloc: Global, bytes: &[u8]) -> Result<Root, RootError>
    requires { length bytes.now ≡ 3576 }
    // What is decoded is valid, and encoded to the same bytes.
    ensures ok { IfOk result (λ root.
        IsValidRoot (fields_of root) × (root_bytes (fields_of root) ≡ bytes.now)) }
    // What is encoded is decoded to itself.
    ensures again { (root : RootFields) → IsValidRoot root → root_bytes root ≡ bytes.now
        → MatchResult result (λ found. fields_of found ≡ root) (λ error. error ≡ RootError.Memory) }
    // All else is refused by its first kind.
    ensures refused { (kind : RootError) → kind ≢ RootError.Memory
        → IsErrOf result kind ↔ IsFirst bytes.now root_kinds kind }
    ensures memory { IsErrOf result RootError.Memory → NoneApplies bytes.now root_kinds }
{
    read_tested(alloc, bytes, check_root(bytes))
}

/// As [`decode_root`], for the held root: it holds no snapshot itself, so `BadHeld` comes where its held field isn't 0.
pub fn decode_held_root(alloc: Global, bytes: &[u8]) -> Result<Root, RootError>
    requires { length bytes.now ≡ 3576 }
    // What is decoded is valid, holds no snapshot, and is encoded to the same bytes.
    ensures ok { IfOk result (λ root. IsValidRoot (fields_of root)
        × (root.held ≡ false) × (root_bytes (fields_of root) ≡ bytes.now)) }
    // What is encoded and holds no snapshot is decoded to itself.
    ensures again { (root : RootFields) → IsValidRoot root → root.held ≡ false
        → root_bytes root ≡ bytes.now
        → MatchResult result (λ found. fields_of found ≡ root) (λ error. error ≡ RootError.Memory) }
    // All else is refused by its first kind.
    ensures refused { (kind : RootError) → kind ≢ RootError.Memory
        → IsErrOf result kind ↔ IsFirstOf (HeldPasses bytes.now) root_kinds kind }
    ensures memory { IsErrOf result RootError.Memory
        → NoneAppliesOf (HeldPasses bytes.now) root_kinds }
{
    read_tested(alloc, bytes, check_held_root(bytes))
}
