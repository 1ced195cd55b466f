//! Room in memory for what later calls make: it is all taken when the metadata is made.

ghost use Rattle.std.specs.Prelude.{◌≡◌, ◌*◌, ◌≤◌, false, [], length, IfOk};
ghost use Rattle.std.specs.List.{AllByRecursion};
ghost use Rattle.era_base.specs.declared.limits.TheConstants.{MOST_SETS};
ghost use Rattle.era_layout.specs.Root.{fields_of, pages_of};
ghost use Rattle.era_meta.specs.Parts.{IsRoomOf};

use crate::areas::SpareLists;
use era_base::{Geometry, Items, Memory, ReservedList};
use era_layout::Root;
use std::alloc::Global;

/// Room for a root of a geometry: lists for the pages of the era array and of the current set, with the number 0 that no
/// page has, and no archived set.
pub(crate) fn root_room(alloc: Global, geometry: &Geometry) -> Result<Root, Memory>
    ensures room { IfOk result (λ root. IsRoomOf geometry.now.sectors geometry.now.block_sectors
        (fields_of root)) }
    ensures zeros { IfOk result
        (λ root. AllByRecursion (λ page. page ≡ 0) (pages_of (fields_of root))) }
{
    let array = Items::repeat(alloc, 0, geometry.array_pages() as usize)?;
    let current = Items::repeat(alloc, 0, geometry.bit_pages() as usize)?;
    let archive = ReservedList::with_room(alloc)?;
    Ok(Root {
        geometry: *geometry,
        era: 1,
        held: false,
        array,
        current,
        archive,
    })
}

/// So many lists of `width` pages each.
pub(crate) fn list_room(alloc: Global, width: u32, count: usize) -> Result<SpareLists, Memory>
    requires { count ≤ 3 * MOST_SETS }
    ensures count { IfOk result (λ lists. length lists ≡ count) }
    ensures sizes { IfOk result (AllByRecursion (λ pages. length pages ≡ width)) }
{
    let mut lists = ReservedList::with_room(alloc)?;
    for _ in 0..count {
        lists.push_reserved(Items::repeat(alloc, 0, width as usize)?);
    }
    Ok(lists)
}
