//! Roots into bytes, from front to back.

ghost use Rattle.std.specs.Prelude.{◌≡◌, ◌+◌, ◌*◌, ◌≤◌, ◌++◌, length, take, All};
ghost use Rattle.era_base.specs.declared.limits.TheConstants.{MOST_SETS};
ghost use Rattle.era_layout.specs.Root.{fields_of, head_bytes, archived_bytes, archive_bytes, root_bytes, held_number, IsValidRoot};

use crate::archive::Archived;
use crate::numbers::{write_bytes, write_u32, write_u32s, write_u64, write_zeros};
use crate::offsets::{HELD_BLOCK, LAYOUT, MAGIC};
use crate::root::Root;

/// The held field of a root.
fn held_field(held: bool) -> u32
    ensures { result ≡ held_number held }
{
    if held { HELD_BLOCK } else { 0 }
}

/// Writes the fixed fields, and answers the offset behind them.
#[tactic(auto, unfolding(crate::specs::Root::magic))]
fn write_head(into: &mut [u8], root: &Root) -> usize
    requires size { length into.old ≡ 3576 }
    requires count { length root.now.archive ≤ MOST_SETS }
    ensures behind { result ≡ 40 }
    ensures front { take 40 into.new ≡ head_bytes (fields_of root.now) }
{
    let behind = write_bytes(into, 0, &MAGIC);
    let behind = write_u32(into, behind, LAYOUT);
    let behind = write_u32(into, behind, root.geometry.block_sectors());
    let behind = write_u64(into, behind, root.geometry.sectors());
    let behind = write_u32(into, behind, root.era);
    let behind = write_u32(into, behind, held_field(root.held));
    let behind = write_u32(into, behind, root.archive.as_slice().len() as u32);
    write_u32(into, behind, 0)
}

/// Writes an archived set at an offset, and answers the offset behind it.
fn write_set(into: &mut [u8], offset: usize, set: &Archived) -> usize
    requires { offset + 4 + 4 * length set.now.pages ≤ length into.old }
    ensures behind { result ≡ offset + 4 + 4 * length set.now.pages }
    ensures front { take result into.new ≡ take offset into.old ++ archived_bytes set.now }
{
    let behind = write_u32(into, offset, set.era);
    write_u32s(into, behind, set.pages.as_slice())
}

/// Writes archived sets of at most two pages each from an offset on, and answers the offset behind them.
fn write_sets(into: &mut [u8], offset: usize, sets: &[Archived]) -> usize
    requires room { offset + 12 * length sets.now ≤ length into.old }
    requires pages { All (λ set. length set.pages ≤ 2) sets.now }
    ensures behind { result ≤ length into.new }
    ensures front { take result into.new ≡ take offset into.old ++ archive_bytes sets.now }
{
    let mut behind = offset;
    for set in sets {
        behind = write_set(into, behind, set);
    }
    behind
}

/// Writes the one spelling of a valid root into 3,576 bytes. It takes no memory.
pub fn encode_root(root: &Root, into: &mut [u8])
    requires size { length into.old ≡ 3576 }
    requires valid { IsValidRoot (fields_of root.now) }
    ensures { into.new ≡ root_bytes (fields_of root.now) }
{
    let behind = write_head(into, root);
    let behind = write_u32s(into, behind, root.array.as_slice());
    let behind = write_u32s(into, behind, root.current.as_slice());
    let behind = write_sets(into, behind, root.archive.as_slice());
    write_zeros(into, behind);
}
