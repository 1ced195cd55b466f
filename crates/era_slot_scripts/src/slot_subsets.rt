//! The crash images of three commits at each of their syncs, with each pending sector old or new, one by one.

ghost use Rattle.std.specs.Prelude.{◌+◌, ◌≤◌};

use crate::slot_disks::{
    FIRST, SECOND, SECOND_ALONE, Seen, Stop, THIRD, blank, cut_at, opening_of,
};
use era_base::Disk;
use era_disks::Tear;
use std::alloc::Global;
use std::test::Fail;

/// A sync that fails while some sectors from the first one on are pending, how many images these have, what an opening
/// finds where not all of them are new, and what it finds where all are.
#[derive(Clone, Copy)]
struct Cut {
    sync: u64,
    first: usize,
    images: u32,
    without: Seen,
    with: Seen,
}

/// Both slots of a disk that crashed with this tear after this sync failed.
fn slots_left(alloc: Global, sync: u64, tear: Tear) -> Result<[u8; 8_192], Fail> {
    let mut disk = cut_at(alloc, Stop::Sync(sync))?;
    disk.crash(tear)?;
    let mut bytes = [0; 8_192];
    disk.read(0, &mut bytes)?;
    Ok(bytes)
}

/// The old bytes, but new ones in those of seven sectors from the first one on whose bit is set.
fn image_of(old: &[u8; 8_192], new: &[u8; 8_192], first: usize, subset: u32) -> [u8; 8_192]
    requires { first + 7 ≤ 16 }
{
    let mut image = *old;
    for bit in 0..7_usize {
        if subset >> bit & 1 == 1 {
            let from = (first + bit) * 512;
            image[from..from + 512].copy_from_slice(&new[from..from + 512]);
        }
    }
    image
}

/// What an opening finds in an image of both slots.
fn found_in(alloc: Global, image: &[u8; 8_192]) -> Result<Seen, Fail> {
    let mut disk = blank(alloc)?;
    disk.write(0, image.as_slice())?;
    Ok(opening_of(alloc, disk))
}

/// Whether just the sectors that the cut tells of are pending, and an opening finds in each image what it tells.
fn holds_of(alloc: Global, cut: Cut) -> Result<bool, Fail>
    requires { cut.first + 7 ≤ 16 }
{
    let old = slots_left(alloc, cut.sync, Tear::Old)?;
    let new = slots_left(alloc, cut.sync, Tear::Keep)?;
    let torn = slots_left(alloc, cut.sync, Tear::Fill(9))?;
    let last = cut.images.saturating_sub(1);
    if image_of(&old, &[9; 8_192], cut.first, last).as_slice() != torn.as_slice() {
        return Ok(false);
    }
    for subset in 0..cut.images {
        let wanted = if subset == last {
            cut.with
        } else {
            cut.without
        };
        let image = image_of(&old, &new, cut.first, subset);
        if found_in(alloc, &image)? != wanted {
            return Ok(false);
        }
    }
    Ok(true)
}

#[test]
fn each_image_at_a_sync_of_a_body_has_the_old_body(rt: HostRuntime) -> Result<(), Fail> {
    let cut = |sync, first, old| Cut {
        sync,
        first,
        images: 128,
        without: old,
        with: old,
    };
    assert!(rt; holds_of(rt.alloc(), cut(1, 1, Seen::Blank))?);
    assert!(rt; holds_of(rt.alloc(), cut(3, 9, FIRST))?);
    assert!(rt; holds_of(rt.alloc(), cut(6, 1, SECOND_ALONE))?);
    Ok(())
}

#[test]
fn each_image_at_a_sync_of_a_gate_has_the_old_body_or_the_new(rt: HostRuntime) -> Result<(), Fail> {
    let cut = |sync, first, without, with| Cut {
        sync,
        first,
        images: 2,
        without,
        with,
    };
    assert!(rt; holds_of(rt.alloc(), cut(2, 0, Seen::Blank, FIRST))?);
    assert!(rt; holds_of(rt.alloc(), cut(4, 8, FIRST, SECOND))?);
    assert!(rt; holds_of(rt.alloc(), cut(5, 0, SECOND, SECOND_ALONE))?);
    assert!(rt; holds_of(rt.alloc(), cut(7, 0, SECOND_ALONE, THIRD))?);
    Ok(())
}
