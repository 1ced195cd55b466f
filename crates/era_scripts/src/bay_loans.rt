//! What is pending goes with a part of a device in memory that is lent, and comes back with it.

ghost use Rattle.std.specs.Prelude.{◌≡◌, [], Some, OnOk, codes};
ghost use Rattle.era_disks.specs.MemBay.{sizes_of, bay_loans, IsIdle};

use era_base::{Bay, Disk};
use era_disks::{MemBay, Tear};
use std::alloc::Global;
use std::test::Fail;

/// Lends the two sectors in the middle of a device of four, writes both with ones and syncs, writes the second one with
/// twos, and puts them back.
fn put_back_pending(bay: &mut MemBay) -> Result<(), Fail>
    requires loans { bay_loans bay.old ≡ [] }
    requires size { sizes_of bay.old (codes "meta") ≡ Some 4 }
    ensures idle { OnOk result (IsIdle bay.new (codes "meta")) }
    ensures size { OnOk result (sizes_of bay.new (codes "meta") ≡ Some 4) }
{
    let mut disk = bay.open_part("meta", 1, 2)?;
    disk.write(0, [1; 1_024].as_slice())?;
    disk.sync()?;
    disk.write(1, [2; 512].as_slice())?;
    bay.put_back(disk);
    Ok(())
}

/// The first byte and the last one of each of the four sectors that a crash with this tear leaves.
fn left_by(alloc: Global, tear: Tear) -> Result<[u8; 8], Fail> {
    let mut bay = MemBay::new(alloc);
    bay.add("meta", 4)?;
    put_back_pending(&mut bay)?;
    bay.crash("meta", tear)?;
    let mut ends = [0; 8];
    if let Some(bytes) = bay.content(alloc, "meta")? {
        let bytes = bytes.as_slice();
        if bytes.len() == 2_048 {
            ends = [
                bytes[0],
                bytes[511],
                bytes[512],
                bytes[1_023],
                bytes[1_024],
                bytes[1_535],
                bytes[1_536],
                bytes[2_047],
            ];
        }
    }
    Ok(ends)
}

#[test]
fn what_comes_back_pending_is_torn(rt: HostRuntime) -> Result<(), Fail> {
    assert!(rt; left_by(rt.alloc(), Tear::Keep)? == [0, 0, 1, 1, 2, 2, 0, 0]);
    assert!(rt; left_by(rt.alloc(), Tear::Old)? == [0, 0, 1, 1, 1, 1, 0, 0]);
    assert!(rt; left_by(rt.alloc(), Tear::Fill(9))? == [0, 0, 1, 1, 9, 9, 0, 0]);
    Ok(())
}

/// The first byte and the last one of the last three sectors, which are lent and crash with this tear.
fn left_of_lent(alloc: Global, tear: Tear) -> Result<[u8; 6], Fail> {
    let mut bay = MemBay::new(alloc);
    bay.add("meta", 4)?;
    put_back_pending(&mut bay)?;
    let mut disk = bay.open_part("meta", 1, 3)?;
    disk.crash(tear)?;
    let mut into = [0; 1_536];
    disk.read(0, &mut into)?;
    Ok([
        into[0],
        into[511],
        into[512],
        into[1_023],
        into[1_024],
        into[1_535],
    ])
}

#[test]
fn what_is_lent_pending_is_torn(rt: HostRuntime) -> Result<(), Fail> {
    assert!(rt; left_of_lent(rt.alloc(), Tear::Keep)? == [1, 1, 2, 2, 0, 0]);
    assert!(rt; left_of_lent(rt.alloc(), Tear::Old)? == [1, 1, 1, 1, 0, 0]);
    assert!(rt; left_of_lent(rt.alloc(), Tear::Fill(9))? == [1, 1, 9, 9, 0, 0]);
    Ok(())
}
