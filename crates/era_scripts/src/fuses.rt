//! A fuse that stops a disk, or all disks of a bay, at one write.

ghost use Rattle.std.specs.Prelude.{◌≡◌, IfOk};
ghost use Rattle.era_disks.specs.MemDisk.{sectors_of};

use era_base::{Bay, Disk, Memory, Name};
use era_disks::{Fuse, MadeCall, MemBay, MemDisk, Tear};
use std::alloc::Global;
use std::test::Fail;

/// A fuse at the write of this number of those that begin at a sector of a device.
fn fuse(alloc: Global, device: &str, sector: u64, number: u32) -> Result<Fuse, Memory> {
    Ok(Fuse {
        device: Name::from_text(alloc, device)?,
        sector,
        number,
    })
}

/// Whether a write of so many sectors of this byte answers; false where the disk has other than four sectors.
fn writes(disk: &mut MemDisk, first: u64, count: usize, byte: u8) -> bool
    ensures { sectors_of disk.new ≡ sectors_of disk.old }
{
    let bytes = [byte; 2_048];
    if 0 < count && count <= 4 && first <= 4 && disk.sectors() == 4 && first as usize + count <= 4 {
        disk.write(first, bytes.split_at(count * 512).0).is_ok()
    } else {
        false
    }
}

/// The first byte of each of the four sectors, where the disk can be read.
fn heads(disk: &mut MemDisk) -> Option<[u8; 4]> {
    let mut into = [0; 2_048];
    if disk.sectors() != 4 {
        return None;
    }
    match disk.read(0, &mut into) {
        Ok(()) => Some([into[0], into[512], into[1_024], into[1_536]]),
        Err(_) => None,
    }
}

/// A disk of four sectors that a fuse has stopped at the second write from sector 1 on, in the middle of its device.
fn stopped(alloc: Global) -> Result<MemDisk, Memory> {
    let mut disk = MemDisk::new(alloc, "meta", 4)?;
    disk.set_fuse(fuse(alloc, "meta", 1, 1)?)?;
    let _ = writes(&mut disk, 0, 3, 1);
    let _ = disk.sync();
    let _ = writes(&mut disk, 1, 2, 2);
    let _ = disk.sync();
    let _ = writes(&mut disk, 1, 3, 3);
    Ok(disk)
}

#[test]
fn a_fuse_stops_a_disk_at_its_write(rt: HostRuntime) -> Result<(), Fail> {
    let mut disk = stopped(rt.alloc())?;
    assert!(rt; disk.faults() == 1);
    assert!(rt; heads(&mut disk) == None && disk.sync().is_err());
    assert!(rt; !writes(&mut disk, 0, 1, 4));
    assert!(rt; disk.faults() == 4 && disk.starved() == 0);
    Ok(())
}

/// The heads that a crash with this tear leaves of the stopped disk.
fn left_by(alloc: Global, tear: Tear) -> Result<Option<[u8; 4]>, Memory> {
    let mut disk = stopped(alloc)?;
    disk.crash(tear)?;
    Ok(heads(&mut disk))
}

#[test]
fn a_stopped_disk_is_torn_at_its_write(rt: HostRuntime) -> Result<(), Fail> {
    assert!(rt; left_by(rt.alloc(), Tear::Keep)? == Some([1, 2, 2, 0]));
    assert!(rt; left_by(rt.alloc(), Tear::Old)? == Some([1, 2, 2, 0]));
    assert!(rt; left_by(rt.alloc(), Tear::Fill(9))? == Some([1, 9, 9, 9]));
    Ok(())
}

#[test]
fn a_disk_records_its_calls(rt: HostRuntime) -> Result<(), Fail> {
    let mut disk = stopped(rt.alloc())?;
    let _ = heads(&mut disk);
    let calls = [
        MadeCall::Write {
            first: 0,
            sectors: 3,
            answered: true,
        },
        MadeCall::Sync { answered: true },
        MadeCall::Write {
            first: 1,
            sectors: 2,
            answered: true,
        },
        MadeCall::Sync { answered: true },
        MadeCall::Write {
            first: 1,
            sectors: 3,
            answered: false,
        },
        MadeCall::Read {
            first: 0,
            sectors: 4,
            answered: false,
        },
    ];
    assert!(rt; disk.made() == calls.as_slice());
    disk.crash(Tear::Keep)?;
    assert!(rt; disk.made().is_empty());
    Ok(())
}

/// A bay with two devices of four sectors, and a fuse at the first write from the second one's last sector.
fn bay_of_two(alloc: Global) -> Result<MemBay, Memory> {
    let mut bay = MemBay::new(alloc);
    bay.add("meta", 4)?;
    bay.add("origin", 4)?;
    bay.set_fuse(fuse(alloc, "origin", 3, 0)?)?;
    Ok(bay)
}

/// Two disks of a bay, of which the second one's last write burns the fuse; all that the first one is asked afterwards
/// fails.
fn two_stopped(alloc: Global) -> Result<(MemDisk, MemDisk), Fail> {
    let mut bay = bay_of_two(alloc)?;
    let mut meta = bay.open_meta("meta")?;
    let mut origin = bay.open_meta("origin")?;
    let _ = writes(&mut meta, 0, 4, 1) && writes(&mut origin, 0, 4, 1);
    let _ = meta.sync().is_ok() && origin.sync().is_ok();
    let _ = writes(&mut meta, 1, 2, 2);
    let _ = writes(&mut origin, 3, 1, 2);
    let _ = writes(&mut meta, 0, 1, 3);
    let _ = meta.sync();
    Ok((meta, origin))
}

#[test]
fn a_fuse_stops_all_disks_of_a_bay(rt: HostRuntime) -> Result<(), Fail> {
    let (mut meta, mut origin) = two_stopped(rt.alloc())?;
    assert!(rt; meta.faults() == 2 && origin.faults() == 1);
    assert!(rt; heads(&mut meta) == None && heads(&mut origin) == None);
    assert!(rt; origin.sync().is_err() && !writes(&mut origin, 0, 1, 4));
    assert!(rt; meta.faults() == 3 && origin.faults() == 4);
    Ok(())
}

/// The heads of both disks after a crash with this tear.
fn left_of_two(alloc: Global, tear: Tear) -> Result<[Option<[u8; 4]>; 2], Fail> {
    let (mut meta, mut origin) = two_stopped(alloc)?;
    meta.crash(tear)?;
    origin.crash(tear)?;
    Ok([heads(&mut meta), heads(&mut origin)])
}

#[test]
fn stopped_disks_of_a_bay_are_torn(rt: HostRuntime) -> Result<(), Fail> {
    let kept = [Some([1, 2, 2, 1]), Some([1, 1, 1, 1])];
    assert!(rt; left_of_two(rt.alloc(), Tear::Keep)? == kept);
    let old = [Some([1, 1, 1, 1]), Some([1, 1, 1, 1])];
    assert!(rt; left_of_two(rt.alloc(), Tear::Old)? == old);
    let filled = [Some([9, 9, 9, 1]), Some([1, 1, 1, 9])];
    assert!(rt; left_of_two(rt.alloc(), Tear::Fill(9))? == filled);
    Ok(())
}
