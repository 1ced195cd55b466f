//! What the disks of a device serve once one of its syncs has failed, and images that may not be written.

ghost use Rattle.std.specs.Prelude.{◌≡◌, IfOk};
ghost use Rattle.era_disks.specs.FileDisk.{sectors_of};

use crate::adapters::path_of;
use era_base::{Bay, Disk, Failed, Name};
use era_disks::{FileBay, FileDisk, SyncFlag};
use std::fs;
use std::fs::{File, OpenOptions};
use std::os::unix::fs::OpenOptionsExt;
use std::test::Fail;

/// A disk of two sectors of a device that can be read and written, and has no sync of data.
fn disk_without_sync(rt: &HostRuntime, name: &str, syncs: SyncFlag) -> Result<FileDisk, Fail>
    ensures { IfOk result (λ disk. sectors_of disk ≡ 2) }
{
    let file = OpenOptions::new()
        .read(true)
        .write(true)
        .open(rt, "/dev/zero")?;
    let name = Name::from_text(rt.alloc(), name)?;
    Ok(FileDisk::new(name, 0, 2, file, true, syncs))
}

#[test]
fn after_a_failed_sync_every_call_fails(rt: HostRuntime) -> Result<(), Fail> {
    let mut disk = disk_without_sync(&rt, "zero", SyncFlag::new(rt.alloc())?)?;
    let mut into = [1u8; 512];
    disk.read(0, &mut into)?;
    assert!(rt; disk.sync() == Err(Failed) && disk.faults() == 1);
    assert!(rt; disk.read(0, &mut into) == Err(Failed) && disk.faults() == 2);
    assert!(rt; disk.write(0, into.as_slice()) == Err(Failed) && disk.faults() == 3);
    assert!(rt; disk.sync() == Err(Failed) && disk.faults() == 4);
    Ok(())
}

#[test]
fn a_failed_sync_is_known_to_each_disk_of_the_device(rt: HostRuntime) -> Result<(), Fail> {
    let path = path_of(&rt, "known")?;
    fs::write(&rt, path.as_str(), [7u8; 1_024].as_slice())?;
    let file = OpenOptions::new()
        .read(true)
        .write(true)
        .open(&rt, path.as_str())?;
    let syncs = SyncFlag::new(rt.alloc())?;
    let name = Name::from_text(rt.alloc(), path.as_str())?;
    let mut out = FileDisk::new(name, 0, 2, file, true, syncs.share()?);
    let mut other = FileDisk::new(
        Name::from_text(rt.alloc(), "apart")?,
        0,
        2,
        File::open(&rt, path.as_str())?,
        true,
        SyncFlag::new(rt.alloc())?,
    );
    let mut failing = disk_without_sync(&rt, path.as_str(), syncs)?;
    let mut into = [0u8; 512];
    out.read(0, &mut into)?;
    assert!(rt; failing.sync() == Err(Failed));
    assert!(rt; out.read(0, &mut into) == Err(Failed) && out.faults() == 1);
    assert!(rt; out.write(0, into.as_slice()) == Err(Failed) && out.sync() == Err(Failed));
    assert!(rt;
        other.read(0, &mut into).is_ok() && other.sync().is_ok(),
        "of another device"
    );
    fs::remove_file(&rt, path.as_str())?;
    Ok(())
}

#[test]
fn a_write_of_what_is_open_for_reading_is_a_fault(rt: HostRuntime) -> Result<(), Fail> {
    let path = path_of(&rt, "reading")?;
    fs::write(&rt, path.as_str(), [7u8; 1_024].as_slice())?;
    let name = Name::from_text(rt.alloc(), path.as_str())?;
    let file = File::open(&rt, path.as_str())?;
    let mut disk = FileDisk::new(name, 0, 2, file, false, SyncFlag::new(rt.alloc())?);
    let mut into = [0u8; 1_024];
    disk.read(0, &mut into)?;
    assert!(rt; into == [7; 1_024] && disk.sync().is_ok());
    assert!(rt; disk.write(0, into.as_slice()) == Err(Failed) && disk.faults() == 1);
    assert!(rt;
        disk.read(1, [0u8; 512].as_mut_slice()).is_ok(),
        "and is still read"
    );
    fs::remove_file(&rt, path.as_str())?;
    Ok(())
}

#[test]
fn an_image_that_may_only_be_read_is_opened(rt: HostRuntime) -> Result<(), Fail> {
    let path = path_of(&rt, "readable")?;
    let mut create = OpenOptions::new();
    create.write(true).create_new(true).mode(0o400);
    create.open(&rt, path.as_str())?.set_len(1_024)?;
    // One that may do everything may write it all the same.
    let writable = OpenOptions::new()
        .write(true)
        .open(&rt, path.as_str())
        .is_ok();
    let mut bay = FileBay::new(rt, rt.alloc());
    let mut disk = bay.open_part(path.as_str(), 0, 2)?;
    let mut into = [1u8; 1_024];
    disk.read(0, &mut into)?;
    assert!(rt; into == [0; 1_024] && disk.sync().is_ok());
    assert!(rt; disk.write(0, into.as_slice()).is_ok() == writable);
    fs::remove_file(&rt, path.as_str())?;
    Ok(())
}
