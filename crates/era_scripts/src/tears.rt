//! Small scripts of calls, and the images that each tear leaves of them, which are written down by hand.

use era_base::Disk;
use era_disks::{DiskCall, MemBay, MemDisk, Tear};
use std::alloc::Global;
use std::test::Fail;

/// One call of a script on a disk of four sectors: a write of so many sectors from the first one on, each filled with
/// the byte; or a sync.
#[derive(Clone, Copy)]
enum Call {
    Write(u64, usize, u8),
    Sync,
}

/// Makes a call, whether it fails or not.
fn make(disk: &mut MemDisk, call: Call) {
    let answer = match call {
        Call::Write(first, count, byte) => {
            let bytes = [byte; 2_048];
            if 0 < count
                && count <= 4
                && first <= 4
                && disk.sectors() == 4
                && first as usize + count <= 4
            {
                disk.write(first, bytes.split_at(count * 512).0)
            } else {
                Ok(())
            }
        }
        Call::Sync => disk.sync(),
    };
    match answer {
        Ok(()) => {}
        Err(_) => {}
    }
}

/// The first byte and the last one of each of the four sectors.
fn ends(disk: &mut MemDisk) -> Result<[u8; 8], Fail> {
    let mut ends = [0; 8];
    if disk.sectors() == 4 {
        let mut into = [0; 2_048];
        disk.read(0, &mut into)?;
        ends = [
            into[0],
            into[511],
            into[512],
            into[1_023],
            into[1_024],
            into[1_535],
            into[1_536],
            into[2_047],
        ];
    }
    Ok(ends)
}

/// What a crash with this tear leaves of a disk of zeros after the calls, of which one may fail.
fn left_by(
    alloc: Global,
    failing: Option<(DiskCall, u64)>,
    calls: &[Call],
    tear: Tear,
) -> Result<[u8; 8], Fail> {
    let mut disk = MemDisk::new(alloc, "meta", 4)?;
    if let Some((call, number)) = failing {
        disk.fail(call, number)?;
    }
    for call in calls {
        make(&mut disk, *call);
    }
    disk.crash(tear)?;
    ends(&mut disk)
}

#[test]
fn overlapping_writes_are_torn(rt: HostRuntime) -> Result<(), Fail> {
    let calls = [
        Call::Write(0, 3, 1),
        Call::Sync,
        Call::Write(1, 2, 2),
        Call::Write(2, 2, 3),
    ];
    let calls = calls.as_slice();
    let left = |tear| left_by(rt.alloc(), None, calls, tear);
    assert!(rt; left(Tear::Keep)? == [1, 1, 2, 2, 3, 3, 3, 3]);
    assert!(rt; left(Tear::Old)? == [1, 1, 1, 1, 1, 1, 0, 0]);
    assert!(rt; left(Tear::Fill(9))? == [1, 1, 9, 9, 9, 9, 9, 9]);
    Ok(())
}

#[test]
fn a_failed_write_is_pending(rt: HostRuntime) -> Result<(), Fail> {
    let calls = [Call::Write(0, 2, 1), Call::Sync, Call::Write(1, 2, 2)];
    let calls = calls.as_slice();
    let failing = Some((DiskCall::Write, 1));
    let left = |tear| left_by(rt.alloc(), failing, calls, tear);
    assert!(rt; left(Tear::Keep)? == [1, 1, 1, 1, 0, 0, 0, 0]);
    assert!(rt; left(Tear::Old)? == [1, 1, 1, 1, 0, 0, 0, 0]);
    assert!(rt; left(Tear::Fill(9))? == [1, 1, 9, 9, 9, 9, 0, 0]);
    Ok(())
}

#[test]
fn a_failed_sync_leaves_all_pending(rt: HostRuntime) -> Result<(), Fail> {
    let calls = [
        Call::Write(0, 2, 1),
        Call::Sync,
        Call::Write(1, 1, 2),
        Call::Sync,
    ];
    let calls = calls.as_slice();
    let failing = Some((DiskCall::Sync, 0));
    let cut = calls.split_at(2).0;
    assert!(rt; left_by(rt.alloc(), failing, cut, Tear::Keep)? == [1, 1, 1, 1, 0, 0, 0, 0]);
    assert!(rt; left_by(rt.alloc(), failing, cut, Tear::Old)? == [0; 8]);
    assert!(rt; left_by(rt.alloc(), failing, cut, Tear::Fill(9))? == [9, 9, 9, 9, 0, 0, 0, 0]);
    assert!(rt; left_by(rt.alloc(), failing, calls, Tear::Old)? == [1, 1, 2, 2, 0, 0, 0, 0]);
    assert!(rt; left_by(rt.alloc(), failing, calls, Tear::Fill(9))? == [1, 1, 2, 2, 0, 0, 0, 0]);
    Ok(())
}

#[test]
fn after_a_crash_nothing_is_pending(rt: HostRuntime) -> Result<(), Fail> {
    let mut disk = MemDisk::new(rt.alloc(), "meta", 4)?;
    make(&mut disk, Call::Write(1, 2, 5));
    disk.crash(Tear::Keep)?;
    disk.crash(Tear::Fill(9))?;
    assert!(rt; ends(&mut disk)? == [0, 0, 5, 5, 5, 5, 0, 0]);
    disk.crash(Tear::Old)?;
    assert!(rt; ends(&mut disk)? == [0, 0, 5, 5, 5, 5, 0, 0]);
    Ok(())
}

#[test]
fn a_device_of_zeros_stays_one(rt: HostRuntime) -> Result<(), Fail> {
    let mut bay = MemBay::new(rt.alloc());
    bay.add("meta", 1)?;
    bay.crash("meta", Tear::Fill(9))?;
    let content = bay.content(rt.alloc(), "meta")?;
    let zeros = [0; 512];
    let same = match &content {
        Some(bytes) => bytes.as_slice() == zeros.as_slice(),
        None => false,
    };
    assert!(rt; same);
    Ok(())
}
