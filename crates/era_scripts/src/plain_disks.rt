//! A disk that never fails, a bay of such disks, and a sink with room.

use era_base::{Bay, BayError, Disk, Sink};
use era_disks::{PlainBay, PlainDisk, TextSink};
use std::test::Fail;

#[test]
fn a_plain_disk_reads_what_was_written(rt: HostRuntime) -> Result<(), Fail> {
    let mut disk = PlainDisk::new(rt.alloc(), "origin", 4)?;
    let mut into = [1; 1_024];
    if disk.sectors() == 4 {
        disk.write(1, [7; 1_024].as_slice())?;
        disk.sync()?;
        disk.write(2, [9; 512].as_slice())?;
        disk.read(1, &mut into)?;
    }
    assert!(rt; into[0] == 7 && into[511] == 7 && into[512] == 9 && into[1_023] == 9);
    if disk.sectors() == 4 {
        disk.read(0, &mut into)?;
    }
    assert!(rt; into[0] == 0 && into[511] == 0 && into[512] == 7);
    assert!(rt; disk.faults() == 0);
    Ok(())
}

#[test]
fn a_plain_bay_lends_a_part_and_takes_it_back(rt: HostRuntime) -> Result<(), Fail> {
    let mut bay = PlainBay::new(rt.alloc());
    bay.add("origin", 4)?;
    let mut disk = bay.open_part("origin", 1, 2)?;
    disk.write(1, [9; 512].as_slice())?;
    disk.sync()?;
    bay.put_back(disk);
    let mut after = [0; 2_048];
    after[1_024..1_536].fill(9);
    let content = bay.content(rt.alloc(), "origin")?;
    let same = match &content {
        Some(bytes) => bytes.as_slice() == after.as_slice(),
        None => false,
    };
    assert!(rt; same && bay.faults() == 0);
    let mut whole = bay.open_meta("origin")?;
    let mut into = [1; 512];
    if whole.sectors() == 4 {
        whole.read(2, &mut into)?;
    }
    assert!(rt; into[0] == 9 && into[511] == 9);
    Ok(())
}

#[test]
fn what_a_plain_bay_lacks_or_has_lent_is_a_fault(rt: HostRuntime) -> Result<(), Fail> {
    let mut bay = PlainBay::new(rt.alloc());
    bay.add("origin", 4)?;
    let disk = bay.open_part("origin", 1, 2)?;
    assert!(rt; bay.size("meta") == Err(BayError::Failed) && bay.faults() == 1);
    let second = match bay.open_part("origin", 2, 2) {
        Err(BayError::Failed) => true,
        _ => false,
    };
    assert!(rt; second && bay.faults() == 2);
    let part = bay.open_part("origin", 3, 1)?;
    assert!(rt; disk.sectors() == 2 && part.sectors() == 1 && bay.faults() == 2);
    Ok(())
}

#[test]
fn a_sink_with_room_takes_what_fits(rt: HostRuntime) -> Result<(), Fail> {
    let mut sink = TextSink::with_room(rt.alloc(), 6)?;
    assert!(rt; sink.give(b"era".as_slice()).is_ok());
    assert!(rt; sink.give(b"ctl".as_slice()).is_ok());
    assert!(rt; sink.given() == b"eractl".as_slice() && sink.faults() == 0);
    Ok(())
}
