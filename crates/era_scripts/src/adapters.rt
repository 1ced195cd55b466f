//! Each adapter on a real file or stream.

use era_base::{Bay, BayError, Disk, Failed, Sink, Source};
use era_disks::{FileBay, StdSink, StdSource};
use std::fs::{File, OpenOptions};
use std::test::Fail;
use std::{env, fs, io, process};

/// A path that no other test has.
pub fn path_of(rt: &HostRuntime, name: &str) -> Result<String, Fail> {
    let folder = env::temp_dir(rt)?;
    let folder = folder.as_str();
    let id = process::id(rt.process());
    Ok(format!(in rt.alloc(); "{folder}/era_host_{id}_{name}")?)
}

#[test]
fn a_part_lies_at_its_place_in_the_file(rt: HostRuntime) -> Result<(), Fail> {
    let path = path_of(&rt, "part")?;
    fs::write(&rt, path.as_str(), [7u8; 2_100].as_slice())?;
    let mut bay = FileBay::new(rt, rt.alloc());
    let size = bay.size(path.as_str())?;
    assert!(rt; size == 4);
    let mut disk = bay.open_part(path.as_str(), 1, 2)?;
    disk.write(1, [9u8; 512].as_slice())?;
    disk.sync()?;
    let mut into = [0u8; 1_024];
    disk.read(0, &mut into)?;
    bay.put_back(disk);
    assert!(rt; into[511] == 7 && into[512] == 9 && into[1_023] == 9);
    let bytes = fs::read(&rt, path.as_str())?;
    assert!(rt; bytes.len() == 2_100);
    assert!(rt; bytes[1_023] == 7 && bytes[1_024] == 9 && bytes[1_535] == 9 && bytes[1_536] == 7);
    assert!(rt; bay.faults() == 0 && bay.first_failure().is_none());
    fs::remove_file(&rt, path.as_str())?;
    Ok(())
}

#[test]
fn what_is_missing_or_locked_is_a_fault(rt: HostRuntime) -> Result<(), Fail> {
    let path = path_of(&rt, "locked")?;
    let mut bay = FileBay::new(rt, rt.alloc());
    assert!(rt; bay.size(path.as_str()) == Err(BayError::Failed), "missing");
    assert!(rt; bay.size("/tmp") == Err(BayError::Failed), "a folder");
    fs::write(&rt, path.as_str(), [0u8; 1_024].as_slice())?;
    let other = OpenOptions::new()
        .read(true)
        .write(true)
        .open(&rt, path.as_str())?;
    other.try_lock()?;
    assert!(rt; bay.size(path.as_str()) == Err(BayError::Failed), "locked");
    other.unlock()?;
    assert!(rt;
        bay.size(path.as_str()) == Ok(2) && other.try_lock().is_err(),
        "locks"
    );
    assert!(rt; bay.faults() == 3);
    fs::remove_file(&rt, path.as_str())?;
    Ok(())
}

#[test]
fn what_is_lent_or_has_shrunk_is_a_fault(rt: HostRuntime) -> Result<(), Fail> {
    let path = path_of(&rt, "shrunk")?;
    fs::write(&rt, path.as_str(), [0u8; 1_024].as_slice())?;
    let mut bay = FileBay::new(rt, rt.alloc());
    let disk = bay.open_meta(path.as_str())?;
    assert!(rt; disk.sectors() == 2);
    assert!(rt;
        bay.open_meta(path.as_str()).is_err() && bay.faults() == 1,
        "lent already"
    );
    let mut other = FileBay::new(rt, rt.alloc());
    assert!(rt;
        other.open_meta(path.as_str()).is_err() && other.faults() == 1,
        "locked"
    );
    drop(other);
    drop(bay);
    drop(disk);
    let mut bay = FileBay::new(rt, rt.alloc());
    assert!(rt; bay.size(path.as_str()) == Ok(2));
    let file = OpenOptions::new().write(true).open(&rt, path.as_str())?;
    file.set_len(600)?;
    assert!(rt;
        bay.open_meta(path.as_str()).is_err() && bay.faults() == 1,
        "shrunk"
    );
    fs::remove_file(&rt, path.as_str())?;
    Ok(())
}

#[test]
fn a_stream_that_fails_is_a_fault(rt: HostRuntime) -> Result<(), Fail> {
    let (reader, writer) = io::pipe(&rt)?;
    let mut sink = StdSink::new(writer);
    sink.give(b"ab".as_slice())?;
    let mut source = StdSource::new(reader);
    let mut into = [0u8; 8];
    assert!(rt; source.take(&mut into) == Ok(2) && into[0] == b'a' && into[1] == b'b');
    drop(source);
    assert!(rt;
        sink.give(b"c".as_slice()) == Err(Failed) && sink.faults() == 1,
        "a closed pipe"
    );
    assert!(rt; sink.first_failure().is_some());
    let mut folder = StdSource::new(File::open(&rt, "/tmp")?);
    assert!(rt;
        folder.take(&mut into) == Err(Failed) && folder.faults() == 1,
        "a folder"
    );
    let mut full = StdSink::new(OpenOptions::new().write(true).open(&rt, "/dev/full")?);
    assert!(rt; full.give(b"c".as_slice()) == Err(Failed), "a full device");
    Ok(())
}
