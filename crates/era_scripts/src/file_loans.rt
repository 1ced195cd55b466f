//! Loans of one session on real files: a metadata device and sixteen parts of an origin, all out at once.

ghost use Rattle.std.specs.Prelude.{◌≡◌, ◌+◌, ◌*◌, ◌≤◌, ℕ, Some, OnOk, slice_get};
ghost use Rattle.era_base.specs.Bay.{Loan};

use crate::adapters::path_of;
use era_base::{Bay, Disk};
use era_disks::FileBay;
use std::fs;
use std::test::Fail;

/// Serves parts of two sectors of a device of 32, which are out at the same time: each one is lent, written and synced
/// before the next one is lent, and read and put back once that one was put back. A part's bytes are its first sector's
/// number.
fn serve_parts<B: Bay>(bay: &mut B, name: &str, first: u8, count: u8) -> Result<(), Fail>
    requires few { first + count * 2 ≤ 32 }
    requires size { B.sizes bay.old name.now ≡ Some 32 }
    ensures { (index : ℕ) (loan : Loan B.D) → slice_get (B.loans bay.old) index ≡ Some loan
        → OnOk result (slice_get (B.loans bay.new) index ≡ Some loan) }
{
    if count == 0 {
        return Ok(());
    }
    let mut part = bay.open_part(name, u64::from(first), 2)?;
    part.write(0, [first; 1_024].as_slice())?;
    part.sync()?;
    serve_parts(bay, name, first + 2, count - 1)?;
    let mut into = [0; 1_024];
    part.read(0, &mut into)?;
    bay.put_back(part);
    if into == [first; 1_024] {
        Ok(())
    } else {
        Err(Fail::new("a part reads otherwise than it was written"))
    }
}

/// Serves sixteen parts of an origin of 32 sectors while a metadata device of 8 is out, whose last sector is written.
fn serve_session<B: Bay>(bay: &mut B, meta: &str, origin: &str) -> Result<(), Fail> {
    let mut disk = bay.open_meta(meta)?;
    let size = bay.size(origin)?;
    if size != 32 {
        return Err(Fail::new("the origin has another size"));
    }
    serve_parts(bay, origin, 0, 16)?;
    if disk.sectors() != 8 {
        return Err(Fail::new("the metadata device has another size"));
    }
    disk.write(7, [4; 512].as_slice())?;
    disk.sync()?;
    bay.put_back(disk);
    Ok(())
}

#[test]
fn a_metadata_device_and_sixteen_parts_come_back(rt: HostRuntime) -> Result<(), Fail> {
    let meta = path_of(&rt, "loans_meta")?;
    let origin = path_of(&rt, "loans_origin")?;
    fs::write(&rt, meta.as_str(), [3u8; 4_096].as_slice())?;
    fs::write(&rt, origin.as_str(), [0u8; 16_384].as_slice())?;
    let mut bay = FileBay::new(rt, rt.alloc());
    serve_session(&mut bay, meta.as_str(), origin.as_str())?;
    let whole = bay.open_meta(origin.as_str())?;
    assert!(rt; whole.sectors() == 32 && bay.faults() == 0 && bay.first_failure().is_none());
    let bytes = fs::read(&rt, origin.as_str())?;
    for sector in 0..32usize {
        assert!(rt; bytes.get(sector * 512 + 511) == Some(&((sector / 2 * 2) as u8)));
    }
    let bytes = fs::read(&rt, meta.as_str())?;
    assert!(rt; bytes.get(3_583) == Some(&3) && bytes.get(3_584) == Some(&4));
    fs::remove_file(&rt, meta.as_str())?;
    fs::remove_file(&rt, origin.as_str())?;
    Ok(())
}
