//! Starts that are stopped at each write and each sync, and what a look finds after a crash.

use crate::meta_disks::{BLANK, FORMATTED, Seen, look_of, served, start_of, stored};
use era_base::{Memory, Name};
use era_disks::{DiskCall, Fuse, MemDisk, Tear};
use std::alloc::Global;
use std::test::Fail;

/// What stops a start: a fuse at its first write from this sector, or the sync of this number, which is counted from the
/// first start of the disk on.
#[derive(Clone, Copy, Debug, PartialEq, Eq)]
enum Stop {
    Write(u64),
    Sync(u64),
}

/// Where a start stops, what the crash leaves of pending sectors, and what a look finds then.
type Row = (Stop, Tear, Seen);

/// A disk after so many starts that is to stop; none where one of them failed.
fn stopping(alloc: Global, times: u32, stop: Stop) -> Result<Option<MemDisk>, Memory> {
    let Some(mut disk) = served(alloc, times)? else {
        return Ok(None);
    };
    disk.crash(Tear::Keep)?;
    match stop {
        Stop::Write(sector) => disk.set_fuse(Fuse {
            device: Name::from_text(alloc, "meta")?,
            sector,
            number: 0,
        })?,
        Stop::Sync(number) => disk.fail(DiskCall::Sync, number)?,
    }
    Ok(Some(disk))
}

/// What a look finds where a start is stopped behind so many others.
fn left_by(alloc: Global, times: u32, stop: Stop, tear: Tear) -> Result<Option<Seen>, Memory> {
    let Some(disk) = stopping(alloc, times, stop)? else {
        return Ok(None);
    };
    let (_, Some(mut left)) = start_of(alloc, disk, 512, 8) else {
        return Ok(None);
    };
    left.crash(tear)?;
    Ok(Some(look_of(alloc, left)))
}

/// The first of the rows that leaves anything else than it says, or `None`.
fn first_unmet(alloc: Global, times: u32, rows: &[Row]) -> Result<Option<Row>, Memory> {
    for (stop, tear, seen) in rows {
        if left_by(alloc, times, *stop, *tear)? != Some(*seen) {
            return Ok(Some((*stop, *tear, *seen)));
        }
    }
    Ok(None)
}

#[test]
fn a_blank_disk_is_blank_or_formatted(rt: HostRuntime) -> Result<(), Fail> {
    let rows = [
        (Stop::Write(24), Tear::Fill(1), BLANK),
        (Stop::Write(32), Tear::Fill(1), BLANK),
        (Stop::Write(1), Tear::Fill(1), BLANK),
        (Stop::Sync(1), Tear::Keep, BLANK),
        (Stop::Sync(1), Tear::Fill(1), BLANK),
        (Stop::Write(0), Tear::Old, BLANK),
        (Stop::Write(0), Tear::Fill(1), FORMATTED),
        (Stop::Write(0), Tear::Fill(9), BLANK),
        (Stop::Sync(2), Tear::Keep, FORMATTED),
        (Stop::Sync(2), Tear::Old, BLANK),
    ];
    assert_eq!(rt; first_unmet(rt.alloc(), 0, rows.as_slice())?, None);
    Ok(())
}

#[test]
fn a_formatted_disk_is_of_this_era_or_the_next(rt: HostRuntime) -> Result<(), Fail> {
    let rows = [
        (Stop::Write(168), Tear::Fill(1), FORMATTED),
        (Stop::Write(176), Tear::Fill(1), FORMATTED),
        (Stop::Write(184), Tear::Fill(1), FORMATTED),
        (Stop::Write(9), Tear::Fill(1), FORMATTED),
        (Stop::Sync(4), Tear::Fill(1), FORMATTED),
        (Stop::Write(8), Tear::Old, FORMATTED),
        (Stop::Write(8), Tear::Fill(1), stored(2, 2)),
        (Stop::Sync(5), Tear::Keep, stored(2, 2)),
        (Stop::Sync(5), Tear::Old, FORMATTED),
    ];
    assert_eq!(rt; first_unmet(rt.alloc(), 1, rows.as_slice())?, None);
    Ok(())
}

#[test]
fn an_older_slot_is_closed_first(rt: HostRuntime) -> Result<(), Fail> {
    let rows = [
        (Stop::Write(0), Tear::Old, stored(2, 2)),
        (Stop::Write(0), Tear::Fill(9), stored(2, 2)),
        (Stop::Sync(7), Tear::Keep, stored(2, 2)),
        (Stop::Write(24), Tear::Fill(1), stored(2, 2)),
        (Stop::Write(1), Tear::Fill(1), stored(2, 2)),
        (Stop::Sync(8), Tear::Fill(1), stored(2, 2)),
        (Stop::Sync(9), Tear::Keep, stored(3, 3)),
        (Stop::Sync(9), Tear::Old, stored(2, 2)),
    ];
    assert_eq!(rt; first_unmet(rt.alloc(), 2, rows.as_slice())?, None);
    Ok(())
}
