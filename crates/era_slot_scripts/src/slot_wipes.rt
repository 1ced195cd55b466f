//! Wipings of a disk with both gates open, and what is found after a crash at each of their writes and syncs.

use crate::slot_disks::{FIRST, SECOND, Seen, opening_of, stored_twice};
use era_disks::{DiskCall, Tear};
use era_slots::Slots;
use std::alloc::Global;
use std::test::Fail;

/// What an opening finds after a crash with this tear, where this call of a disk failed that two commits were made on
/// and that was then wiped, slot 1 first; none where a commit failed. The commits make the writes 0 to 3 and, with the
/// opening, the syncs 0 to 4.
fn left_by(alloc: Global, call: DiskCall, number: u64, tear: Tear) -> Result<Option<Seen>, Fail> {
    let Some(mut disk) = stored_twice(alloc)? else {
        return Ok(None);
    };
    disk.fail(call, number)?;
    let mut disk = match Slots::wipe(disk, 1) {
        Ok(slots) => slots.into_disk(),
        Err(refusal) => refusal.disk,
    };
    disk.crash(tear)?;
    Ok(Some(opening_of(alloc, disk)))
}

/// The first of the rows whose crash leaves anything else than it says, or `None`.
fn first_unmet(
    alloc: Global,
    rows: &[(DiskCall, u64, Tear, Seen)],
) -> Result<Option<(u64, Tear)>, Fail> {
    for (call, number, tear, seen) in rows {
        if left_by(alloc, *call, *number, *tear)? != Some(*seen) {
            return Ok(Some((*number, *tear)));
        }
    }
    Ok(None)
}

#[test]
fn a_wiped_disk_is_blank(rt: HostRuntime) -> Result<(), Fail> {
    let rows = [
        (DiskCall::Write, 6, Tear::Keep, Seen::Blank),
        (DiskCall::Write, 6, Tear::Old, Seen::Blank),
        (DiskCall::Write, 6, Tear::Fill(1), Seen::Blank),
    ];
    assert_eq!(rt; first_unmet(rt.alloc(), rows.as_slice())?, None);
    Ok(())
}

#[test]
fn a_crash_at_a_sync_of_a_wiping_leaves_the_gate_named_last(rt: HostRuntime) -> Result<(), Fail> {
    let rows = [
        (DiskCall::Sync, 5, Tear::Keep, SECOND),
        (DiskCall::Sync, 5, Tear::Old, SECOND),
        (DiskCall::Sync, 5, Tear::Fill(1), SECOND),
        (DiskCall::Sync, 5, Tear::Fill(9), SECOND),
        (DiskCall::Sync, 6, Tear::Keep, FIRST),
        (DiskCall::Sync, 6, Tear::Old, SECOND),
        (DiskCall::Sync, 6, Tear::Fill(1), SECOND),
        (DiskCall::Sync, 6, Tear::Fill(9), FIRST),
        (DiskCall::Sync, 7, Tear::Keep, Seen::Blank),
        (DiskCall::Sync, 7, Tear::Old, FIRST),
        (DiskCall::Sync, 7, Tear::Fill(1), FIRST),
        (DiskCall::Sync, 7, Tear::Fill(9), Seen::Blank),
    ];
    assert_eq!(rt; first_unmet(rt.alloc(), rows.as_slice())?, None);
    Ok(())
}

#[test]
fn a_crash_at_a_write_of_a_wiping_leaves_the_gate_named_last(rt: HostRuntime) -> Result<(), Fail> {
    let rows = [
        (DiskCall::Write, 4, Tear::Keep, SECOND),
        (DiskCall::Write, 4, Tear::Old, SECOND),
        (DiskCall::Write, 4, Tear::Fill(9), FIRST),
        (DiskCall::Write, 5, Tear::Keep, FIRST),
        (DiskCall::Write, 5, Tear::Old, FIRST),
        (DiskCall::Write, 5, Tear::Fill(9), Seen::Blank),
    ];
    assert_eq!(rt; first_unmet(rt.alloc(), rows.as_slice())?, None);
    Ok(())
}
