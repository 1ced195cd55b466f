//! How many reads, writes and syncs each call on the slots makes, as the disk counts them.

ghost use Rattle.std.specs.Prelude.{◌≡◌};
ghost use Rattle.era_disks.specs.MemDisk.{history_of, sectors_of};
ghost use Rattle.era_slots.specs.Calls.{StandFor};

use crate::slot_disks::{Stop, blank, blank_slots, cut_at, slots_stored_twice, stored_twice};
use era_base::Disk;
use era_disks::{MemDisk, Tear};
use era_slots::Slots;
use std::test::Fail;

/// The reads, the writes and the syncs that a disk has begun.
fn begun(disk: &MemDisk) -> [u64; 3] {
    [
        disk.calls.reads.begun(),
        disk.calls.writes.begun(),
        disk.calls.syncs.begun(),
    ]
}

/// The reads, the writes and the syncs since then.
fn begun_since(before: [u64; 3], disk: &MemDisk) -> [u64; 3] {
    let now = begun(disk);
    [
        now[0].saturating_sub(before[0]),
        now[1].saturating_sub(before[1]),
        now[2].saturating_sub(before[2]),
    ]
}

/// A call on the slots.
#[derive(Clone, Copy)]
enum Call {
    Begin,
    PutPage,
    Commit,
    ReadPage,
}

/// Makes a call; a page or a body is put only where the gate is known to be closed.
fn make(slots: &mut Slots<MemDisk>, call: Call) -> Result<(), u64>
    requires room { sectors_of slots.old.disk ≡ 456 }
    requires stands { StandFor slots.old (history_of slots.old.disk).now }
    ensures room { sectors_of slots.new.disk ≡ 456 }
    ensures stands { StandFor slots.new (history_of slots.new.disk).now }
{
    let mut page = [5; 4_096];
    let is_begun = !slots.may_be_open;
    match call {
        Call::Begin => slots.begin(),
        Call::PutPage if is_begun => slots.put_page(3, &page),
        Call::Commit if is_begun && slots.number < 100 => slots.commit(page.split_at(3_576).0),
        Call::ReadPage => slots.read_page(3, &mut page),
        _ => Err(0),
    }
}

/// The reads, the writes and the syncs of a call; none where it failed.
fn calls_of(slots: &mut Slots<MemDisk>, call: Call) -> Option<[u64; 3]>
    requires room { sectors_of slots.old.disk ≡ 456 }
    requires stands { StandFor slots.old (history_of slots.old.disk).now }
    ensures room { sectors_of slots.new.disk ≡ 456 }
    ensures stands { StandFor slots.new (history_of slots.new.disk).now }
{
    let before = begun(&slots.disk);
    let Ok(()) = make(slots, call) else {
        return None;
    };
    Some(begun_since(before, &slots.disk))
}

/// The reads, the writes and the syncs of wiping a disk; none where it failed.
fn calls_of_wiping(disk: MemDisk) -> Option<[u64; 3]>
    requires { sectors_of disk ≡ 456 }
{
    let before = begun(&disk);
    match Slots::wipe(disk, 0) {
        Ok(slots) => Some(begun_since(before, &slots.disk)),
        Err(_) => None,
    }
}

#[test]
fn calls_on_slots_are_counted(rt: HostRuntime) -> Result<(), Fail> {
    let mut counts = [None; 7];
    if let Some(mut slots) = blank_slots(rt.alloc())? {
        counts = [
            Some(begun(&slots.disk)),
            calls_of(&mut slots, Call::Begin),
            calls_of(&mut slots, Call::PutPage),
            calls_of(&mut slots, Call::Commit),
            calls_of(&mut slots, Call::ReadPage),
            calls_of(&mut slots, Call::Begin),
            calls_of(&mut slots, Call::Commit),
        ];
    }
    assert!(rt; counts[0] == Some([2, 0, 1]), "open");
    assert!(rt;
        counts[1] == Some([0, 0, 0]),
        "begin, the gate known to be closed"
    );
    assert!(rt; counts[2] == Some([0, 1, 0]), "put_page");
    assert!(rt; counts[3] == Some([0, 2, 2]), "commit");
    assert!(rt; counts[4] == Some([1, 0, 0]), "read_page");
    assert!(rt; counts[5] == Some([0, 0, 0]), "the second begin");
    assert!(rt; counts[6] == Some([0, 2, 2]), "the second commit");
    Ok(())
}

#[test]
fn the_third_begin_writes_sector_0_and_syncs(rt: HostRuntime) -> Result<(), Fail> {
    let mut before = [9; 512];
    let mut after = [9; 512];
    let mut calls = None;
    if let Some(mut slots) = slots_stored_twice(rt.alloc())? {
        slots.disk.read(0, &mut before)?;
        calls = calls_of(&mut slots, Call::Begin);
        slots.disk.read(0, &mut after)?;
    }
    assert!(rt; calls == Some([0, 1, 1]));
    assert!(rt; before[0] == 1 && after == [0; 512]);
    Ok(())
}

#[test]
fn calls_of_a_wiping_are_counted(rt: HostRuntime) -> Result<(), Fail> {
    assert!(rt;
        calls_of_wiping(blank(rt.alloc())?) == Some([2, 0, 1]),
        "no gate is open"
    );
    let mut one = cut_at(rt.alloc(), Stop::Write(9, 0))?;
    one.crash(Tear::Keep)?;
    assert!(rt; calls_of_wiping(one) == Some([2, 1, 2]), "slot 0 is open");
    let mut both = None;
    if let Some(disk) = stored_twice(rt.alloc())? {
        both = calls_of_wiping(disk);
    }
    assert!(rt; both == Some([2, 2, 3]), "both are open");
    Ok(())
}
