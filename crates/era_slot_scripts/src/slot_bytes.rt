//! The bytes of gates, numbers and bodies, as the calls on the slots write them and as they are read.

ghost use Rattle.std.specs.Prelude.{◌≡◌, ◌≤◌, IfOk, IfSome};
ghost use Rattle.era_disks.specs.MemDisk.{history_of, sectors_of};
ghost use Rattle.era_slots.specs.Calls.{StandFor};

use crate::slot_disks::{blank, store};
use era_base::Disk;
use era_disks::MemDisk;
use era_slots::{Head, Opened, SlotError, Slots, head_of, read_slots};
use std::alloc::Global;
use std::test::Fail;

/// The slots after two commits, of the bytes 1 and 2, on a disk whose gate sectors were full of nines, which is no open
/// gate; none where a call failed.
fn stored_over_nines(alloc: Global) -> Result<Option<Slots<MemDisk>>, Fail>
    ensures { IfOk result (λ slots. IfSome slots (λ slots. (sectors_of slots.disk ≡ 456)
        × StandFor slots (history_of slots.disk).now × (slots.number ≡ 2))) }
{
    let nines = [9; 512];
    let mut disk = blank(alloc)?;
    disk.write(0, nines.as_slice())?;
    disk.write(8, nines.as_slice())?;
    let Ok(Opened::Blank(mut slots)) = Slots::open(alloc, disk) else {
        return Ok(None);
    };
    let Ok(()) = store(&mut slots, 1) else {
        return Ok(None);
    };
    let Ok(()) = store(&mut slots, 2) else {
        return Ok(None);
    };
    Ok(Some(slots))
}

/// Whether a sector is this byte and then zeros.
fn begins_alone(sector: &[u8], byte: u8) -> bool {
    match sector.split_first() {
        Some((first, rest)) => *first == byte && rest.iter().all(|other| *other == 0),
        None => false,
    }
}

/// Whether the gate sectors of slot 0 and of slot 1 are these bytes, each with zeros behind it.
fn gates_are(disk: &mut MemDisk, zero: u8, one: u8) -> Result<bool, Fail>
    requires { 24 ≤ sectors_of disk.old }
    ensures same { (history_of disk.new).now ≡ (history_of disk.old).now }
    ensures size { sectors_of disk.new ≡ sectors_of disk.old }
{
    let mut first = [9; 512];
    let mut second = [9; 512];
    disk.read(0, &mut first)?;
    disk.read(8, &mut second)?;
    Ok(begins_alone(&first, zero) && begins_alone(&second, one))
}

#[test]
fn a_gate_is_written_as_1_or_0_and_then_zeros(rt: HostRuntime) -> Result<(), Fail> {
    let Some(mut slots) = stored_over_nines(rt.alloc())? else {
        panic!(rt; "a commit failed");
    };
    assert!(rt; gates_are(&mut slots.disk, 1, 1)?, "two commits");
    assert!(rt; slots.begin().is_ok(), "begin");
    assert!(rt; gates_are(&mut slots.disk, 0, 1)?, "begin closes slot 0");
    let Ok(wiped) = Slots::wipe(slots.into_disk(), 0) else {
        panic!(rt; "the wiping failed");
    };
    let mut disk = wiped.into_disk();
    assert!(rt; gates_are(&mut disk, 0, 0)?, "wipe closes slot 1");
    Ok(())
}

#[test]
fn a_number_and_a_body_are_written_behind_the_gate(rt: HostRuntime) -> Result<(), Fail> {
    let Some(mut slots) = stored_over_nines(rt.alloc())? else {
        panic!(rt; "a commit failed");
    };
    let mut page = [9; 4_096];
    assert!(rt; slots.read_page(1, &mut page).is_ok(), "read_page");
    assert!(rt; page[512..520] == [2, 0, 0, 0, 0, 0, 0, 0], "number");
    assert!(rt; page[520..].iter().all(|byte| *byte == 2), "body");
    Ok(())
}

#[test]
fn a_wiping_leaves_a_gate_that_is_not_open(rt: HostRuntime) -> Result<(), Fail> {
    let mut sector = [3; 512];
    let mut disk = blank(rt.alloc())?;
    disk.write(8, sector.as_slice())?;
    let Ok(wiped) = Slots::wipe(disk, 1) else {
        panic!(rt; "the wiping failed");
    };
    let mut disk = wiped.into_disk();
    disk.read(8, &mut sector)?;
    assert!(rt; sector == [3; 512]);
    Ok(())
}

#[test]
fn numbers_of_a_refused_opening_are_read(rt: HostRuntime) -> Result<(), Fail> {
    let mut disk = blank(rt.alloc())?;
    let mut head = [0; 1_024];
    head[0] = 1;
    disk.write(8, head.as_slice())?;
    head[512] = 7;
    disk.write(0, head.as_slice())?;
    let Err(refusal) = Slots::open(rt.alloc(), disk) else {
        panic!(rt; "the disk was opened");
    };
    assert!(rt; refusal.error == SlotError::BadSequence(1));
    let mut disk = refusal.disk;
    let mut second = [9; 1_024];
    assert!(rt; read_slots(&mut disk, &mut head, &mut second).is_ok());
    let number_of = |number| Head {
        is_open: true,
        number,
    };
    assert!(rt; head_of(&head) == number_of(7), "slot 0");
    assert!(rt; head_of(&second) == number_of(0), "slot 1");
    Ok(())
}
