//! Disks in memory of 57 metadata blocks with up to three commits on them, and what an opening finds there.

ghost use Rattle.std.specs.Prelude.{◌≡◌, ◌+◌, ◌^◌, ◌<◌, ◌≤◌, IfOk, IfSome, OnOk};
ghost use Rattle.era_disks.specs.MemDisk.{history_of, sectors_of};
ghost use Rattle.era_slots.specs.Calls.{StandFor};

use era_base::{Bytes, Memory, Name};
use era_disks::{DiskCall, Fuse, MemDisk};
use era_slots::{Opened, SlotError, Slots};
use std::alloc::Global;

/// A body: its byte, where all its bytes are alike.
#[derive(Clone, Copy, Debug, PartialEq, Eq)]
pub enum Body {
    Of(u8),
    Mixed,
}

/// What an opening found.
#[derive(Clone, Copy, Debug, PartialEq, Eq)]
pub enum Seen {
    Blank,
    Whole {
        active: u32,
        sequence: u64,
        body: Body,
        other: Option<Body>,
    },
    Refused(SlotError),
}

/// The first body alone.
pub const FIRST: Seen = Seen::Whole {
    active: 0,
    sequence: 1,
    body: Body::Of(1),
    other: None,
};

/// The second body, and the first one under the other gate.
pub const SECOND: Seen = Seen::Whole {
    active: 1,
    sequence: 2,
    body: Body::Of(2),
    other: Some(Body::Of(1)),
};

/// The second body alone.
pub const SECOND_ALONE: Seen = Seen::Whole {
    active: 1,
    sequence: 2,
    body: Body::Of(2),
    other: None,
};

/// The third body, and the second one under the other gate.
pub const THIRD: Seen = Seen::Whole {
    active: 0,
    sequence: 3,
    body: Body::Of(3),
    other: Some(Body::Of(2)),
};

/// What a body is.
fn body_in(bytes: &Bytes) -> Body {
    let bytes = bytes.as_slice();
    match bytes.first() {
        Some(byte) if bytes.iter().all(|other| other == byte) => Body::Of(*byte),
        _ => Body::Mixed,
    }
}

/// A blank disk of 57 metadata blocks.
pub fn blank(alloc: Global) -> Result<MemDisk, Memory>
    ensures { IfOk result (λ disk. sectors_of disk ≡ 456) }
{
    MemDisk::new(alloc, "meta", 456)
}

/// What opening the disk gives.
pub fn opening_of(alloc: Global, disk: MemDisk) -> Seen
    requires { 24 ≤ sectors_of disk }
{
    match Slots::open(alloc, disk) {
        Ok(Opened::Blank(_)) => Seen::Blank,
        Ok(
            Opened::Whole {
                active,
                body,
                other,
                sequence,
                ..
            },
        ) => Seen::Whole {
            active,
            sequence,
            body: body_in(&body),
            other: match &other {
                Some(other) => Some(body_in(other)),
                None => None,
            },
        },
        Err(refusal) => Seen::Refused(refusal.error),
    }
}

/// Begins and commits a body of this byte.
pub fn store(slots: &mut Slots<MemDisk>, byte: u8) -> Result<(), u64>
    requires room { 24 ≤ sectors_of slots.old.disk }
    requires stands { StandFor slots.old (history_of slots.old.disk).now }
    requires number { slots.old.number < 2 ^ 62 }
    ensures room { sectors_of slots.new.disk ≡ sectors_of slots.old.disk }
    ensures stands { StandFor slots.new (history_of slots.new.disk).now }
    ensures number { OnOk result (slots.new.number ≡ slots.old.number + 1) }
{
    let body = [byte; 3_576];
    slots.begin()?;
    slots.commit(&body)
}

/// The slots of a blank disk, none where the opening failed.
pub fn blank_slots(alloc: Global) -> Result<Option<Slots<MemDisk>>, Memory>
    ensures { IfOk result (λ slots. IfSome slots (λ slots. (sectors_of slots.disk ≡ 456)
        × StandFor slots (history_of slots.disk).now × (slots.number ≡ 0))) }
{
    let disk = blank(alloc)?;
    match Slots::open(alloc, disk) {
        Ok(Opened::Blank(slots)) => Ok(Some(slots)),
        _ => Ok(None),
    }
}

/// The slots after two commits on a blank disk, of the bytes 1 and 2; none where a call failed.
pub fn slots_stored_twice(alloc: Global) -> Result<Option<Slots<MemDisk>>, Memory>
    ensures { IfOk result (λ slots. IfSome slots (λ slots. (sectors_of slots.disk ≡ 456)
        × StandFor slots (history_of slots.disk).now × (slots.number ≡ 2))) }
{
    let Some(mut slots) = blank_slots(alloc)? else {
        return Ok(None);
    };
    let Ok(()) = store(&mut slots, 1) else {
        return Ok(None);
    };
    let Ok(()) = store(&mut slots, 2) else {
        return Ok(None);
    };
    Ok(Some(slots))
}

/// The disk after two commits on a blank one, of the bytes 1 and 2; none where a call failed.
pub fn stored_twice(alloc: Global) -> Result<Option<MemDisk>, Memory>
    ensures { IfOk result (λ disk. IfSome disk (λ disk. sectors_of disk ≡ 456)) }
{
    match slots_stored_twice(alloc)? {
        Some(slots) => Ok(Some(slots.into_disk())),
        None => Ok(None),
    }
}

/// Commits of the bytes 1, 2 and 3, up to the one that fails.
fn store_three(slots: &mut Slots<MemDisk>) -> Result<(), u64>
    requires room { 24 ≤ sectors_of slots.old.disk }
    requires stands { StandFor slots.old (history_of slots.old.disk).now }
    requires number { slots.old.number ≡ 0 }
    ensures { sectors_of slots.new.disk ≡ sectors_of slots.old.disk }
{
    store(slots, 1)?;
    store(slots, 2)?;
    store(slots, 3)
}

/// What stops three commits: a fuse at the write from this sector that has this number, or the sync of this number.
#[derive(Clone, Copy, Debug, PartialEq, Eq)]
pub enum Stop {
    Write(u64, u32),
    Sync(u64),
}

/// A blank disk after an opening and three commits, up to what stops them. Nothing is called after the failure.
pub fn cut_at(alloc: Global, stop: Stop) -> Result<MemDisk, Memory>
    ensures { IfOk result (λ disk. sectors_of disk ≡ 456) }
{
    let disk = stopping(alloc, stop)?;
    match Slots::open(alloc, disk) {
        Ok(Opened::Blank(mut slots)) => {
            match store_three(&mut slots) {
                Ok(()) => {}
                Err(_) => {}
            }
            Ok(slots.into_disk())
        }
        Ok(Opened::Whole { slots, .. }) => Ok(slots.into_disk()),
        Err(refusal) => Ok(refusal.disk),
    }
}

/// A blank disk that is to stop.
fn stopping(alloc: Global, stop: Stop) -> Result<MemDisk, Memory>
    ensures { IfOk result (λ disk. sectors_of disk ≡ 456) }
{
    let mut disk = blank(alloc)?;
    match stop {
        Stop::Write(sector, number) => {
            let device = Name::from_text(alloc, "meta")?;
            disk.set_fuse(Fuse {
                device,
                sector,
                number,
            })?;
        }
        Stop::Sync(number) => disk.fail(DiskCall::Sync, number)?,
    }
    Ok(disk)
}
