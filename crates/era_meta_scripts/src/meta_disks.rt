//! Disks in memory with metadata of an origin of 64 blocks, and what a look finds there.

ghost use Rattle.std.specs.Prelude.{◌≡◌, ◌*◌, ◌+◌, ◌<◌, ◌≤◌, IfOk, IfSome};
ghost use Rattle.era_disks.specs.MemDisk.{sectors_of};

use era_base::{Disk, Geometry, Memory};
use era_disks::MemDisk;
use era_layout::DamageKind;
use era_meta::{Meta, MetaError};
use std::alloc::Global;
use std::test::Fail;

/// What an opening found.
#[derive(Clone, Copy, Debug, PartialEq, Eq)]
pub enum Seen {
    Stored {
        era: u32,
        sequence: u64,
        is_held: bool,
    },
    Refused(MetaError),
    NoGeometry,
}

/// No gate is open.
pub const BLANK: Seen = Seen::Refused(MetaError::Unformatted);

/// A formatted disk.
pub const FORMATTED: Seen = Seen::Stored {
    era: 1,
    sequence: 1,
    is_held: false,
};

/// Marks in an era, without a snapshot, behind so many commits.
pub fn stored(era: u32, sequence: u64) -> Seen {
    Seen::Stored {
        era,
        sequence,
        is_held: false,
    }
}

/// The refusal of a disk of `have` metadata blocks where `need` are needed.
pub fn small(have: u64, need: u64) -> Seen {
    Seen::Refused(MetaError::MetaSmall { have, need })
}

/// The refusal of a disk with this damage first.
pub fn damaged(kind: DamageKind, block: u32) -> Seen {
    Seen::Refused(MetaError::Damaged { kind, block })
}

/// A blank disk of so many metadata blocks.
pub fn blank(alloc: Global, blocks: u64) -> Result<MemDisk, Memory>
    requires { blocks ≤ 400 }
    ensures { IfOk result (λ disk. sectors_of disk ≡ blocks * 8) }
{
    MemDisk::new(alloc, "meta", blocks * 8)
}

/// What the metadata tells.
fn told(meta: &Meta<MemDisk>) -> Seen {
    Seen::Stored {
        era: meta.era(),
        sequence: meta.sequence(),
        is_held: meta.held(),
    }
}

/// What a look finds on a disk.
pub fn look_of(alloc: Global, disk: MemDisk) -> Seen {
    match Meta::look(alloc, disk) {
        Ok(meta) => told(&meta),
        Err(refusal) => Seen::Refused(refusal.error),
    }
}

/// What a start for an origin of this length in blocks of this size answers, and the disk.
pub fn start_of(
    alloc: Global,
    disk: MemDisk,
    sectors: u64,
    block_sectors: u64,
) -> (Seen, Option<MemDisk>)
    ensures { IfSome result.1 (λ left. sectors_of left ≡ sectors_of disk) }
{
    let Ok(asked) = Geometry::new(sectors, block_sectors) else {
        return (Seen::NoGeometry, None);
    };
    match Meta::start(alloc, disk, asked) {
        Ok(meta) => (told(&meta), Some(meta.into_disk())),
        Err(refusal) => (Seen::Refused(refusal.error), Some(refusal.disk)),
    }
}

/// A disk of 57 metadata blocks on which an origin of 64 blocks was served so many times; none where a start failed.
pub fn served(alloc: Global, times: u32) -> Result<Option<MemDisk>, Memory> {
    let mut disk = blank(alloc, 57)?;
    for _ in 0..times {
        match start_of(alloc, disk, 512, 8) {
            (Seen::Stored { .. }, Some(left)) => disk = left,
            _ => return Ok(None),
        }
    }
    Ok(Some(disk))
}

/// Puts a byte into a metadata block.
pub fn put(disk: &mut MemDisk, block: u64, offset: usize, byte: u8) -> Result<(), Fail>
    requires block { block * 8 + 8 ≤ sectors_of disk.old }
    requires offset { offset < 4096 }
    ensures { sectors_of disk.new ≡ sectors_of disk.old }
{
    let mut page = [0; 4_096];
    disk.read(block * 8, &mut page)?;
    page[offset] = byte;
    disk.write(block * 8, &page)?;
    Ok(())
}
