//! Steps of the machine, spelled with few arguments.

use crate::small_events::{
    cut, digest, done, dropped, go, kept, list, mark, read, refused, roll, settle, snap, status,
    tried, unsettled,
};
use crate::small_images::{Left, blank_images, images_of};
use era_core::Step;
use era_model::{Event, Images, Kind, Why};
use std::alloc::Global;
use std::test::Fail;

/// A step. Of an event the first argument is the number of its command, whose lane is 0.
#[derive(Clone, Copy)]
pub enum Move {
    /// The stripe.
    Enter(u32),
    /// The stripe.
    Leave(u32),
    /// The block and the era.
    Tried(u32, u32, u32),
    /// The block and the era.
    Mark(u32, u32, u32),
    /// The block and the era. The write is of the block's first sector.
    Go(u32, u32, u32),
    /// The first sector and the count of bytes. The write is of block 0 in era 1.
    GoFrom(u32, u32, usize),
    Done(u32),
    /// The count of faults.
    Cut(u32, u64),
    /// The command whose write was cut, and the count of bytes.
    Settle(u32, u32, usize),
    /// The command whose write was cut, and the count of faults.
    Unsettled(u32, u32, u64),
    /// The sector and its byte.
    Read(u32, u64, u8),
    /// The first sector and the count of bytes, which are zeros.
    ReadZeros(u32, u64, usize),
    /// The era.
    Roll(u32, u32),
    /// The number of stripes.
    Kept(u32, u32),
    /// The metadata block.
    Snap(u32, u32),
    Dropped(u32),
    /// The era and the page.
    Digest(u32, u32, Option<u32>),
    /// The era, and the first and the last block.
    List(u32, u32, Option<(u32, u32)>),
    /// The same by the snapshot.
    ListSnap(u32, u32, Option<(u32, u32)>),
    /// The used and all metadata blocks, the era, and the block of the snapshot.
    Status(u32, u32, u64, u32, Option<u32>),
    Refused(u32, Kind, Why),
    Crash(Left),
    /// The sectors of an origin and of a block, and the count of bytes: zeros, and marks of no block in era 1.
    CrashBlank(u64, u64, usize),
    /// The number of stripes.
    Reopen(u32),
}

/// The step that is spelled so.
pub fn step_of(alloc: Global, spelled: Move) -> Result<Step, Fail> {
    let event = match spelled {
        Move::Enter(stripe) => return Ok(Step::Enter { stripe }),
        Move::Leave(stripe) => return Ok(Step::Leave { stripe }),
        Move::Crash(left) => return Ok(crash(images_of(alloc, left)?)),
        Move::CrashBlank(sectors, block_sectors, count) => {
            return Ok(crash(blank_images(alloc, sectors, block_sectors, count)?));
        }
        Move::Reopen(stripes) => return Ok(Step::Reopen { stripes }),
        Move::Tried(id, block, era) => tried(id, block, era),
        Move::Mark(id, block, era) => mark(id, block, era),
        Move::Go(id, block, era) => go(alloc, id, block, era, 0, 512)?,
        Move::GoFrom(id, first, count) => go(alloc, id, 0, 1, first, count)?,
        Move::Done(id) => done(id),
        Move::Cut(id, faults) => cut(id, faults),
        Move::Settle(by, id, count) => settle(alloc, by, id, count)?,
        Move::Unsettled(by, id, faults) => unsettled(by, id, faults),
        Move::Read(id, sector, byte) => read(alloc, id, sector, byte, 512)?,
        Move::ReadZeros(id, sector, count) => read(alloc, id, sector, 0, count)?,
        Move::Roll(id, era) => roll(id, era),
        Move::Kept(id, inside) => kept(id, inside),
        Move::Snap(id, block) => snap(id, block),
        Move::Dropped(id) => dropped(id),
        Move::Digest(id, era, page) => digest(id, era, page),
        Move::List(id, since, blocks) => list(alloc, id, since, false, blocks)?,
        Move::ListSnap(id, since, blocks) => list(alloc, id, since, true, blocks)?,
        Move::Status(id, used, total, era, held) => status(id, used, total, era, held),
        Move::Refused(id, kind, why) => refused(id, kind, why),
    };
    Ok(Step::Take(event))
}

/// A crash that leaves this.
fn crash(place_images: Images) -> Step {
    Step::Crash { place_images }
}

/// All of the steps.
pub fn steps_of(alloc: Global, spelled: &[Move]) -> Result<Vec<Step>, Fail> {
    let mut steps = Vec::new(alloc);
    for one in spelled {
        steps.push(step_of(alloc, *one)?)?;
    }
    Ok(steps)
}
