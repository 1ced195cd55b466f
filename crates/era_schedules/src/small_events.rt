//! Events with few arguments. The first one is the number of the command, whose lane is 0.

use era_base::{Bytes, CmdId, Memory, Runs};
use era_model::{Event, Kind, Why};
use std::alloc::Global;

/// The command of lane 0 with this number.
fn named(number: u32) -> CmdId {
    CmdId { lane: 0, number }
}

/// So many bytes of the same value.
fn filled(alloc: Global, byte: u8, count: usize) -> Result<Bytes, Memory> {
    Ok(Bytes::from_vec(vec![in alloc; byte; count]?))
}

/// The blocks from the first to the last one, if there are some.
fn run_of(alloc: Global, blocks: Option<(u32, u32)>) -> Result<Runs, Memory> {
    let mut runs = Runs::new(alloc);
    if let Some((first, last)) = blocks {
        if first <= last {
            runs.push(first, last)?;
        }
    }
    Ok(runs)
}

pub fn tried(id: u32, block: u32, era: u32) -> Event {
    let id = named(id);
    Event::Tried { id, block, era }
}

pub fn mark(id: u32, block: u32, era: u32) -> Event {
    let id = named(id);
    Event::Mark { id, block, era }
}

/// A write of so many bytes `aa` from sector `first` of the block on.
pub fn go(
    alloc: Global,
    id: u32,
    block: u32,
    era: u32,
    first: u32,
    count: usize,
) -> Result<Event, Memory> {
    Ok(Event::Go {
        id: named(id),
        block,
        era,
        first,
        bytes: filled(alloc, 0xaa, count)?,
    })
}

pub fn done(id: u32) -> Event {
    Event::Done { id: named(id) }
}

pub fn cut(id: u32, faults: u64) -> Event {
    let id = named(id);
    Event::Cut { id, faults }
}

/// So many bytes `cc` are read back.
pub fn settle(alloc: Global, by: u32, cut: u32, count: usize) -> Result<Event, Memory> {
    Ok(Event::Settle {
        by: named(by),
        cut: named(cut),
        bytes: filled(alloc, 0xcc, count)?,
    })
}

pub fn unsettled(by: u32, cut: u32, faults: u64) -> Event {
    Event::Unsettled {
        by: named(by),
        cut: named(cut),
        faults,
    }
}

/// A read of so many bytes `byte` from the sector on.
pub fn read(alloc: Global, id: u32, sector: u64, byte: u8, count: usize) -> Result<Event, Memory> {
    Ok(Event::Read {
        id: named(id),
        sector,
        bytes: filled(alloc, byte, count)?,
    })
}

pub fn roll(id: u32, era: u32) -> Event {
    let id = named(id);
    Event::Roll { id, era }
}

pub fn kept(id: u32, inside: u32) -> Event {
    let id = named(id);
    Event::Kept { id, inside }
}

pub fn snap(id: u32, block: u32) -> Event {
    let id = named(id);
    Event::Snap { id, block }
}

pub fn dropped(id: u32) -> Event {
    Event::Dropped { id: named(id) }
}

pub fn digest(id: u32, era: u32, page: Option<u32>) -> Event {
    let id = named(id);
    Event::Digest { id, era, page }
}

/// A list of one run of blocks, or of none, by the snapshot where `snap` says so.
pub fn list(
    alloc: Global,
    id: u32,
    since: u32,
    snap: bool,
    blocks: Option<(u32, u32)>,
) -> Result<Event, Memory> {
    Ok(Event::List {
        id: named(id),
        since,
        snap,
        blocks: run_of(alloc, blocks)?,
    })
}

pub fn status(id: u32, used: u32, total: u64, era: u32, held: Option<u32>) -> Event {
    Event::Status {
        id: named(id),
        used,
        total,
        era,
        held,
    }
}

pub fn refused(id: u32, kind: Kind, why: Why) -> Event {
    let id = named(id);
    Event::Refused { id, kind, why }
}
