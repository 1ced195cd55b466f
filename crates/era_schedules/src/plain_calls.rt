//! The plain calls over the journal of two writes and a read.

ghost use Rattle.std.specs.Prelude.{◌≤◌, IfOk};
ghost use Rattle.era_model.specs.PlainCalls.{TellsAllBytes};

use crate::small_sessions::small_opening;
use era_base::{Bytes, CmdId, Memory};
use era_model::{Entry, EntryList, Event, Journal, asked_since, changed_since, content_at};
use std::alloc::Global;
use std::test::*;

/// A sector of the same byte.
fn sector_of(alloc: Global, byte: u8) -> Result<Bytes, Memory> {
    Ok(Bytes::from_vec(vec![in alloc; byte; 512]?))
}

/// What the two writes leave in sectors 0 and 1.
fn two_sectors(alloc: Global) -> Result<Bytes, Memory> {
    let mut bytes = vec![in alloc; 0xaa; 512]?;
    bytes.extend_from_slice([0xbb; 512].as_slice())?;
    Ok(Bytes::from_vec(bytes))
}

/// A write of this byte to a sector of block 0, acknowledged. Its first event has this place.
fn write_sector(
    alloc: Global,
    entries: &mut EntryList,
    place: u64,
    number: u32,
    first: u32,
    byte: u8,
) -> Result<(), Memory>
    requires { place ≤ 100 }
{
    let id = CmdId { lane: 0, number };
    let bytes = sector_of(alloc, byte)?;
    entries.push(Entry {
        place,
        event: Event::Go {
            id,
            block: 0,
            era: 1,
            first,
            bytes,
        },
    })?;
    entries.push(Entry {
        place: place + 1,
        event: Event::Done { id },
    })
}

/// Two writes of block 0, the first of which marks it, and a read.
fn two_writes_and_a_read(alloc: Global) -> Result<Journal, Fail>
    ensures { IfOk result (λ journal. TellsAllBytes journal.opening) }
{
    let id = CmdId { lane: 0, number: 0 };
    let mut entries = EntryList::new(alloc);
    entries.push(Entry {
        place: 0,
        event: Event::Tried {
            id,
            block: 0,
            era: 1,
        },
    })?;
    entries.push(Entry {
        place: 1,
        event: Event::Mark {
            id,
            block: 0,
            era: 1,
        },
    })?;
    write_sector(alloc, &mut entries, 2, 0, 0, 0xaa)?;
    write_sector(alloc, &mut entries, 4, 1, 1, 0xbb)?;
    entries.push(Entry {
        place: 6,
        event: Event::Read {
            id: CmdId { lane: 0, number: 2 },
            sector: 0,
            bytes: two_sectors(alloc)?,
        },
    })?;
    Ok(Journal {
        opening: small_opening(alloc)?,
        entries,
    })
}

/// A request for the block's mark in the era.
fn request(place: u64, number: u32, block: u32, era: u32) -> Entry {
    let id = CmdId { lane: 0, number };
    Entry {
        place,
        event: Event::Tried { id, block, era },
    }
}

/// A request for the mark of block 0 in era 1, a switch, and a request for that of block 1 in era 2.
fn two_requests(alloc: Global) -> Result<Journal, Fail>
    ensures { IfOk result (λ journal. TellsAllBytes journal.opening) }
{
    let mut entries = EntryList::new(alloc);
    entries.push(request(0, 0, 0, 1))?;
    entries.push(Entry {
        place: 1,
        event: Event::Roll {
            id: CmdId { lane: 0, number: 1 },
            era: 2,
        },
    })?;
    entries.push(request(2, 2, 1, 2))?;
    Ok(Journal {
        opening: small_opening(alloc)?,
        entries,
    })
}

/// A place of a journal, an era, and the runs of blocks that are told of them.
type Told<'a> = (u64, u32, &'a [(u32, u32)]);

/// Whether a mark of just these blocks was asked for, in each row.
fn has_asked(alloc: Global, journal: &Journal, rows: &[Told<'_>]) -> Result<bool, Memory>
    requires { TellsAllBytes journal.now.opening }
{
    for (place, era, runs) in rows {
        if *place > journal.entries.as_slice().len() as u64 {
            return Ok(false);
        }
        if asked_since(alloc, journal, *place, *era)?.as_slice() != *runs {
            return Ok(false);
        }
    }
    Ok(true)
}

/// Whether the content of just these blocks has changed, in each row.
fn has_changed(alloc: Global, journal: &Journal, rows: &[Told<'_>]) -> Result<bool, Memory>
    requires { TellsAllBytes journal.now.opening }
{
    for (place, era, runs) in rows {
        if *place > journal.entries.as_slice().len() as u64 {
            return Ok(false);
        }
        if changed_since(alloc, journal, *place, *era)?.as_slice() != *runs {
            return Ok(false);
        }
    }
    Ok(true)
}

/// What two writes leave in a block of zeros.
fn two_sectors_and_zeros(alloc: Global) -> Result<Bytes, Memory> {
    let mut bytes = vec![in alloc; 0xaa; 512]?;
    bytes.extend_from_slice([0xbb; 512].as_slice())?;
    bytes.extend_from_slice([0; 3_072].as_slice())?;
    Ok(Bytes::from_vec(bytes))
}

/// Whether block 0 has these bytes at the place.
fn has_content(alloc: Global, journal: &Journal, place: u64, bytes: &[u8]) -> Result<bool, Memory>
    requires { TellsAllBytes journal.now.opening }
{
    if place > journal.entries.as_slice().len() as u64 {
        return Ok(false);
    }
    Ok(content_at(alloc, journal, place, 0)?.as_slice() == bytes)
}

static REQUESTS: [Told<'static>; 3] = [(3, 1, &[(0, 1)]), (3, 2, &[(1, 1)]), (3, 3, &[])];

#[test]
fn asked_since_an_era_has_the_requests_of_later_ones(rt: HostRuntime) -> Result<(), Fail> {
    let journal = two_requests(rt.alloc())?;
    assert!(rt; has_asked(rt.alloc(), &journal, REQUESTS.as_slice())?);
    Ok(())
}

static CHANGES: [Told<'static>; 2] = [(7, 1, &[(0, 0)]), (7, 2, &[])];

static MARKS: [Told<'static>; 2] = [(7, 1, &[(0, 0)]), (0, 1, &[])];

#[test]
fn plain_calls_tell_what_was_written(rt: HostRuntime) -> Result<(), Fail> {
    let journal = two_writes_and_a_read(rt.alloc())?;
    let expected = two_sectors_and_zeros(rt.alloc())?;
    assert!(rt; has_content(rt.alloc(), &journal, 6, expected.as_slice())?);
    assert!(rt; has_changed(rt.alloc(), &journal, CHANGES.as_slice())?);
    assert!(rt; has_asked(rt.alloc(), &journal, MARKS.as_slice())?);
    Ok(())
}
