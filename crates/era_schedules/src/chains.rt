//! A chain of three sessions with failing devices and two crashes, which the machine accepts whole.

use crate::moves::Move::{
    Crash, Cut, Digest, Done, Dropped, Enter, Go, Leave, List, Mark, Read, Refused, Reopen, Roll,
    Snap, Tried,
};
use crate::moves::{Move, steps_of};
use crate::small_images::{Archived, Left, Marked};
use crate::small_sessions::small_core;
use era_core::run;
use era_model::{Event, Happening, Kind, Opening, Why};
use std::alloc::Global;
use std::test::Fail;

/// A session in which a write is done, a snapshot is taken and dropped, a second write of the same sector fails, and a
/// write asks for the mark of block 1 without getting it.
const FIRST: [Move; 11] = [
    Enter(0),
    Tried(0, 0, 1),
    Mark(0, 0, 1),
    Go(0, 0, 1),
    Done(0),
    Snap(1, 2),
    Dropped(2),
    Go(3, 0, 1),
    Cut(3, 1),
    Tried(4, 1, 1),
    Refused(4, Kind::Write, Why::MetaFault(1)),
];

/// A crash in the middle of the failed write: it left other bytes in its sector. The marks have block 1 all the same.
const TORN: Left = Left {
    sectors: [0x77, 0],
    marks: Marked {
        era: 1,
        array: None,
        archived: Archived::None,
        current: Some((0, 1)),
    },
    held: None,
};

/// A session in which both blocks are merged into the array, and the era moves in memory alone.
const SECOND: [Move; 7] = [
    List(0, 1, Some((0, 1))),
    Read(1, 0, 0x77),
    Digest(2, 1, Some(0)),
    Digest(3, 1, None),
    Roll(4, 3),
    Refused(4, Kind::Checkpoint, Why::MetaFault(1)),
    Refused(5, Kind::List, Why::MetaFault(2)),
];

/// A crash that leaves the marks of the era before.
const EARLIER: Left = Left {
    sectors: [0x77, 0],
    marks: Marked {
        era: 2,
        array: Some((0, 1, 1)),
        archived: Archived::None,
        current: None,
    },
    held: None,
};

/// A session with one more write of the sector, in era 3.
const THIRD: [Move; 11] = [
    Enter(1),
    Enter(0),
    Tried(0, 0, 3),
    Mark(0, 0, 3),
    Go(0, 0, 3),
    Done(0),
    Read(1, 0, 0xaa),
    List(2, 1, Some((0, 1))),
    List(3, 2, Some((0, 0))),
    Leave(1),
    List(4, 4, None),
];

/// All steps of the chain.
fn chain(alloc: Global) -> Result<Vec<Move>, Fail> {
    let mut steps = Vec::from_slice(alloc, FIRST.as_slice())?;
    steps.extend_from_slice([Crash(TORN), Reopen(2)].as_slice())?;
    steps.extend_from_slice(SECOND.as_slice())?;
    steps.extend_from_slice([Crash(EARLIER), Reopen(4)].as_slice())?;
    steps.extend_from_slice(THIRD.as_slice())?;
    Ok(steps)
}

/// The letter of an event in a reply.
fn letter_of(event: &Event) -> u8 {
    match event {
        Event::Tried { .. } => b't',
        Event::Mark { .. } => b'm',
        Event::Go { .. } => b'g',
        Event::Done { .. } => b'd',
        Event::Cut { .. } => b'c',
        Event::Settle { .. } => b's',
        Event::Unsettled { .. } => b'u',
        Event::Read { .. } => b'r',
        Event::Roll { .. } => b'e',
        Event::Kept { .. } => b'k',
        Event::Snap { .. } => b'p',
        Event::Dropped { .. } => b'x',
        Event::Digest { .. } => b'a',
        Event::List { .. } => b'l',
        Event::Status { .. } => b'q',
        Event::Refused { .. } => b'f',
    }
}

/// The journals of a history: of an opening the last digit of its era, of an event its letter, and of a crash a dash.
fn journals_of(alloc: Global, happenings: &[Happening]) -> Result<Vec<u8>, Fail> {
    let mut letters = Vec::new(alloc);
    for happening in happenings {
        let letter = match happening {
            Happening::Opened(opening) => b'0' + (opening.era % 10) as u8,
            Happening::Happened(event) => letter_of(event),
            Happening::Crashed(_) => b'-',
        };
        letters.push(letter)?;
    }
    Ok(letters)
}

/// The last opening.
fn last_opening(happenings: &[Happening]) -> Option<&Opening> {
    let mut last = None;
    for happening in happenings {
        if let Happening::Opened(opening) = happening {
            last = Some(opening);
        }
    }
    last
}

#[test]
fn a_chain_with_failures_and_crashes_is_accepted(rt: HostRuntime) -> Result<(), Fail> {
    let steps = steps_of(rt.alloc(), chain(rt.alloc())?.as_slice())?;
    let core = run(rt.alloc(), small_core(rt.alloc())?, steps.as_slice())?;
    let journals = journals_of(rt.alloc(), core.happenings())?;
    assert!(rt; journals.as_slice() == b"1tmgdpxgctf-2lraaeff-3tmgdrlll".as_slice());
    let opening = last_opening(core.happenings()).ok_or("no session opened")?;
    assert_eq!(rt; opening.stripes, 4);
    assert!(rt; opening.held.is_none());
    assert_eq!(rt; opening.marks.last_era(0), 1);
    assert_eq!(rt; opening.marks.last_era(1), 1);
    assert_eq!(rt; opening.marks.last_era(2), 0);
    Ok(())
}
