//! One list of each kind, filled and read.

use era_base::{CmdId, Runs};
use era_model::{Entry, EntryList, EraRuns, Event, MarkedSet, SetList};
use std::test::*;

#[test]
fn lists_keep_what_was_pushed(rt: HostRuntime) -> Result<(), Fail> {
    let mut eras = EraRuns::new(rt.alloc());
    eras.push(0, 3, 1)?;
    eras.push(4, 4, 2)?;
    assert_eq!(rt; eras.as_slice().len(), 2);
    let mut sets = SetList::new(rt.alloc());
    sets.push(MarkedSet {
        era: 1,
        blocks: Runs::new(rt.alloc()),
    })?;
    assert_eq!(rt; sets.as_slice().len(), 1);
    let mut entries = EntryList::new(rt.alloc());
    entries.push(Entry {
        place: 0,
        event: Event::Done {
            id: CmdId { lane: 0, number: 0 },
        },
    })?;
    assert_eq!(rt; entries.as_slice().len(), 1);
    Ok(())
}
