//! Stays of stripes in the gate, and what is told of them. No value of these types is made: views hold them.

use era_base::CmdId;
use era_model::Entry;
use std::collections::LinkedList;

/// One time that a stripe is inside: the command that entered, the stripe, the stay's number at that stripe from 0 on,
/// and the floor of the pass that entered.
pub struct Stay {
    pub id: CmdId,
    pub stripe: u32,
    pub number: u64,
    pub floor: u64,
}

/// An exchange that failed: how many stripes it found inside, and for each stripe below which number its stays were
/// known as ended.
pub struct Miss {
    pub found: u64,
    pub ended: LinkedList<u64>,
}

/// A failed exchange for which the event was drawn, and that event's place.
pub struct Told {
    pub miss: Miss,
    pub place: u64,
}

/// What a lane has for what was done for it.
pub enum Receipt {
    /// An event that was drawn.
    OfEvent(Entry),
    /// A stay that was begun.
    OfStay(Stay),
}
