//! What a thread knows of the gate. No value of these types is made: they are the views of seats.

use crate::states::{KeeperState, StripeState};
use crate::stays::Receipt;
use std::collections::LinkedList;

/// A stripe's part: its number, the era in which it is inside, the blocks whose bit it saw in this stay, and its state.
pub struct StripePart {
    pub stripe: u32,
    pub era: u32,
    pub seen: LinkedList<u32>,
    pub state: StripeState,
}

/// The keeper's part: how many words of the spare bitmap are known to be 0, and its state.
pub struct KeeperPart {
    pub cleared: u64,
    pub state: KeeperState,
}

/// A lane with its receipts, in order.
pub struct LanePart {
    pub lane: u32,
    pub receipts: LinkedList<Receipt>,
}

/// A pass: its lanes; for each stripe below which number its stays are known to have begun, and below which to have
/// ended; a number that the order word has reached; and how many events it may draw.
pub struct PassPart {
    pub lanes: LinkedList<LanePart>,
    pub begun: LinkedList<u64>,
    pub ended: LinkedList<u64>,
    pub floor: u64,
    pub budget: u64,
}

/// What one seat knows.
pub struct View {
    pub stripes: LinkedList<StripePart>,
    pub keepers: LinkedList<KeeperPart>,
    pub pass: PassPart,
}
