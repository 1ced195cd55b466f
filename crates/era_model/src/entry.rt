//! Events with their places.

use crate::event::Event;
use era_base::Items;

/// An event, and the number that it drew.
#[derive(Debug, Drop)]
pub struct Entry {
    pub place: u64,
    pub event: Event,
}

/// Entries in order.
pub type EntryList = Items<Entry>;
