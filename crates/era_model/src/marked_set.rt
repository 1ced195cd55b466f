//! The archived write sets.

use era_base::{Items, Runs};

/// The blocks that were marked in an era that has ended.
#[derive(Debug, Drop)]
pub struct MarkedSet {
    pub era: u32,
    pub blocks: Runs,
}

/// Archived sets, the oldest first.
pub type SetList = Items<MarkedSet>;
