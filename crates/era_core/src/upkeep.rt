//! What a core keeps beside its history, so that a step is judged without memory.

use crate::block_table::BlockTable;
use era_base::Bytes;
use era_model::FlightWrite;

/// The writes in flight (the latest first), each block's content, the marks, those of the session's moments as far as
/// they differ, and the snapshot.
#[derive(Debug, Drop)]
pub struct Upkeep {
    pub writes: Vec<FlightWrite>,
    pub contents: Vec<Bytes>,
    pub marks: BlockTable,
    pub past: Vec<BlockTable>,
    pub held: Option<BlockTable>,
}
