//! Write sets: the blocks that were written in one era, a bit each.
#![tactic(auto)]

mod bit_set;
mod words;

pub use bit_set::BitSet;
