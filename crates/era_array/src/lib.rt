//! The era array: for each block the era in which it was last written, as far as write sets were merged into it.
#![tactic(auto)]

mod era_array;
mod since;

pub use era_array::EraArray;
