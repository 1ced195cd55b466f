//! The keeper: the metadata of an origin behind the gate, and the entries that say what a crash may bring back of it.
#![tactic(auto)]

mod digests;
mod keeper;
pub mod laws;
mod lists;
mod marking;
mod notes;
mod snapshots;
mod storing;
mod switches;
mod tells;
mod usage;

pub use keeper::Keeper;
