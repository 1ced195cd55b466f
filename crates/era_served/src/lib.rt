//! The commands that a session served one after the other, and what its journal says of them.
#![tactic(auto)]

pub mod counts;
pub mod laws;
pub mod runs;
