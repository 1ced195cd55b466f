//! What a session that ended accounts for: a legal journal, and devices that follow it.
#![tactic(auto)]

pub mod laws;
