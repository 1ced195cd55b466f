//! A durable session over a bay, from its opening to the putting back of its devices, with the text that it gives; and what it
//! reports: its journal, its text and its status.
#![tactic(auto)]

pub mod laws;
mod lines;
mod session;

pub use session::run_session;
