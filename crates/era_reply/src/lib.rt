//! The reply of a command: its answer, as its events fix it, and the trail of these events.
#![tactic(auto)]

mod answers;
mod letters;
mod replies;
mod runs;

pub use replies::give_reply;
pub use runs::give_runs;
