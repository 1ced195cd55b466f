//! A durable session on one lane: the stripes of the origin and the keeper of its metadata behind one gate, and every
//! command over them.
#![tactic(auto)]

mod checkpoints;
mod closing;
pub mod laws;
mod preparing;
mod reading;
mod requests;
mod rooms;
mod serving;
mod session;
mod trails;
mod writing;

pub use closing::Ended;
pub use preparing::{PrepareError, PrepareRefusal};
pub use rooms::CommandRoom;
pub use session::Session;
pub use trails::TRAIL_ENTRIES;
