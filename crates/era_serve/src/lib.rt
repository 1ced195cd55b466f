//! The rounds of a command stream, served over a durable session on one lane: each of them is answered before the next one
//! is read.
#![tactic(auto)]

mod answers;
mod lanes;
mod memory;
mod replies;
mod round;
mod rounds;
mod stop;

pub use rounds::serve_rounds;
pub use stop::{Stop, Stopped};
