//! A stripe: a range of the origin's blocks on a disk of its own, and the entries that say what the disk holds.
#![tactic(auto)]

mod cut_write;
pub mod laws;
mod notes;
mod reads;
mod refusals;
mod settles;
mod stays;
mod steps;
mod stripe;
mod writes;

pub use cut_write::CutWrite;
pub use stripe::Stripe;
