//! The metadata's superblock in two slots, each with a commit flag of its own: after a crash at any moment the old
//! body or the new one is there, and never a mixture.
#![tactic(auto)]

mod commit;
mod heads;
pub mod laws;
mod look;
mod opened;
mod opening;
mod sectors;
mod slots;
mod steps;
mod wiping;

pub use heads::{Head, head_of};
pub use look::read_slots;
pub use opened::{Opened, SlotError, SlotRefusal};
pub use slots::Slots;
