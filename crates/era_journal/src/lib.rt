//! The journal of a session over the gate: the log of its acts, and what the owners of its devices say of it.
#![tactic(auto)]

pub mod acts_laws;
pub mod devices_laws;
pub mod example_laws;
mod image_format;
pub mod owners_laws;

pub use image_format::EraFormat;
