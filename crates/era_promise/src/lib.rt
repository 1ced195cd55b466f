//! The promise of a session: from a legal journal that its devices follow, what marks list after a crash at any place.
#![tactic(auto)]

pub mod example_laws;
mod image_meaning;
pub mod laws;
pub mod owner_laws;

pub use image_meaning::ImageMeaning;
