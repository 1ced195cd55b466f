//! The checker of metadata images: what an image holds, or its first damage.
#![tactic(auto)]

mod checked;
mod checking;

pub use checked::Checked;
pub use checking::check;
