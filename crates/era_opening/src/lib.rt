//! What the opening of a durable session takes from a bay, and how its devices are put back: the origin's size is asked,
//! the metadata device and the parts of the origin are lent, one part for each stripe, a session is opened on them, and at
//! the end all go back.
#![tactic(auto)]

pub mod laws;
mod lending;
mod opening;
mod putting_back;
mod splitting;

pub use lending::{ask_size, lend_metadata, lend_parts};
pub use opening::open_session;
pub use putting_back::{put_back_devices, put_back_lent, put_back_session};
pub use splitting::{Split, split_origin};
