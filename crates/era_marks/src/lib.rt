//! The marks of a session in memory: which blocks were written in which era.
#![tactic(auto)]

mod listing;
mod room;
mod session_marks;
mod write_set;

pub use session_marks::SessionMarks;
