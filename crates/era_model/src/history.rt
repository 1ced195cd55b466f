//! What happens over sessions in a row.

use crate::contents::Contents;
use crate::event::Event;
use crate::marks::Marks;
use crate::opening::Opening;

/// What a crash, or the end of a session, leaves: the origin's contents, and the marks and the snapshot of the
/// metadata disk.
#[derive(Debug, Drop)]
pub struct Images {
    pub contents: Contents,
    pub marks: Marks,
    pub held: Option<Marks>,
}

/// A session opened, an event was drawn, or a crash left images. A history is a list of these, the latest first.
#[derive(Debug, Drop)]
pub enum Happening {
    Opened(Opening),
    Happened(Event),
    Crashed(Images),
}
