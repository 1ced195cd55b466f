//! The journal of one session.

use crate::entry::EntryList;
use crate::opening::Opening;

/// An opening, and the entries of the session in the order of their places 0, 1, 2 and so on.
#[derive(Debug, Drop)]
pub struct Journal {
    pub opening: Opening,
    pub entries: EntryList,
}
