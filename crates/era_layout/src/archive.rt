//! The archived write sets.

use crate::page_list::PageList;
use era_base::{MOST_SETS, ReservedList};

/// A write set whose era has ended: the era, and the pages that hold the set's bits.
#[derive(Debug, Drop)]
pub struct Archived {
    pub era: u32,
    pub pages: PageList,
}

/// As many sets as can be archived.
const ROOM: usize = MOST_SETS as usize;

/// Archived sets, the oldest first, with room for as many as there can be: `take_first` takes the oldest, whose pages
/// may then be those of another set.
pub type ArchiveList = ReservedList<Archived, { ROOM }>;
