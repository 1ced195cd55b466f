//! A root: all that one state of the metadata consists of.

use crate::archive::ArchiveList;
use crate::page_list::PageList;
use era_base::Geometry;

/// A root: the origin's geometry, the current era, whether a snapshot is held, and where the pages of the era array, of
/// the current write set and of the archived ones stand.
#[derive(Debug, Drop)]
pub struct Root {
    pub geometry: Geometry,
    pub era: u32,
    pub held: bool,
    pub array: PageList,
    pub current: PageList,
    pub archive: ArchiveList,
}
