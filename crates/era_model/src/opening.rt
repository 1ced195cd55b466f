//! How a session opens.

use crate::contents::Contents;
use crate::marks::Marks;
use era_base::Geometry;

/// What a session begins with: `held` is the metadata snapshot, `total` the number of metadata blocks of the
/// status line, and `stripes` the number of stripes of the origin.
#[derive(Debug, Drop)]
pub struct Opening {
    pub geometry: Geometry,
    pub era: u32,
    pub marks: Marks,
    pub held: Option<Marks>,
    pub total: u64,
    pub stripes: u32,
    pub contents: Contents,
}
