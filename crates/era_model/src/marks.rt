//! What a metadata image means.

ghost use Rattle.era_base.specs.Geometry.{blocks_of};
ghost use Rattle.era_model.specs.Marks.{BlockMarks};
ghost use Rattle.era_model.specs.MarkRuns.{AreWithin, marks_of_runs};

use crate::era_runs::EraRuns;
use crate::marked_set::SetList;
use era_base::{Geometry, Runs};
use std::marker::Model;

/// The marks of a metadata image, as runs. No run is past the end of the geometry's blocks. A contract sees
/// the marks block by block.
#[derive(Debug, Drop)]
pub struct Marks {
    pub geometry: Geometry,
    pub era: u32,
    pub array: EraRuns,
    pub archive: SetList,
    pub current: Runs,
}

impl Model for Marks {
    ghost Value = { BlockMarks };

    ghost view = { λ m. marks_of_runs m.geometry m.era m.array m.archive m.current };

    ghost invariant = { λ m. AreWithin (blocks_of m.geometry.sectors m.geometry.block_sectors) m.array m.archive m.current };
}
