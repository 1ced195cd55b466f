//! What was read of a dump text.

use crate::section::Section;
use era_base::Runs;
use era_model::{EraRuns, SetList};

/// What the lines behind the first one have told so far: the archived sets that have ended, and the runs of the set that
/// hasn't, which is an archived one of era `set_era` or the current one.
#[derive(Debug, Drop)]
pub struct Reading {
    pub section: Section,
    pub array: EraRuns,
    pub archive: SetList,
    pub set_era: u32,
    pub blocks: Runs,
}
