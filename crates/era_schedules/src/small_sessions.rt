//! The opening of a small first session, in era 1 or in another one, and the machine at it.

ghost use Rattle.std.specs.Prelude.{◌≡◌, ◌≤◌, IfOk};
ghost use Rattle.era_model.specs.Legal.{IsOpening};
ghost use Rattle.era_model.specs.PlainCalls.{TellsAllBytes};
ghost use Rattle.era_model.specs.Validity.{AreValidMarks};

use era_base::{Bytes, Geometry, Runs};
use era_core::Core;
use era_model::{Contents, EraRuns, Marks, Opening, SetList};
use std::alloc::Global;
use std::test::Fail;

/// Marks of no block, in the era.
fn no_marks(alloc: Global, geometry: Geometry, era: u32) -> Marks
    requires { 1 ≤ era }
    ensures valid { AreValidMarks result }
    ensures geometry { (result.sectors ≡ geometry.sectors)
        × (result.block_sectors ≡ geometry.block_sectors) }
    ensures era { result.era ≡ era }
{
    Marks {
        geometry,
        era,
        array: EraRuns::new(alloc),
        archive: SetList::new(alloc),
        current: Runs::new(alloc),
    }
}

/// A first session with 4 stripes over 64 blocks of 8 sectors, all zeros.
pub fn small_opening(alloc: Global) -> Result<Opening, Fail>
    ensures { IfOk result (λ opening. TellsAllBytes opening × IsOpening opening) }
{
    opening_in(alloc, 1)
}

/// The same in the era.
fn opening_in(alloc: Global, era: u32) -> Result<Opening, Fail>
    requires { 1 ≤ era }
    ensures { IfOk result (λ opening. TellsAllBytes opening × IsOpening opening) }
{
    let geometry = Geometry::new(512, 8)?;
    let zeros = Bytes::from_vec(vec![in alloc; 0; 262_144]?);
    Ok(Opening {
        geometry,
        era,
        marks: no_marks(alloc, geometry, era),
        held: None,
        total: 57,
        stripes: 4,
        contents: Contents { bytes: Some(zeros) },
    })
}

/// The machine at this opening.
pub fn small_core(alloc: Global) -> Result<Core, Fail> {
    core_in(alloc, 1)
}

/// The machine at such an opening in the era, or in era 1 in the place of 0.
pub fn core_in(alloc: Global, era: u32) -> Result<Core, Fail> {
    let opening = opening_in(alloc, era.max(1))?;
    Ok(Core::new(alloc, opening)?)
}
