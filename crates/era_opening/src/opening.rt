//! Opens a durable session on what a bay lends.

ghost use Rattle.std.specs.Prelude.{◌≡◌, ◌≢◌, ◌<◌, ◌≤◌, ℕ, ◌∷◌, ◌++◌, List, [], Some, vec_capacity};
ghost use Rattle.era_base.specs.Bay.{KeepsSizes, Loan, new_loan};
ghost use Rattle.era_opening.specs.Loans.{MayGoBack};
ghost use Rattle.era_opening.specs.Openings.{FindsGeometry, IsRoomFor, OpensLent, OpensParts, OpensSession, PreparesSession, prepare_refusal};
ghost use Rattle.era_opening.specs.Splits.{IsSplit};
ghost use Rattle.era_session.specs.Openings.{AreParts};
ghost use Rattle.era_tools.specs.Around.{bay_around};

use crate::lending::{ask_size, lend_metadata, lend_parts};
use crate::putting_back::put_back_lent;
use crate::splitting::{Split, split_origin};
use era_base::{Bay, Geometry};
use era_line::TableLine;
use era_session::{PrepareError, Session};
use era_tools::Refusal;
use std::alloc::Global;

/// The geometry of a table line's numbers.
fn geometry_of(line: &TableLine) -> Result<Geometry, Refusal>
    ensures { FindsGeometry line.now result }
{
    match Geometry::new(line.length, line.block_sectors) {
        Ok(geometry) => Ok(geometry),
        Err(error) => Err(Refusal::NoGeometry {
            error,
            size: line.block_sectors,
        }),
    }
}

/// Why no session is opened that isn't prepared.
fn refusal_of(error: PrepareError) -> Refusal
    ensures { result ≡ prepare_refusal error }
{
    match error {
        PrepareError::Data(_, count) => Refusal::DataFault(count),
        PrepareError::Meta(error) => Refusal::Metadata(error),
        PrepareError::Memory => Refusal::NoRoom,
    }
}

/// Prepares a session over devices that were lent last. Where it isn't prepared, they were put back.
fn prepare_session<B: Bay>(
    alloc: Global,
    bay: &mut B,
    geometry: Geometry,
    metadata: B::D,
    parts: Vec<B::D>,
) -> Result<Session<B::D>, Refusal>
    requires parts { AreParts B.D.Disk geometry parts.items }
    requires may { MayGoBack B.D.Disk (metadata ∷ parts.items) (B.loans bay.old) }
    ensures prepared { PreparesSession B.D.Disk (bay_around B.Bay bay.old bay.new)
        geometry metadata parts.items result }
    ensures sizes { KeepsSizes (B.sizes bay.old) (B.sizes bay.new) }
{
    match Session::prepare(alloc, geometry, metadata, parts) {
        Ok(session) => Ok(session),
        Err(refused) => {
            put_back_lent(bay, refused.metadata, refused.parts);
            Err(refusal_of(refused.error))
        }
    }
}

/// Takes the parts of the origin from the bay, and prepares a session over them and the metadata device, which was lent
/// last. Where no session is prepared, all that was lent was put back.
fn open_parts<B: Bay>(
    alloc: Global,
    bay: &mut B,
    line: &TableLine,
    geometry: Geometry,
    split: Split,
    metadata: B::D,
    mut parts: Vec<B::D>,
) -> Result<Session<B::D>, Refusal>
    requires split { (stripes : ℕ) × IsSplit geometry stripes split }
    requires large { (size : ℕ) × (B.sizes bay.old line.now.origin ≡ Some size)
        × (geometry.sectors ≤ size) }
    requires room { IsRoomFor split parts.items (vec_capacity parts) }
    requires two { (B.D.place metadata).device ≢ line.now.origin }
    requires out { (before : List (Loan B.D))
        × (B.loans bay.old ≡ before ++ new_loan metadata ∷ []) }
    ensures opened { OpensParts B.D.Disk (bay_around B.Bay bay.old bay.new)
        line.now geometry split metadata result }
    ensures sizes { KeepsSizes (B.sizes bay.old) (B.sizes bay.new) }
{
    match lend_parts(bay, line, &geometry, split, &mut parts) {
        Ok(()) => prepare_session(alloc, bay, geometry, metadata, parts),
        Err(refusal) => {
            put_back_lent(bay, metadata, parts);
            Err(refusal)
        }
    }
}

/// Takes the metadata device from the bay, and then the parts of the origin, and prepares a session over them. The memory
/// of the list of parts is taken before. Where no session is prepared, all that was lent was put back.
fn open_lent<B: Bay>(
    alloc: Global,
    bay: &mut B,
    line: &TableLine,
    geometry: Geometry,
    split: Split,
) -> Result<Session<B::D>, Refusal>
    requires split { (stripes : ℕ) × IsSplit geometry stripes split }
    requires large { (size : ℕ) × (B.sizes bay.old line.now.origin ≡ Some size)
        × (geometry.sectors ≤ size) }
    requires two { line.now.meta ≢ line.now.origin }
    ensures opened { OpensLent B.D.Disk (bay_around B.Bay bay.old bay.new)
        line.now geometry split result }
    ensures sizes { KeepsSizes (B.sizes bay.old) (B.sizes bay.new) }
{
    let Ok(parts) = Vec::with_capacity(alloc, split.count as usize) else {
        return Err(Refusal::NoRoom);
    };
    match lend_metadata(bay, line) {
        Ok(metadata) => open_parts(alloc, bay, line, geometry, split, metadata, parts),
        Err(refusal) => Err(refusal),
    }
}

/// Opens a durable session over the devices of a table line, in at most `stripes` stripes. In this order: `NoGeometry`
/// comes exactly where the line's numbers are no geometry; `SameDevice` exactly where its two names are one; `OriginSmall`
/// exactly where the origin has fewer sectors of 512 bytes than the line says. Then the metadata device is lent, and the
/// parts of the origin. `DataFault` comes where the sync of a part fails, and then `Metadata` where the metadata isn't
/// opened for serving. `BayFault` comes where the bay fails. `NoRoom` comes where memory is refused. At each refusal every
/// device that was lent was put back.
pub fn open_session<B: Bay>(
    alloc: Global,
    bay: &mut B,
    line: &TableLine,
    stripes: u32,
) -> Result<Session<B::D>, Refusal>
    requires { (0 < stripes) × (stripes ≤ 16) }
    ensures opened { OpensSession B.D.Disk (bay_around B.Bay bay.old bay.new)
        line.now stripes result }
    ensures sizes { KeepsSizes (B.sizes bay.old) (B.sizes bay.new) }
{
    let geometry = match geometry_of(line) {
        Ok(geometry) => geometry,
        Err(refusal) => return Err(refusal),
    };
    if line.meta.as_str() == line.origin.as_str() {
        return Err(Refusal::SameDevice);
    }
    if let Err(refusal) = ask_size(bay, line) {
        return Err(refusal);
    }
    let split = split_origin(&geometry, stripes);
    open_lent(alloc, bay, line, geometry, split)
}
