//! Takes the devices of a session from their bay.

ghost use Rattle.std.specs.Prelude.{◌≡◌, ℕ, ◌*◌, ◌<◌, ◌≤◌, [], Some, vec_capacity};
ghost use Rattle.era_base.specs.Bay.{KeepsSizes};
ghost use Rattle.era_opening.specs.Lending.{AsksSize, LendsMetadata, LendsPart, LendsParts, bay_refusal};
ghost use Rattle.era_session.specs.Openings.{origin_blocks};
ghost use Rattle.era_tools.specs.Around.{bay_around};

use crate::splitting::Split;
use era_base::{Bay, BayError, Geometry};
use era_line::TableLine;
use era_tools::Refusal;

/// Why a bay didn't answer.
fn refusal_of<B: Bay>(bay: &B, error: BayError) -> Refusal
    ensures { result ≡ bay_refusal (B.faults bay.now) error }
{
    match error {
        BayError::Failed => Refusal::BayFault(bay.faults()),
        BayError::Memory => Refusal::NoRoom,
    }
}

/// Asks whether the origin of a table line has as many sectors of 512 bytes as the line says. `OriginSmall` comes exactly
/// where it has fewer; `BayFault` where the bay fails, and `NoRoom` where memory is refused there.
pub fn ask_size<B: Bay>(bay: &mut B, line: &TableLine) -> Result<(), Refusal>
    ensures asked { AsksSize (bay_around B.Bay bay.old bay.new) line.now result }
    ensures sizes { KeepsSizes (B.sizes bay.old) (B.sizes bay.new) }
{
    let have = match bay.size(line.origin.as_str()) {
        Ok(have) => have,
        Err(error) => return Err(refusal_of(bay, error)),
    };
    let need = line.length;
    if have < need {
        return Err(Refusal::OriginSmall { have, need });
    }
    Ok(())
}

/// Takes the whole metadata device of a table line. `BayFault` comes where the bay fails, and `NoRoom` where memory is
/// refused there.
pub fn lend_metadata<B: Bay>(bay: &mut B, line: &TableLine) -> Result<B::D, Refusal>
    ensures lent { LendsMetadata B.D.Disk (bay_around B.Bay bay.old bay.new)
        line.now.meta result }
    ensures sizes { KeepsSizes (B.sizes bay.old) (B.sizes bay.new) }
{
    match bay.open_meta(line.meta.as_str()) {
        Ok(disk) => Ok(disk),
        Err(error) => Err(refusal_of(bay, error)),
    }
}

/// Takes the part of a number, where each but the last has `each` blocks.
fn lend_part<B: Bay>(
    bay: &mut B,
    line: &TableLine,
    geometry: &Geometry,
    each: u32,
    stripe: u32,
) -> Result<B::D, Refusal>
    requires some { stripe * each < origin_blocks geometry.now }
    requires large { (size : ℕ) → B.sizes bay.old line.now.origin ≡ Some size
        → geometry.now.sectors ≤ size }
    ensures lent { LendsPart B.D.Disk (bay_around B.Bay bay.old bay.new)
        line.now.origin geometry.now each stripe result }
    ensures sizes { KeepsSizes (B.sizes bay.old) (B.sizes bay.new) }
{
    let first_block = stripe * each;
    let blocks = each.min(geometry.blocks() - first_block);
    let size = u64::from(geometry.block_sectors());
    let first = u64::from(first_block) * size;
    let sectors = (u64::from(blocks) * size).min(geometry.sectors() - first);
    match bay.open_part(line.origin.as_str(), first, sectors) {
        Ok(part) => Ok(part),
        Err(error) => Err(refusal_of(bay, error)),
    }
}

/// Takes the parts of the origin in order, up to the first that isn't lent. There is room for all, so it takes no memory
/// of its own. `BayFault` comes where the bay fails, and `NoRoom` where memory is refused there; the parts before are then
/// in the list, still lent.
pub fn lend_parts<B: Bay>(
    bay: &mut B,
    line: &TableLine,
    geometry: &Geometry,
    split: Split,
    parts: &mut Vec<B::D>,
) -> Result<(), Refusal>
    requires none { parts.old.items ≡ [] }
    requires room { split.count ≤ vec_capacity parts.old }
    requires some { (k : ℕ) → k < split.count → k * split.each < origin_blocks geometry.now }
    requires large { (size : ℕ) × (B.sizes bay.old line.now.origin ≡ Some size)
        × (geometry.now.sectors ≤ size) }
    ensures lent { LendsParts B.D.Disk (bay_around B.Bay bay.old bay.new)
        line.now.origin geometry.now split parts.new.items result }
    ensures sizes { KeepsSizes (B.sizes bay.old) (B.sizes bay.new) }
{
    for stripe in 0..split.count {
        match lend_part(bay, line, geometry, split.each, stripe) {
            Ok(part) => parts.push_reserved(part),
            Err(refusal) => return Err(refusal),
        }
    }
    Ok(())
}
