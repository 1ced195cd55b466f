//! Takes an origin from its bay.

ghost use Rattle.std.specs.Prelude.{◌≡◌};
ghost use Rattle.era_top.specs.Openings.{bay_refusal, OpensOrigin};
ghost use Rattle.era_tools.specs.Around.{bay_around};

use era_base::{Bay, BayError};
use era_line::TableLine;
use era_tools::Refusal;

/// Why a bay didn't answer.
fn refusal_of<B: Bay>(bay: &B, error: BayError) -> Refusal
    ensures { result ≡ bay_refusal (B.faults bay.now) error }
{
    match error {
        BayError::Failed => Refusal::BayFault(bay.faults()),
        BayError::Memory => Refusal::NoRoom,
    }
}

/// Takes the origin of a table line, from its first sector on and as long as the line says.
pub fn open_origin<B: Bay>(bay: &mut B, line: &TableLine) -> Result<B::D, Refusal>
    ensures { OpensOrigin
        B.D.Disk (bay_around B.Bay bay.old bay.new)
        line.now result }
{
    let name = line.origin.as_str();
    let have = match bay.size(name) {
        Ok(have) => have,
        Err(error) => return Err(refusal_of(bay, error)),
    };
    if have < line.length {
        return Err(Refusal::OriginSmall {
            have,
            need: line.length,
        });
    }
    match bay.open_part(name, 0, line.length) {
        Ok(disk) => Ok(disk),
        Err(error) => Err(refusal_of(bay, error)),
    }
}
