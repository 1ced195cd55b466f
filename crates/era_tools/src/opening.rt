//! Opens the metadata device of a closed image, and puts it back.

ghost use Rattle.std.specs.Prelude.{◌≡◌};
ghost use Rattle.era_tools.specs.Around.{bay_around};
ghost use Rattle.era_tools.specs.ClosedImages.{LendsMetadata, OpensMetadata};

use crate::refusal::Refusal;
use era_base::{Bay, BayError};
use era_meta::Meta;
use std::alloc::Global;

/// Takes the whole metadata device of this name from its bay.
pub fn lend_metadata<B: Bay>(name: &str, bay: &mut B) -> Result<B::D, Refusal>
    ensures { LendsMetadata B.D.Disk (bay_around B.Bay bay.old bay.new) name.now result }
{
    match bay.open_meta(name) {
        Ok(disk) => Ok(disk),
        Err(BayError::Failed) => Err(Refusal::BayFault(bay.faults())),
        Err(BayError::Memory) => Err(Refusal::NoRoom),
    }
}

/// Opens the metadata on the device of this name without writing to it. Where it isn't opened, the device was put back.
pub fn open_metadata<B: Bay>(alloc: Global, name: &str, bay: &mut B) -> Result<Meta<B::D>, Refusal>
    ensures { OpensMetadata B.D.Disk (bay_around B.Bay bay.old bay.new) name.now result }
{
    let disk = match lend_metadata(name, bay) {
        Ok(disk) => disk,
        Err(refusal) => return Err(refusal),
    };
    match Meta::look(alloc, disk) {
        Ok(meta) => Ok(meta),
        Err(refused) => {
            bay.put_back(refused.disk);
            Err(Refusal::Metadata(refused.error))
        }
    }
}
