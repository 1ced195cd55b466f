//! Checks a metadata image.

ghost use Rattle.std.specs.Prelude.{◌≡◌};
ghost use Rattle.era_meta.specs.Openings.{Tried};
ghost use Rattle.era_meta.specs.Trials.{look_trials};
ghost use Rattle.era_check.specs.Checks.{IsCleanAs, checked_of, refusal_in};

use crate::checked::Checked;
use era_base::Disk;
use era_meta::{Meta, MetaError};
use std::alloc::Global;

// What a check finds where a look refuses. A look never refuses a geometry, an era or a number of commits.
fn checked(error: MetaError) -> Checked
    ensures { result ≡ checked_of error }
{
    match error {
        MetaError::MetaSmall { have, need } => Checked::MetaSmall { have, need },
        MetaError::Fault(count) => Checked::Fault(count),
        MetaError::Unformatted => Checked::Unformatted,
        MetaError::Damaged { kind, block } => Checked::Damage { kind, block },
        MetaError::Memory
        | MetaError::WrongGeometry { .. }
        | MetaError::EraEnd
        | MetaError::SequenceEnd(_) => Checked::Memory,
    }
}

/// Checks the metadata image on a disk, which is handed back: it is clean exactly where a look opens it, and else it has
/// what the look refuses, with the same first damage. It syncs, reads, and writes nothing.
pub fn check<D: Disk>(alloc: Global, disk: D) -> (D, Checked)
    ensures tried { Tried D.Disk look_trials disk result.0 (refusal_in result.1) }
    ensures clean { IsCleanAs D.Disk disk result.1 }
{
    match Meta::look(alloc, disk) {
        Ok(meta) => {
            let (used, _, era, _) = meta.status();
            (meta.slots.into_disk(), Checked::Clean { era, used })
        }
        Err(refusal) => (refusal.disk, checked(refusal.error)),
    }
}
