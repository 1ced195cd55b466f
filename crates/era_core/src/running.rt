//! A whole list of steps.

ghost use Rattle.std.specs.Prelude.{◌≡◌, ℕ, Err, IfErr, IfOk};
ghost use Rattle.era_core.specs.AfterSteps.{Run};
ghost use Rattle.era_core.specs.Machine.{opened_core};
ghost use Rattle.era_core.specs.Schedules.{IsSchedule};
ghost use Rattle.era_core.specs.KeptState.{HasStopped};
ghost use Rattle.era_model.specs.Legal.{IsOpening};
ghost use Rattle.era_model.specs.declared.opening.Opening.{Opening};

use crate::machine::Core;
use crate::step::{CoreStop, Step};
use std::alloc::Global;

/// Takes the steps one after another. It answers with the core after all of them, or `NotEnabled` with the index of the
/// first one that may not happen, or `Memory`. Where it refuses, the core is dropped.
pub fn run(alloc: Global, mut core: Core, steps: &[Step]) -> Result<Core, CoreStop>
    ensures ran { IfOk result (λ last. Run core steps.now last) }
    ensures stopped { IfErr result (HasStopped core steps.now) }
    ensures schedule { (opening : Opening) → IsOpening opening → core ≡ opened_core opening
        → IfOk result (λ last. IsSchedule opening steps.now last) }
{
    for (index, step) in steps.iter().enumerate() {
        if !core.enabled(step) {
            return Err(CoreStop::NotEnabled(index));
        }
        let Ok(()) = core.step(alloc, step) else {
            return Err(CoreStop::Memory);
        };
    }
    Ok(core)
}
