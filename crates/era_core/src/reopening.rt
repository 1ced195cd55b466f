//! How the next session opens on what a crash left.

ghost use Rattle.std.specs.Prelude.{◌≡◌, ◌<◌, IfOk, reverse};
ghost use Rattle.era_base.specs.declared.limits.TheConstants.{LAST_ERA};
ghost use Rattle.era_core.specs.KeptState.{next_opening};
ghost use Rattle.era_core.specs.AfterSteps.{reopening};
ghost use Rattle.era_core.specs.Machine.{MayReopen};

use crate::copies::{copy_contents, copy_snapshot};
use crate::lookups::present_opening;
use crate::mark_copies::marks_after_switch;
use era_base::Memory;
use era_model::{Happening, Images, Opening};
use std::alloc::Global;

/// The opening on the images that a session left, which opened so.
fn opening_on(
    alloc: Global,
    before: &Opening,
    images: &Images,
    stripes: u32,
) -> Result<Opening, Memory>
    requires { images.now.marks.era < LAST_ERA }
    ensures { IfOk result (λ opening. opening ≡ reopening before.now images.now stripes) }
{
    Ok(Opening {
        geometry: before.geometry,
        era: images.marks.era + 1,
        marks: marks_after_switch(alloc, &images.marks)?,
        held: copy_snapshot(alloc, images.held.as_ref())?,
        total: before.total,
        stripes,
        contents: copy_contents(alloc, &images.contents)?,
    })
}

/// The opening of the next session, where a crash stands last.
pub fn next_opening(alloc: Global, h: &[Happening], stripes: u32) -> Result<Option<Opening>, Memory>
    requires { MayReopen (reverse h.now) stripes }
    ensures { IfOk result (λ opening. opening ≡ next_opening (reverse h.now) stripes) }
{
    match h.last() {
        Some(Happening::Crashed(images)) => match present_opening(h) {
            Some(before) => Ok(Some(opening_on(alloc, before, images, stripes)?)),
            None => Ok(None),
        },
        _ => Ok(None),
    }
}
