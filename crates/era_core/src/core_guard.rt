//! The guard of the machine.

ghost use Rattle.std.specs.Prelude.{◌↔◌, ◌≤◌, IsTrue, length, reverse};
ghost use Rattle.era_base.specs.declared.limits.TheConstants.{MOST_STRIPES};
ghost use Rattle.era_core.specs.KeptState.{IsKeptUp, core_of};
ghost use Rattle.era_core.specs.Machine.{IsEnabled, MayLeaveImages, MayTake};

use crate::guard::{do_stripes_allow, may_crash, may_enter, may_leave, may_reopen};
use crate::happen::may_happen;
use crate::lookups::session_is_open;
use crate::step::Step;
use crate::upkeep::Upkeep;
use era_model::{Event, Happening, Images};

/// Whether the event may be drawn.
fn may_take(h: &[Happening], inside: &[bool], kept: &[u32], upkeep: &Upkeep, event: &Event) -> bool
    requires keeps { IsKeptUp (reverse h.now) upkeep.now }
    requires few { length inside.now ≤ MOST_STRIPES }
    ensures { IsTrue result ↔ MayTake (core_of (reverse h.now) inside.now kept.now) event.now }
{
    session_is_open(h)
        && may_happen(
            h,
            upkeep.writes.as_slice(),
            upkeep.contents.as_slice(),
            &upkeep.marks,
            upkeep.held.as_ref(),
            event,
        )
        && do_stripes_allow(h, inside, kept, event)
}

/// Whether the session may end with the images.
fn may_end(h: &[Happening], inside: &[bool], kept: &[u32], upkeep: &Upkeep, images: &Images) -> bool
    requires keeps { IsKeptUp (reverse h.now) upkeep.now }
    requires few { length inside.now ≤ MOST_STRIPES }
    ensures { IsTrue result
        ↔ MayLeaveImages (core_of (reverse h.now) inside.now kept.now) images.now }
{
    session_is_open(h)
        && may_crash(
            h,
            upkeep.writes.as_slice(),
            upkeep.contents.as_slice(),
            upkeep.past.as_slice(),
            upkeep.held.as_ref(),
            images,
        )
}

/// Whether the step may happen.
pub fn is_enabled(
    h: &[Happening],
    inside: &[bool],
    kept: &[u32],
    upkeep: &Upkeep,
    step: &Step,
) -> bool
    requires keeps { IsKeptUp (reverse h.now) upkeep.now }
    requires few { length inside.now ≤ MOST_STRIPES }
    ensures { IsTrue result ↔ IsEnabled (core_of (reverse h.now) inside.now kept.now) step.now }
{
    match step {
        Step::Enter { stripe } => may_enter(h, inside, kept, *stripe),
        Step::Leave { stripe } => may_leave(h, upkeep.writes.as_slice(), inside, kept, *stripe),
        Step::Take(event) => may_take(h, inside, kept, upkeep, event),
        Step::Crash { place_images } => may_end(h, inside, kept, upkeep, place_images),
        Step::Reopen { stripes } => may_reopen(h, *stripes),
    }
}
