//! Which steps may happen.

ghost use Rattle.std.specs.Prelude.{◌≡◌, ◌↔◌, ◌≤◌, IsTrue, List, ℕ, length, option_copied, reverse};
ghost use Rattle.era_base.specs.Flags.{has};
ghost use Rattle.era_core.specs.Machine.{AllowsInside, IsInside, MayEnter, MayLeave, MayReopen, count_inside, was_kept};
ghost use Rattle.era_core.specs.KeptState.{core_of};
ghost use Rattle.era_core.specs.Present.{HaveContents, HavePast, HaveStripes};
ghost use Rattle.era_model.specs.Crashes.{MayCrash};
ghost use Rattle.era_model.specs.Marking.{held_of};
ghost use Rattle.era_model.specs.declared.history.Happening.{Happening};
ghost use Rattle.era_model.specs.History.{in_flight};

use crate::block_table::BlockTable;
use crate::flights::is_stripe_writing;
use crate::images::may_leave_contents;
use crate::lookups::session_is_open;
use crate::present::{stripe_count, stripe_of, written_stripe_of};
use crate::recovery::may_recover;
use era_base::{Bytes, MOST_STRIPES};
use era_model::{Event, FlightWrite, Happening, Images};

/// Whether the flag of the stripe is set.
pub fn is_inside(inside: &[bool], stripe: u32) -> bool
    ensures { result ≡ has inside.now stripe }
{
    match inside.get(stripe as usize) {
        Some(flag) => *flag,
        None => false,
    }
}

/// Whether the stripe, where it is known, is inside.
fn is_known_inside(inside: &[bool], stripe: Option<u32>) -> bool
    ensures { (h : List Happening) (kept : List ℕ)
        → (IsTrue result ↔ IsInside (core_of h inside.now kept) stripe) }
{
    match stripe {
        Some(stripe) => is_inside(inside, stripe),
        None => false,
    }
}

/// How many stripes are inside.
pub fn inside_count(inside: &[bool]) -> u32
    requires { length inside.now ≤ MOST_STRIPES }
    ensures value { result ≡ count_inside inside.now }
    ensures few { result ≤ length inside.now }
{
    let mut count = 0;
    for flag in inside {
        count += u32::from(*flag);
    }
    count
}

/// Whether the number is among those that were kept.
fn is_kept(kept: &[u32], number: u32) -> bool
    ensures { result ≡ was_kept kept.now number }
{
    for other in kept {
        if *other == number {
            return true;
        }
    }
    false
}

/// Whether the stripes inside allow the event.
pub fn do_stripes_allow(h: &[Happening], inside: &[bool], kept: &[u32], event: &Event) -> bool
    requires stripes { HaveStripes (reverse h.now) }
    requires few { length inside.now ≤ MOST_STRIPES }
    ensures { IsTrue result ↔ AllowsInside (core_of (reverse h.now) inside.now kept.now) event.now }
{
    match event {
        Event::Go { block, .. } => is_known_inside(inside, Some(stripe_of(h, *block))),
        Event::Done { id } => is_known_inside(inside, written_stripe_of(h, *id)),
        Event::Cut { id, faults: _ } => is_known_inside(inside, written_stripe_of(h, *id)),
        Event::Settle {
            by: _,
            cut,
            bytes: _,
        } => is_known_inside(inside, written_stripe_of(h, *cut)),
        Event::Unsettled {
            by: _,
            cut,
            faults: _,
        } => is_known_inside(inside, written_stripe_of(h, *cut)),
        Event::Roll { .. } => inside_count(inside) == 0,
        Event::Kept {
            id: _,
            inside: number,
        } => is_kept(kept, *number),
        _ => true,
    }
}

/// Whether the stripe may enter.
pub fn may_enter(h: &[Happening], inside: &[bool], kept: &[u32], stripe: u32) -> bool
    ensures { IsTrue result ↔ MayEnter (core_of (reverse h.now) inside.now kept.now) stripe }
{
    session_is_open(h) && stripe < stripe_count(h) && !is_inside(inside, stripe)
}

/// Whether the stripe may leave.
pub fn may_leave(
    h: &[Happening],
    writes: &[FlightWrite],
    inside: &[bool],
    kept: &[u32],
    stripe: u32,
) -> bool
    requires stripes { HaveStripes (reverse h.now) }
    requires flight { writes.now ≡ in_flight (reverse h.now) }
    ensures { IsTrue result ↔ MayLeave (core_of (reverse h.now) inside.now kept.now) stripe }
{
    session_is_open(h) && is_inside(inside, stripe) && !is_stripe_writing(h, writes, stripe)
}

/// Whether the next session may open with so many stripes.
pub fn may_reopen(h: &[Happening], stripes: u32) -> bool
    ensures { IsTrue result ↔ MayReopen (reverse h.now) stripes }
{
    match h.last() {
        Some(Happening::Crashed(images)) => images.marks.era < u32::MAX
            && 1 <= stripes
            && stripes <= MOST_STRIPES,
        _ => false,
    }
}

/// Whether a crash may leave the images.
pub fn may_crash(
    h: &[Happening],
    writes: &[FlightWrite],
    contents: &[Bytes],
    past: &[BlockTable],
    held: Option<&BlockTable>,
    images: &Images,
) -> bool
    requires flight { writes.now ≡ in_flight (reverse h.now) }
    requires content { HaveContents (reverse h.now) contents.now }
    requires past { HavePast (reverse h.now) past.now }
    requires held { option_copied held ≡ held_of (reverse h.now) }
    ensures { IsTrue result ↔ MayCrash (reverse h.now) images.now }
{
    may_leave_contents(h, writes, contents, images)
        && may_recover(h, past, held, &images.marks, images.held.as_ref())
}
