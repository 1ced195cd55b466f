//! Whether an event of a write may be drawn next.

ghost use Rattle.std.specs.Prelude.{◌≡◌, ◌↔◌, ◌+◌, ◌*◌, ◌/◌, IsTrue, Some, option_copied, reverse};
ghost use Rattle.era_core.specs.Present.{HaveStripes};
ghost use Rattle.era_model.specs.Conditions.{MayBeCut, MayFinish, MayGo, MayKeep, MayMark, MaySettle, MayStayCut, MaySwitch, MayTry};
ghost use Rattle.era_model.specs.History.{at_opening, in_flight};
ghost use Rattle.era_model.specs.SessionRun.{place_now};
ghost use Rattle.era_model.specs.declared.event.Event.TheVariants.{Tried};

use crate::counts::part_count_ascends;
use crate::flights::{is_cut_off, is_stripe_writing, is_under_way, written_len};
use crate::lookups::{has_trace, is_marked, last_event_of, present_era, present_opening};
use crate::present::{block_count, place_of, stripe_count, stripe_of, written_stripe_of};
use crate::trace::Trace;
use era_base::CmdId;
use era_model::{Event, FlightWrite, Happening};

/// Whether a write may ask for its block's mark.
pub fn may_try(h: &[Happening], block: u32, era: u32) -> bool
    ensures { IsTrue result ↔ MayTry (reverse h.now) block era }
{
    block < block_count(h) && era == present_era(h) && !is_marked(h, block, era)
}

/// Whether the event is that the command asked for the block's mark in the era.
fn is_request(event: Option<&Event>, id: CmdId, block: u32, era: u32) -> bool
    ensures { IsTrue result ↔ (option_copied event.entry ≡ Some (Tried id block era)) }
{
    match event {
        Some(
            Event::Tried {
                id: other,
                block: tried,
                era: asked,
            },
        ) => *other == id && *tried == block && *asked == era,
        _ => false,
    }
}

/// Whether a mark may be stored.
pub fn may_mark(h: &[Happening], id: CmdId, block: u32, era: u32) -> bool
    ensures { IsTrue result ↔ MayMark (reverse h.now) id block era }
{
    block < block_count(h)
        && era == present_era(h)
        && is_request(last_event_of(h, id), id, block, era)
}

/// Whether so many bytes from the first sector of the block on lie in the block.
fn is_place(h: &[Happening], block: u32, first: u32, len: usize) -> bool
    ensures { IsTrue result ↔ (place_now (reverse h.now)
        (at_opening 0 (λ o. block * o.geometry.block_sectors + first) (reverse h.now)) (len / 512)
        ≡ Some (block, first)) }
{
    place_of(h, sector_of(h, block, first), len as u64 / 512) == Some((block, first))
}

/// The sector of the origin that is the block's sector `first`, 0 before the first session.
fn sector_of(h: &[Happening], block: u32, first: u32) -> u64
    ensures { result
        ≡ at_opening 0 (λ o. block * o.geometry.block_sectors + first) (reverse h.now) }
{
    match present_opening(h) {
        Some(opening) => u64::from(block) * u64::from(opening.geometry.block_sectors())
            + u64::from(first),
        None => 0,
    }
}

/// Whether a write may be issued.
pub fn may_go(
    h: &[Happening],
    writes: &[FlightWrite],
    id: CmdId,
    block: u32,
    era: u32,
    first: u32,
    bytes: &[u8],
) -> bool
    requires stripes { HaveStripes (reverse h.now) }
    requires flight { writes.now ≡ in_flight (reverse h.now) }
    ensures { IsTrue result ↔ MayGo (reverse h.now) id block era first bytes.now }
{
    block < block_count(h)
        && bytes.len() % 512 == 0
        && is_place(h, block, first, bytes.len())
        && is_marked(h, block, era)
        && era == present_era(h)
        && !is_stripe_writing(h, writes, stripe_of(h, block))
        && !has_trace(h, Trace::Go, id)
}

/// Whether a write may be acknowledged.
pub fn may_finish(h: &[Happening], writes: &[FlightWrite], id: CmdId) -> bool
    requires flight { writes.now ≡ in_flight (reverse h.now) }
    ensures { IsTrue result ↔ MayFinish (reverse h.now) id }
{
    is_under_way(writes, id)
}

/// Whether a write may be cut.
pub fn may_be_cut(h: &[Happening], writes: &[FlightWrite], id: CmdId, faults: u64) -> bool
    requires stripes { HaveStripes (reverse h.now) }
    requires flight { writes.now ≡ in_flight (reverse h.now) }
    ensures { IsTrue result ↔ MayBeCut (reverse h.now) id faults }
{
    is_under_way(writes, id) && part_count_ascends(h, written_stripe_of(h, id), faults)
}

/// Whether a cut write may be resolved.
pub fn may_settle(h: &[Happening], writes: &[FlightWrite], cut: CmdId, bytes: &[u8]) -> bool
    requires flight { writes.now ≡ in_flight (reverse h.now) }
    ensures { IsTrue result ↔ MaySettle (reverse h.now) cut bytes.now }
{
    is_cut_off(writes, cut) && bytes.len() == written_len(writes, cut)
}

/// Whether a cut write may stay cut.
pub fn may_stay_cut(h: &[Happening], writes: &[FlightWrite], cut: CmdId, faults: u64) -> bool
    requires stripes { HaveStripes (reverse h.now) }
    requires flight { writes.now ≡ in_flight (reverse h.now) }
    ensures { IsTrue result ↔ MayStayCut (reverse h.now) cut faults }
{
    is_cut_off(writes, cut) && part_count_ascends(h, written_stripe_of(h, cut), faults)
}

/// Whether the era may move on.
pub fn may_switch(h: &[Happening], writes: &[FlightWrite], era: u32) -> bool
    requires flight { writes.now ≡ in_flight (reverse h.now) }
    ensures { IsTrue result ↔ MaySwitch (reverse h.now) era }
{
    u64::from(era) == u64::from(present_era(h)) + 1 && writes.is_empty()
}

/// Whether the era may stay.
pub fn may_keep(h: &[Happening], inside: u32) -> bool
    ensures { IsTrue result ↔ MayKeep (reverse h.now) inside }
{
    1 <= inside && inside <= stripe_count(h)
}
