//! Whether an event may be drawn next.

ghost use Rattle.std.specs.Prelude.{◌≡◌, ◌↔◌, ◌≤◌, IfSome, IsTrue, length, option_copied, reverse};
ghost use Rattle.era_base.specs.declared.limits.TheConstants.{MOST_SETS};
ghost use Rattle.era_core.specs.Present.{HaveContents, HaveStripes};
ghost use Rattle.era_model.specs.Conditions.{MayList, MayRead};
ghost use Rattle.era_model.specs.History.{in_flight};
ghost use Rattle.era_model.specs.Legal.{MayHappen};
ghost use Rattle.era_model.specs.Marking.{held_of, marks_of};

use crate::block_table::BlockTable;
use crate::conditions::{
    may_be_cut, may_finish, may_go, may_keep, may_mark, may_settle, may_stay_cut, may_switch,
    may_try,
};
use crate::lists::{lists_journal, lists_snapshot};
use crate::metadata_conditions::{Told, may_digest, may_drop, may_refuse, may_snap, may_tell};
use crate::present::{knows_contents, place_of};
use crate::reads::reads_as;
use era_base::{Bytes, Runs};
use era_model::{Event, FlightWrite, Happening};

/// Whether a read may give the bytes.
fn may_read(
    h: &[Happening],
    writes: &[FlightWrite],
    contents: &[Bytes],
    sector: u64,
    bytes: &[u8],
) -> bool
    requires flight { writes.now ≡ in_flight (reverse h.now) }
    requires content { HaveContents (reverse h.now) contents.now }
    ensures { IsTrue result ↔ MayRead (reverse h.now) sector bytes.now }
{
    match place_of(h, sector, bytes.len() as u64 / 512) {
        Some((block, first)) => bytes.len() % 512 == 0
            && (!knows_contents(h)
                || reads_as(
                    writes,
                    contents[block as usize].as_slice(),
                    block,
                    u64::from(first) * 512,
                    bytes,
                )),
        None => false,
    }
}

/// Whether a list may give the blocks.
fn may_list(
    h: &[Happening],
    held: Option<&BlockTable>,
    since: u32,
    snap: bool,
    blocks: &Runs,
) -> bool
    requires { option_copied held ≡ held_of (reverse h.now) }
    ensures { IsTrue result ↔ MayList (reverse h.now) since snap blocks.now }
{
    if snap {
        lists_snapshot(held, since, blocks)
    } else {
        lists_journal(h, since, blocks)
    }
}

/// Whether the event may happen.
pub fn may_happen(
    h: &[Happening],
    writes: &[FlightWrite],
    contents: &[Bytes],
    marks: &BlockTable,
    held: Option<&BlockTable>,
    event: &Event,
) -> bool
    requires stripes { HaveStripes (reverse h.now) }
    requires flight { writes.now ≡ in_flight (reverse h.now) }
    requires content { HaveContents (reverse h.now) contents.now }
    requires marks { marks.now ≡ marks_of (reverse h.now) }
    requires few { length marks.now.archive ≤ MOST_SETS }
    requires held { option_copied held ≡ held_of (reverse h.now) }
    requires held_few { IfSome (option_copied held) (λ m. length m.archive ≤ MOST_SETS) }
    ensures { IsTrue result ↔ MayHappen (reverse h.now) event.now }
{
    match event {
        Event::Tried { id: _, block, era } => may_try(h, *block, *era),
        Event::Mark { id, block, era } => may_mark(h, *id, *block, *era),
        Event::Go {
            id,
            block,
            era,
            first,
            bytes,
        } => may_go(h, writes, *id, *block, *era, *first, bytes.as_slice()),
        Event::Done { id } => may_finish(h, writes, *id),
        Event::Cut { id, faults } => may_be_cut(h, writes, *id, *faults),
        Event::Settle { by: _, cut, bytes } => may_settle(h, writes, *cut, bytes.as_slice()),
        Event::Unsettled { by: _, cut, faults } => may_stay_cut(h, writes, *cut, *faults),
        Event::Read {
            id: _,
            sector,
            bytes,
        } => may_read(h, writes, contents, *sector, bytes.as_slice()),
        Event::Roll { id: _, era } => may_switch(h, writes, *era),
        Event::Kept { id: _, inside } => may_keep(h, *inside),
        Event::Snap { id: _, block } => may_snap(h, held, *block),
        Event::Dropped { id: _ } => may_drop(h, held),
        Event::Digest { id: _, era, page } => may_digest(h, marks, *era, *page),
        Event::List {
            id: _,
            since,
            snap,
            blocks,
        } => may_list(h, held, *since, *snap, blocks),
        Event::Status {
            id: _,
            used,
            total,
            era,
            held: told,
        } => may_tell(
            h,
            marks,
            held,
            Told {
                used: *used,
                total: *total,
                era: *era,
                held: *told,
            },
        ),
        Event::Refused { id, kind, why } => may_refuse(h, marks, held, *id, *kind, *why),
    }
}
