//! Formats a blank disk.

ghost use Rattle.std.specs.Prelude.{◌≡◌, ◌*◌, false, IfOk, OnOk};
ghost use Rattle.era_base.specs.Calls.{EachMoment, Now, MakesCalls, SameDisk};
ghost use Rattle.era_base.specs.Faults.{HasCount};
ghost use Rattle.era_layout.specs.Root.{fields_of};
ghost use Rattle.era_model.specs.Marks.{no_marks};
ghost use Rattle.era_slots.specs.Calls.{StandFor};
ghost use Rattle.era_slots.specs.Opening.{AreBlank};
ghost use Rattle.era_meta.specs.FormatCalls.{AreFirstParts, IsFormatted, first_calls};
ghost use Rattle.era_meta.specs.Formatting.{marks_alone, LeavesBlankOr};
ghost use Rattle.era_meta.specs.Openings.{meta_of};
ghost use Rattle.era_meta.specs.Stored.{HasBlocks};

use crate::areas::prepare;
use crate::first_commit::store_first;
use crate::live_marks::LiveMarks;
use crate::parts::{Parts, snapshot_room};
use crate::rooms::{list_room, root_room};
use era_base::{Disk, Geometry, MOST_SETS, Memory};
use era_slots::Slots;
use std::alloc::Global;

/// As many lists of pages as the archived sets of three roots have: the committed one, the next one and the held one.
const LISTS: usize = 3 * MOST_SETS as usize;

/// Marks in memory with their first root, whose pages have the numbers from 3 on, and room for all that later calls make.
pub(crate) fn parts_of_marks(alloc: Global, marks: LiveMarks) -> Result<Parts, Memory>
    ensures { IfOk result (AreFirstParts marks) }
{
    marks.are_valid();
    let geometry = marks.geometry;
    let snapshot = snapshot_room(alloc, &geometry)?;
    let next = root_room(alloc, &geometry)?;
    let mut root = root_room(alloc, &geometry)?;
    let mut spare = list_room(alloc, geometry.bit_pages(), LISTS)?;
    prepare(
        &mut root,
        &mut spare,
        &next,
        None,
        marks.era(),
        marks.archive(),
    );
    Ok(Parts {
        root,
        next,
        marks,
        snapshot,
        spare,
    })
}

/// No marks in era 1 with their first root, and room for all that later calls make.
pub(crate) fn first_parts(alloc: Global, geometry: &Geometry) -> Result<Parts, Memory>
    ensures { IfOk result
        (AreFirstParts (no_marks geometry.now.sectors geometry.now.block_sectors 1)) }
{
    let marks = LiveMarks::new(alloc, geometry)?;
    parts_of_marks(alloc, marks)
}

/// Formats a blank disk, whose slots were opened, over memory that was taken before: a write for each page, then two
/// writes and two syncs. The error is the disk's count of faults, which rose. It takes no memory.
pub(crate) fn format_slots<D: Disk>(slots: &mut Slots<D>, parts: &Parts) -> Result<(), u64>
    requires blank { AreBlank slots.old × Now D.Disk (StandFor slots.old) slots.old.disk }
    requires parts { AreFirstParts parts.now.marks parts.now }
    requires room { HasBlocks (fields_of parts.now.root) (D.sectors slots.old.disk) }
    ensures moments { EachMoment D.Disk (λ before. LeavesBlankOr (marks_alone parts.now.marks))
        slots.old.disk slots.new.disk }
    ensures ok { OnOk result (IsFormatted D.Disk parts.now.marks (meta_of slots.new parts.now)
        × MakesCalls D.Disk (first_calls parts.now.marks) slots.old.disk slots.new.disk) }
    ensures disk { SameDisk D.Disk slots.old.disk slots.new.disk }
    ensures cause { HasCount (D.faults slots.old.disk) (D.faults slots.new.disk) result }
{
    store_first(slots, &parts.root, &parts.marks)
}
