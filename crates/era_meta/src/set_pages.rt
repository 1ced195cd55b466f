//! Puts the pages of archived sets, and those of a whole root.

ghost use Rattle.std.specs.Prelude.{◌≤◌, ◌^◌, length, map, OnOk};
ghost use Rattle.std.specs.List.{AllByRecursion};
ghost use Rattle.era_base.specs.Calls.{EachMoment, Now, MakesCalls};
ghost use Rattle.era_base.specs.Faults.{HasCount};
ghost use Rattle.era_layout.specs.Root.{archive_pages, fields_of, pages_of, AreDifferent, IsValidRoot};
ghost use Rattle.era_meta.specs.Content.{archived_content, content_of};
ghost use Rattle.era_meta.specs.Meaning.{pages_in};
ghost use Rattle.era_meta.specs.Putting.{PutsAmong};
ghost use Rattle.era_meta.specs.SaysMarks.{HasSets, IsRootFor, SaySets, SaysMarks};
ghost use Rattle.era_meta.specs.Stored.{CanHold, HasBlocks, HasClosedGate, KeepsSlots};

use crate::live_marks::LiveMarks;
use crate::live_set::LiveSet;
use crate::pages::put_pages;
use era_base::Disk;
use era_layout::{Archived, Root};
use era_slots::Slots;

/// Puts the pages of archived sets, set by set.
fn put_sets<D: Disk>(
    slots: &mut Slots<D>,
    archive: &[Archived],
    sets: &[LiveSet],
) -> Result<(), u64>
    requires ready { HasClosedGate D.Disk slots.old }
    requires blocks { AllByRecursion (CanHold (D.sectors slots.old.disk))
        (archive_pages archive.now) }
    requires sets { HasSets sets.now archive.now
        × AllByRecursion (λ set. length set.pages ≤ 2 ^ 32) archive.now }
    ensures moments { EachMoment D.Disk
        (PutsAmong (archive_pages archive.now) slots.old.target slots.old.number)
        slots.old.disk slots.new.disk }
    ensures keeps { KeepsSlots D.Disk slots.old slots.new }
    ensures put { AreDifferent (archive_pages archive.now) → OnOk result
        (Now D.Disk
        (λ now. SaySets sets.now (map (archived_content (pages_in now.seen)) archive.now))
        slots.new.disk) }
    ensures calls { OnOk result
        (MakesCalls D.Disk (length (archive_pages archive.now)) slots.old.disk slots.new.disk) }
    ensures cause { HasCount (D.faults slots.old.disk) (D.faults slots.new.disk) result }
{
    for index in 0..archive.len() {
        let archived = &archive[index];
        let set = &sets[index];
        put_pages(slots, archived.pages.as_slice(), set.blocks())?;
    }
    Ok(())
}

/// Puts all pages of a root that is one of these marks, by one write each.
pub fn put_root<D: Disk>(slots: &mut Slots<D>, next: &Root, marks: &LiveMarks) -> Result<(), u64>
    requires ready { HasClosedGate D.Disk slots.old }
    requires room { HasBlocks (fields_of next.now) (D.sectors slots.old.disk) }
    requires root { IsValidRoot (fields_of next.now)
        × IsRootFor (fields_of next.now) marks.now }
    ensures moments { EachMoment D.Disk
        (PutsAmong (pages_of (fields_of next.now)) slots.old.target slots.old.number)
        slots.old.disk slots.new.disk }
    ensures keeps { KeepsSlots D.Disk slots.old slots.new }
    ensures put { OnOk result (Now D.Disk
        (λ now. SaysMarks marks.now (content_of (pages_in now.seen) (fields_of next.now)))
        slots.new.disk) }
    ensures calls { OnOk result (MakesCalls D.Disk (length (pages_of (fields_of next.now)))
        slots.old.disk slots.new.disk) }
    ensures cause { HasCount (D.faults slots.old.disk) (D.faults slots.new.disk) result }
{
    put_pages(slots, next.array.as_slice(), marks.array())?;
    put_pages(slots, next.current.as_slice(), marks.current())?;
    put_sets(slots, next.archive.as_slice(), marks.archive())
}
