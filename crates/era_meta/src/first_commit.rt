//! The first commit on a blank disk.

ghost use Rattle.std.specs.Prelude.{◌≡◌, ◌+◌, ◌≤◌, false, None, length, OnOk};
ghost use Rattle.era_base.specs.Calls.{EachMoment, MakesCalls, Now, SameDisk};
ghost use Rattle.era_base.specs.Faults.{HasCount};
ghost use Rattle.era_layout.specs.Root.{fields_of, pages_of, IsValidRoot};
ghost use Rattle.era_slots.specs.Calls.{StandFor, AtEnd};
ghost use Rattle.era_slots.specs.Opening.{AreBlank};
ghost use Rattle.era_meta.specs.Formatting.{marks_alone, LeavesBlankOr, MayBeFirst};
ghost use Rattle.era_meta.specs.Keeping.{stored_in};
ghost use Rattle.era_meta.specs.SaysMarks.{IsRootFor};
ghost use Rattle.era_meta.specs.Stored.{HasBlocks, IsStoredRoot};

use crate::live_marks::LiveMarks;
use crate::page_laws::pages_say_marks;
use crate::set_pages::put_root;
use era_base::Disk;
use era_layout::{Root, encode_root};
use era_slots::Slots;
use era_slots::laws::{
    open_slot_is_left_as_it_reads, page_on_the_disk_is_left, standing_slots_leave_one_of_two_bodies,
};

/// Commits the first root, whose pages were put, with the number 1. The error is the disk's count of faults, which rose.
fn commit_first<D: Disk>(slots: &mut Slots<D>, next: &Root) -> Result<(), u64>
    requires room { 24 ≤ D.sectors slots.old.disk }
    requires blank { AreBlank slots.old }
    requires valid { IsValidRoot (fields_of next.now) }
    requires may { Now D.Disk (MayBeFirst (fields_of next.now)) slots.old.disk }
    ensures moments { EachMoment D.Disk
        (λ before now. LeavesBlankOr (stored_in before (fields_of next.now) None) now)
        slots.old.disk slots.new.disk }
    ensures ok { OnOk result ((slots.new.number ≡ 1)
        × MakesCalls D.Disk 4 slots.old.disk slots.new.disk
        × AtEnd D.Disk (λ before now. IsStoredRoot slots.new (fields_of next.now) None
        (stored_in before (fields_of next.now) None) now) slots.old.disk slots.new.disk) }
    ensures disk { SameDisk D.Disk slots.old.disk slots.new.disk }
    ensures cause { HasCount (D.faults slots.old.disk) (D.faults slots.new.disk) result }
{
    page_on_the_disk_is_left();
    standing_slots_leave_one_of_two_bodies();
    open_slot_is_left_as_it_reads();
    let mut body = [0; 3_576];
    encode_root(next, &mut body);
    slots.commit(&body)
}

/// Puts all pages of a root of these marks on a blank disk (a write each), and commits it with the number 1 (two writes
/// and two syncs). The error is the disk's count of faults, which rose. It takes no memory.
pub fn store_first<D: Disk>(slots: &mut Slots<D>, next: &Root, marks: &LiveMarks) -> Result<(), u64>
    requires blank { AreBlank slots.old × Now D.Disk (StandFor slots.old) slots.old.disk }
    requires room { HasBlocks (fields_of next.now) (D.sectors slots.old.disk) }
    requires root { IsValidRoot (fields_of next.now) × IsRootFor (fields_of next.now) marks.now
        × (next.now.held ≡ false) }
    ensures moments { EachMoment D.Disk (λ before. LeavesBlankOr (marks_alone marks.now))
        slots.old.disk slots.new.disk }
    ensures ok { OnOk result ((slots.new.number ≡ 1)
        × MakesCalls D.Disk (length (pages_of (fields_of next.now)) + 4)
        slots.old.disk slots.new.disk
        × Now D.Disk (IsStoredRoot slots.new (fields_of next.now) None (marks_alone marks.now))
        slots.new.disk) }
    ensures disk { SameDisk D.Disk slots.old.disk slots.new.disk }
    ensures cause { HasCount (D.faults slots.old.disk) (D.faults slots.new.disk) result }
{
    standing_slots_leave_one_of_two_bodies();
    pages_say_marks();
    marks.are_valid();
    put_root(slots, next, marks)?;
    commit_first(slots, next)
}
