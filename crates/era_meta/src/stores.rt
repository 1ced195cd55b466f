//! The one internal call that stores marks.

ghost use Rattle.std.specs.Prelude.{◌≡◌, ◌+◌, ◌-◌, ◌<◌, ◌^◌, false, OnOk, OnErr};
ghost use Rattle.era_base.specs.Calls.{Now, MakesCalls};
ghost use Rattle.era_base.specs.Faults.{HasCount};
ghost use Rattle.era_layout.specs.Root.{fields_of, pages_of, IsValidRoot};
ghost use Rattle.era_slots.specs.Calls.{StandFor, KeepsTarget};
ghost use Rattle.era_meta.specs.SaysMarks.{IsRootFor};
ghost use Rattle.era_meta.specs.Stored.{HasBlocks, StillStand, TakesNextSlot};
ghost use Rattle.era_meta.specs.StoredMarks.{PreparesMarks, HasPreparedMarks, FailsToPrepare, StoresMarks, HasStoredMarks, FailsToStoreMarks, putting_calls};

use crate::commits::commit_root;
use crate::live_marks::LiveMarks;
use crate::page_laws::pages_say_marks;
use crate::set_pages::put_root;
use era_base::Disk;
use era_layout::Root;
use era_slots::Slots;
use era_slots::laws::{
    open_slot_is_left_as_it_reads, page_on_the_disk_is_left, standing_slots_leave_one_of_two_bodies,
};

/// Closes the gate of the next commit's slot, where it may be open, and puts the pages of a root that is one of these
/// marks.
fn put_marks<D: Disk>(slots: &mut Slots<D>, next: &Root, marks: &LiveMarks) -> Result<(), u64>
    requires stands { Now D.Disk (StandFor slots.old) slots.old.disk }
    requires room { HasBlocks (fields_of next.now) (D.sectors slots.old.disk) }
    requires root { IsValidRoot (fields_of next.now)
        × IsRootFor (fields_of next.now) marks.now }
    ensures moments { PreparesMarks D.Disk (fields_of next.now) slots.old slots.new }
    ensures keeps { StillStand D.Disk slots.old slots.new × KeepsTarget slots.old slots.new }
    ensures ok { OnOk result
        (HasPreparedMarks D.Disk (fields_of next.now) marks.now slots.old slots.new
        × (slots.new.may_be_open ≡ false)
        × MakesCalls D.Disk (putting_calls slots.old.may_be_open (fields_of next.now))
        slots.old.disk slots.new.disk) }
    ensures err { OnErr result
        (FailsToPrepare D.Disk (fields_of next.now) slots.old slots.new) }
    ensures cause { HasCount (D.faults slots.old.disk) (D.faults slots.new.disk) result }
{
    page_on_the_disk_is_left();
    standing_slots_leave_one_of_two_bodies();
    open_slot_is_left_as_it_reads();
    pages_say_marks();
    marks.are_valid();
    slots.begin()?;
    put_root(slots, next, marks)
}

/// Stores marks as a whole root of new pages: closes the gate of the next commit's slot where it may be open (a write
/// and a sync), puts each page (a write each), and commits the root (two writes and two syncs). The caller gives a root
/// whose pages are none of those that the committed root and the snapshot reach. The error is the disk's count of
/// faults, which rose; then what is stored is as before, and a crash may leave these marks where the gate may be open.
/// It takes no memory.
pub fn store_marks<D: Disk>(slots: &mut Slots<D>, next: &Root, marks: &LiveMarks) -> Result<(), u64>
    requires stands { Now D.Disk (StandFor slots.old) slots.old.disk
        × (slots.old.number < 2 ^ 63 - 1) }
    requires room { HasBlocks (fields_of next.now) (D.sectors slots.old.disk) }
    requires root { IsValidRoot (fields_of next.now)
        × IsRootFor (fields_of next.now) marks.now }
    ensures moments { StoresMarks D.Disk (fields_of next.now) marks.now slots.old slots.new }
    ensures keeps { StillStand D.Disk slots.old slots.new }
    ensures ok { OnOk result
        (HasStoredMarks D.Disk (fields_of next.now) marks.now slots.old slots.new
        × TakesNextSlot slots.old slots.new
        × MakesCalls D.Disk (putting_calls slots.old.may_be_open (fields_of next.now) + 4)
        slots.old.disk slots.new.disk) }
    ensures err { OnErr result
        (FailsToStoreMarks D.Disk (fields_of next.now) marks.now slots.old slots.new
        × KeepsTarget slots.old slots.new) }
    ensures cause { HasCount (D.faults slots.old.disk) (D.faults slots.new.disk) result }
{
    put_marks(slots, next, marks)?;
    commit_root(slots, next)
}
