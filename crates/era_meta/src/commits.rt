//! A commit of a root.

ghost use Rattle.std.specs.Prelude.{◌<◌, ◌≤◌, ◌-◌, ◌^◌, OnOk, OnErr};
ghost use Rattle.era_base.specs.Calls.{MakesCalls};
ghost use Rattle.era_base.specs.Faults.{HasCount};
ghost use Rattle.era_layout.specs.Root.{fields_of, IsValidRoot};
ghost use Rattle.era_slots.specs.Calls.{KeepsTarget};
ghost use Rattle.era_meta.specs.Stored.{CommitsRoot, FailsToCommit, HasClosedGate, HasCommittedRoot, StillStand, TakesNextSlot};

use era_base::Disk;
use era_layout::laws::bytes_are_of_one_root;
use era_layout::{Root, encode_root};
use era_slots::Slots;
use era_slots::laws::{
    open_slot_is_left_as_it_reads, page_on_the_disk_is_left, standing_slots_leave_one_of_two_bodies,
};

/// Commits a root whose pages, and those of its held root, were put, by two writes and two syncs. The error is the
/// disk's count of faults, which rose; then the committed root is as before, and a crash may leave this one where the
/// gate may be open. It takes no memory.
pub fn commit_root<D: Disk>(slots: &mut Slots<D>, next: &Root) -> Result<(), u64>
    requires room { 24 ≤ D.sectors slots.old.disk }
    requires ready { HasClosedGate D.Disk slots.old × (slots.old.number < 2 ^ 63 - 1) }
    requires valid { IsValidRoot (fields_of next.now) }
    ensures moments { CommitsRoot D.Disk (fields_of next.now) slots.old slots.new }
    ensures keeps { StillStand D.Disk slots.old slots.new }
    ensures ok { OnOk result (HasCommittedRoot D.Disk (fields_of next.now) slots.old slots.new
        × TakesNextSlot slots.old slots.new
        × MakesCalls D.Disk 4 slots.old.disk slots.new.disk) }
    ensures err { OnErr result (FailsToCommit D.Disk (fields_of next.now) slots.old slots.new
        × KeepsTarget slots.old slots.new) }
    ensures cause { HasCount (D.faults slots.old.disk) (D.faults slots.new.disk) result }
{
    page_on_the_disk_is_left();
    standing_slots_leave_one_of_two_bodies();
    open_slot_is_left_as_it_reads();
    bytes_are_of_one_root();
    let mut body = [0; 3_576];
    encode_root(next, &mut body);
    slots.commit(&body)
}
