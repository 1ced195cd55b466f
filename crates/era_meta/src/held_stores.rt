//! Takes a snapshot of the committed root, or drops it, by a commit of that root with another flag.

ghost use Rattle.std.specs.Prelude.{◌≡◌, ◌+◌, ◌-◌, ◌<◌, ◌≤◌, ◌^◌, true, false, length, drop, OnOk, OnErr};
ghost use Rattle.era_base.specs.Calls.{EachMoment, Now, MakesCalls};
ghost use Rattle.era_base.specs.Faults.{HasCount};
ghost use Rattle.era_layout.specs.Root.{fields_of, root_bytes, IsValidRoot};
ghost use Rattle.era_slots.specs.Calls.{StandFor, KeepsTarget};
ghost use Rattle.era_slots.specs.Slot.{page_of};
ghost use Rattle.era_meta.specs.HeldCalls.{blocks_put, holding_calls, with_flag, PreparesHeld, HasPreparedHeld, FailsToPrepareHeld, StoresHeld, HasStoredHeld, FailsToStoreHeld};
ghost use Rattle.era_meta.specs.Putting.{PutsAmong};
ghost use Rattle.era_meta.specs.Stored.{HasBlocks, HasClosedGate, KeepsSlots, StillStand, TakesNextSlot};

use crate::commits::commit_root;
use era_base::Disk;
use era_layout::{Root, encode_root};
use era_slots::Slots;
use era_slots::laws::{
    open_slot_is_left_as_it_reads, page_on_the_disk_is_left, standing_slots_leave_one_of_two_bodies,
};

/// The metadata block of the held root.
const HELD_BLOCK: u32 = 2;

/// Where a snapshot is taken, puts the root into block 2, behind 520 zeros.
fn put_held<D: Disk>(slots: &mut Slots<D>, root: &Root, taken: bool) -> Result<(), u64>
    requires ready { HasClosedGate D.Disk slots.old }
    requires room { 24 ≤ D.sectors slots.old.disk }
    requires valid { IsValidRoot (fields_of root.now) }
    ensures moments { EachMoment D.Disk
        (PutsAmong (blocks_put taken) slots.old.target slots.old.number)
        slots.old.disk slots.new.disk }
    ensures keeps { KeepsSlots D.Disk slots.old slots.new }
    ensures put { OnOk result (taken ≡ true → Now D.Disk
        (λ now. drop 520 (page_of 2 now.seen) ≡ root_bytes (fields_of root.now)) slots.new.disk) }
    ensures calls { OnOk result
        (MakesCalls D.Disk (length (blocks_put taken)) slots.old.disk slots.new.disk) }
    ensures cause { HasCount (D.faults slots.old.disk) (D.faults slots.new.disk) result }
{
    if !taken {
        return Ok(());
    }
    let mut page = [0; 4_096];
    encode_root(root, &mut page[520..]);
    slots.put_page(HELD_BLOCK, &page)
}

/// Closes the gate of the next commit's slot, where it may be open, and puts the held root, where a snapshot is taken.
fn prepare_held<D: Disk>(slots: &mut Slots<D>, root: &Root, taken: bool) -> Result<(), u64>
    requires stands { Now D.Disk (StandFor slots.old) slots.old.disk }
    requires room { 24 ≤ D.sectors slots.old.disk }
    requires valid { IsValidRoot (fields_of root.now) }
    ensures moments { PreparesHeld D.Disk (fields_of root.now) taken slots.old slots.new }
    ensures keeps { StillStand D.Disk slots.old slots.new × KeepsTarget slots.old slots.new }
    ensures ok { OnOk result (HasPreparedHeld D.Disk (fields_of root.now) taken slots.old slots.new
        × (slots.new.may_be_open ≡ false)
        × MakesCalls D.Disk (holding_calls slots.old.may_be_open taken)
        slots.old.disk slots.new.disk) }
    ensures err { OnErr result
        (FailsToPrepareHeld D.Disk (fields_of root.now) taken slots.old slots.new) }
    ensures cause { HasCount (D.faults slots.old.disk) (D.faults slots.new.disk) result }
{
    page_on_the_disk_is_left();
    standing_slots_leave_one_of_two_bodies();
    open_slot_is_left_as_it_reads();
    slots.begin()?;
    put_held(slots, root, taken)
}

/// Takes a snapshot of the committed root, or drops it: closes the gate of the next commit's slot where it may be open
/// (a write and a sync), puts the root into block 2 where a snapshot is taken (a write), and commits it with the new
/// flag (two writes and two syncs). The snapshot shares the root's pages. The error is the disk's count of faults,
/// which rose; then the flag is as it was, and what is stored is as before. It takes no memory.
pub fn store_held<D: Disk>(slots: &mut Slots<D>, root: &mut Root, taken: bool) -> Result<(), u64>
    requires stands { Now D.Disk (StandFor slots.old) slots.old.disk
        × (slots.old.number < 2 ^ 63 - 1) }
    requires room { 24 ≤ D.sectors slots.old.disk }
    requires valid { IsValidRoot (fields_of root.old) }
    ensures moments { StoresHeld D.Disk (fields_of root.old) taken slots.old slots.new }
    ensures keeps { StillStand D.Disk slots.old slots.new }
    ensures ok { OnOk result (HasStoredHeld D.Disk (fields_of root.old) taken slots.old slots.new
        × TakesNextSlot slots.old slots.new
        × MakesCalls D.Disk (holding_calls slots.old.may_be_open taken + 4)
        slots.old.disk slots.new.disk
        × (root.new ≡ record root.old { held = taken })) }
    ensures err { OnErr result
        (FailsToStoreHeld D.Disk (fields_of root.old) taken slots.old slots.new
        × KeepsTarget slots.old slots.new × (root.new ≡ root.old)) }
    ensures cause { HasCount (D.faults slots.old.disk) (D.faults slots.new.disk) result }
{
    prepare_held(slots, root, taken)?;
    let was_held = root.held;
    root.held = taken;
    match commit_root(slots, root) {
        Ok(()) => Ok(()),
        Err(count) => {
            root.held = was_held;
            Err(count)
        }
    }
}
