//! Wipes the slots of a disk.

ghost use Rattle.std.specs.Prelude.{◌≡◌, ◌+◌, ◌*◌, ◌<◌, ◌≤◌, IfOk, OnOk, MatchResult};
ghost use Rattle.era_base.specs.CrashModel.{SameBut};
ghost use Rattle.era_base.specs.Calls.{EachMoment, Now, MakesCalls, SameDisk};
ghost use Rattle.era_base.specs.Faults.{HasCount};
ghost use Rattle.era_slots.specs.Calls.{StandFor, AtEnd, MakesSomeCalls};
ghost use Rattle.era_slots.specs.Opening.{disk_wiped, AreBlank};
ghost use Rattle.era_slots.specs.Wiping.{Wipes, Shuts, IsWiped, HasFlags, gate_end, flag_count, open_gates, IsFault};

use crate::heads::gate_is_open;
use crate::look::read_slots;
use crate::opened::{SlotError, SlotRefusal};
use crate::slots::Slots;
use crate::steps::close_gate;
use era_base::Disk;

/// Where the gate of slot `slot` is open, writes it closed and syncs.
fn close_open<D: Disk>(disk: &mut D, slot: u32, is_open: bool) -> Result<(), u64>
    requires slot { slot < 2 }
    requires room { 24 ≤ D.sectors disk.old }
    ensures moments { EachMoment D.Disk
        (SameBut (4096 * slot) (gate_end slot is_open)) disk.old disk.new }
    ensures closed { OnOk result
        (AtEnd D.Disk (Shuts slot is_open) disk.old disk.new) }
    ensures calls { MatchResult result
        (λ _. MakesCalls D.Disk (2 * flag_count is_open) disk.old disk.new)
        (λ _. MakesSomeCalls D.Disk (2 * flag_count is_open) disk.old disk.new) }
    ensures disk { SameDisk D.Disk disk.old disk.new }
    ensures cause { HasCount (D.faults disk.old) (D.faults disk.new) result }
{
    if is_open {
        close_gate(disk, slot)
    } else {
        Ok(())
    }
}

/// Closes the gate of slot `first` where it is open, and then the other one where that is open, each with its sync.
fn close_both<D: Disk>(
    disk: &mut D,
    first: u32,
    first_is_open: bool,
    other_is_open: bool,
) -> Result<(), u64>
    requires slot { first < 2 }
    requires room { 24 ≤ D.sectors disk.old }
    requires flags { Now D.Disk (HasFlags first first_is_open other_is_open) disk.old }
    ensures moments { EachMoment D.Disk (Wipes first) disk.old disk.new }
    ensures wiped { OnOk result (AtEnd D.Disk IsWiped disk.old disk.new) }
    ensures calls { MatchResult result (λ _. MakesCalls D.Disk
        (2 * (flag_count first_is_open + flag_count other_is_open)) disk.old disk.new)
        (λ _. MakesSomeCalls D.Disk
        (2 * (flag_count first_is_open + flag_count other_is_open)) disk.old disk.new) }
    ensures disk { SameDisk D.Disk disk.old disk.new }
    ensures cause { HasCount (D.faults disk.old) (D.faults disk.new) result }
{
    close_open(disk, first, first_is_open)?;
    close_open(disk, 1 - first, other_is_open)
}

/// Syncs, reads both gates and closes those that are open, that of slot `first` first.
fn close_read<D: Disk>(disk: &mut D, first: u32) -> Result<(), u64>
    requires slot { first < 2 }
    requires room { 24 ≤ D.sectors disk.old }
    ensures moments { EachMoment D.Disk (Wipes first) disk.old disk.new }
    ensures wiped { OnOk result (AtEnd D.Disk IsWiped disk.old disk.new) }
    ensures calls { MatchResult result (λ _. MakesCalls D.Disk
        (3 + 2 * open_gates (D.history disk.old).now.seen) disk.old disk.new)
        (λ _. MakesSomeCalls D.Disk
        (3 + 2 * open_gates (D.history disk.old).now.seen) disk.old disk.new) }
    ensures disk { SameDisk D.Disk disk.old disk.new }
    ensures cause { HasCount (D.faults disk.old) (D.faults disk.new) result }
{
    let mut zero = [0; 512];
    let mut one = [0; 512];
    read_slots(disk, &mut zero, &mut one)?;
    let zero_is_open = gate_is_open(&zero);
    let one_is_open = gate_is_open(&one);
    if first == 0 {
        close_both(disk, 0, zero_is_open, one_is_open)
    } else {
        close_both(disk, 1, one_is_open, zero_is_open)
    }
}

impl<D: Disk> Slots<D> {
    /// Makes a disk of at least 3 metadata blocks of 4,096 bytes blank: it syncs, reads both gates, and where the gate
    /// of slot `first` (0 or 1) is open it closes it and syncs, and then does the same for the other slot. It refuses a
    /// fault alone, behind which no call follows, and hands the disk back. At Ok the sector of each gate that was open is
    /// zeros. It takes no memory.
    pub fn wipe(mut disk: D, first: u32) -> Result<Slots<D>, SlotRefusal<D>>
        requires { (first < 2) × (24 ≤ D.sectors disk) }
        ensures moments { EachMoment D.Disk (Wipes first) disk (disk_wiped result) }
        ensures stands { IfOk result (λ slots. Now D.Disk (StandFor slots) slots.disk) }
        ensures wiped { OnOk result (AtEnd D.Disk IsWiped disk (disk_wiped result)) }
        ensures shape { IfOk result AreBlank }
        ensures calls { MatchResult result (λ _. MakesCalls D.Disk
            (3 + 2 * open_gates (D.history disk).now.seen) disk (disk_wiped result))
            (λ _. MakesSomeCalls D.Disk
            (3 + 2 * open_gates (D.history disk).now.seen) disk (disk_wiped result)) }
        ensures disk { SameDisk D.Disk disk (disk_wiped result) }
        ensures cause { MatchResult result (λ slots. D.faults slots.disk ≡ D.faults disk)
            (λ refusal. IsFault (D.faults disk) (D.faults refusal.disk) refusal.error) }
    {
        if let Err(count) = close_read(&mut disk, first) {
            return Err(SlotRefusal {
                error: SlotError::Fault(count),
                disk,
            });
        }
        Ok(Slots {
            disk,
            target: 0,
            number: 0,
            may_be_open: false,
        })
    }
}
