//! The writes of a commit, each with the sync that makes it last.

ghost use Rattle.std.specs.Prelude.{◌≡◌, ◌+◌, ◌*◌, ◌<◌, ◌≤◌, length, OnOk, MatchResult};
ghost use Rattle.era_base.specs.CrashModel.{SameBut};
ghost use Rattle.era_base.specs.Calls.{EachMoment, Now, MakesCalls, SameDisk};
ghost use Rattle.era_base.specs.Faults.{HasCount};
ghost use Rattle.era_slots.specs.Slot.{closed_gate, open_gate};
ghost use Rattle.era_slots.specs.Calls.{HasGate, HasBody, MakesSomeCalls};

use crate::sectors::{body_sectors, closed_sector, open_sector};
use era_base::{Disk, write_synced};

/// Writes the gate of slot `slot` closed and syncs.
pub fn close_gate<D: Disk>(disk: &mut D, slot: u32) -> Result<(), u64>
    requires slot { slot < 2 }
    requires room { 24 ≤ D.sectors disk.old }
    ensures moments { EachMoment D.Disk
        (SameBut (4096 * slot) (4096 * slot + 512)) disk.old disk.new }
    ensures written { OnOk result (Now D.Disk (HasGate slot closed_gate) disk.new) }
    ensures calls { MatchResult result (λ _. MakesCalls D.Disk 2 disk.old disk.new)
        (λ _. MakesSomeCalls D.Disk 2 disk.old disk.new) }
    ensures disk { SameDisk D.Disk disk.old disk.new }
    ensures cause { HasCount (D.faults disk.old) (D.faults disk.new) result }
{
    write_synced(disk, u64::from(slot) * 8, &closed_sector())
}

/// Writes the gate of slot `slot` open and syncs.
pub fn open_gate<D: Disk>(disk: &mut D, slot: u32) -> Result<(), u64>
    requires slot { slot < 2 }
    requires room { 24 ≤ D.sectors disk.old }
    ensures moments { EachMoment D.Disk
        (SameBut (4096 * slot) (4096 * slot + 512)) disk.old disk.new }
    ensures written { OnOk result (Now D.Disk (HasGate slot open_gate) disk.new) }
    ensures calls { OnOk result (MakesCalls D.Disk 2 disk.old disk.new) }
    ensures disk { SameDisk D.Disk disk.old disk.new }
    ensures cause { HasCount (D.faults disk.old) (D.faults disk.new) result }
{
    write_synced(disk, u64::from(slot) * 8, &open_sector())
}

/// Writes a commit number and a body into slot `slot`, not its gate, and syncs.
pub fn write_body<D: Disk>(disk: &mut D, slot: u32, number: u64, body: &[u8]) -> Result<(), u64>
    requires slot { slot < 2 }
    requires room { 24 ≤ D.sectors disk.old }
    requires body { length body.now ≡ 3576 }
    ensures moments { EachMoment D.Disk
        (SameBut (4096 * slot + 512) (4096 * slot + 4096)) disk.old disk.new }
    ensures written { OnOk result (Now D.Disk (HasBody slot number body.now) disk.new) }
    ensures calls { OnOk result (MakesCalls D.Disk 2 disk.old disk.new) }
    ensures disk { SameDisk D.Disk disk.old disk.new }
    ensures cause { HasCount (D.faults disk.old) (D.faults disk.new) result }
{
    write_synced(disk, u64::from(slot) * 8 + 1, &body_sectors(number, body))
}
