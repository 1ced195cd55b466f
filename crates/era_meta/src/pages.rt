//! Puts pages on a disk before a commit.

ghost use Rattle.std.specs.Prelude.{◌^◌, ◌≤◌, length, OnOk};
ghost use Rattle.std.specs.List.{AllByRecursion};
ghost use Rattle.era_base.specs.Calls.{EachMoment, Now, MakesCalls};
ghost use Rattle.era_base.specs.Faults.{HasCount};
ghost use Rattle.era_layout.specs.Root.{AreDifferent};
ghost use Rattle.era_slots.specs.Promise.{PutsPage};
ghost use Rattle.era_slots.specs.Slot.{page_of};
ghost use Rattle.era_meta.specs.Putting.{PutsAmong};
ghost use Rattle.era_meta.specs.Stored.{CanHold, HasClosedGate, HavePages, KeepsSlots};

use crate::page_source::PageSource;
use era_base::Disk;
use era_slots::Slots;

/// Puts the page of a source with an index into a metadata block.
fn put_one<D: Disk, P: PageSource>(
    slots: &mut Slots<D>,
    block: u32,
    source: &P,
    index: u32,
) -> Result<(), u64>
    requires ready { HasClosedGate D.Disk slots.old }
    requires block { CanHold (D.sectors slots.old.disk) block }
    ensures moments { EachMoment D.Disk
        (PutsPage slots.old.target slots.old.number block) slots.old.disk slots.new.disk }
    ensures keeps { KeepsSlots D.Disk slots.old slots.new }
    ensures put { OnOk result
        (Now D.Disk (λ now. P.says source.now index (page_of block now.seen)) slots.new.disk) }
    ensures calls { MakesCalls D.Disk 1 slots.old.disk slots.new.disk }
    ensures cause { HasCount (D.faults slots.old.disk) (D.faults slots.new.disk) result }
{
    let mut page = [0; 4_096];
    source.encode_page(index, &mut page);
    slots.put_page(block, &page)
}

/// Puts the pages of a source, from the first one on, into metadata blocks, by one write each. They are pending until
/// the next commit, and no other block changes. The error is the disk's count of faults, which rose; then a read of the
/// blocks may give anything. It takes no memory.
pub fn put_pages<D: Disk, P: PageSource>(
    slots: &mut Slots<D>,
    blocks: &[u32],
    source: &P,
) -> Result<(), u64>
    requires ready { HasClosedGate D.Disk slots.old }
    requires blocks { AllByRecursion (CanHold (D.sectors slots.old.disk)) blocks.now }
    requires count { length blocks.now ≤ 2 ^ 32 }
    ensures moments { EachMoment D.Disk
        (PutsAmong blocks.now slots.old.target slots.old.number) slots.old.disk slots.new.disk }
    ensures keeps { KeepsSlots D.Disk slots.old slots.new }
    ensures put { AreDifferent blocks.now → OnOk result
        (Now D.Disk (HavePages P.says source.now blocks.now) slots.new.disk) }
    ensures calls { OnOk result
        (MakesCalls D.Disk (length blocks.now) slots.old.disk slots.new.disk) }
    ensures cause { HasCount (D.faults slots.old.disk) (D.faults slots.new.disk) result }
{
    for index in 0..blocks.len() {
        put_one(slots, blocks[index], source, index as u32)?;
    }
    Ok(())
}
