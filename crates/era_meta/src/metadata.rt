//! The metadata of an origin: marks in memory, and on a disk what they were when they were stored last.

ghost use Rattle.std.specs.Prelude.{◌≡◌, ◌<◌, true, false, OnOk, OnErr};
ghost use Rattle.era_base.specs.Calls.{EachMoment, Now};
ghost use Rattle.era_base.specs.Faults.{HasCount};
ghost use Rattle.era_base.specs.declared.limits.TheConstants.{LAST_ERA};
ghost use Rattle.era_model.specs.Marks.{blocks_of_marks, rolled, with_block};

use crate::areas::{SpareLists, prepare};
use crate::laws::kept_disk_leaves_its_meanings;
use crate::live_marks::LiveMarks;
use crate::snapshot::Snapshot;
use crate::stores::store_marks;
use era_base::Disk;
use era_layout::Root;
use era_slots::Slots;
use std::mem;

/// The metadata of an origin over its disk. All memory was taken when it was made.
#[derive(Drop)]
pub struct Meta<D> {
    /// The disk, and where its next commit goes.
    pub slots: Slots<D>,
    /// The marks in memory.
    pub marks: LiveMarks,
    /// The committed root.
    pub root: Root,
    /// Room for the next root.
    pub next: Root,
    /// The snapshot, or room for one.
    pub snapshot: Snapshot,
    /// Lists of pages that neither root has now.
    pub spare: SpareLists,
    /// Whether the marks in memory are one era switch ahead of what is stored.
    pub unstored: bool,
}

impl<D: Disk> Meta<D> {
    ghost use Rattle.era_meta.specs.InMemory.{FitTogether, MetaStands, MetaStores, LeavesMeanings};
    ghost use Rattle.era_meta.specs.MetaCalls.{CanStore, CommitsMarks, FailsToCommitMarks, HasNumbersLeft, IsInMemory, IsReady, IsStanding, KeepsSnapshot};

    /// Stores the marks in memory as a whole root of new pages.
    pub(crate) fn store_live(&mut self) -> Result<(), u64>
        requires can { CanStore D.Disk self.old }
        ensures moments { EachMoment D.Disk (MetaStores self.old self.old.marks)
            self.old.slots.disk self.new.slots.disk }
        ensures fit { FitTogether D.Disk self.new }
        ensures ok { OnOk result (CommitsMarks D.Disk self.old self.old.marks self.new) }
        ensures err { OnErr result (FailsToCommitMarks D.Disk self.old self.old.marks self.new) }
        ensures memory { IsInMemory self.new self.old.marks self.old.unstored }
        ensures same { KeepsSnapshot D.Disk self.old self.new }
        ensures cause { HasCount (D.faults self.old.slots.disk) (D.faults self.new.slots.disk)
            result }
    {
        self.marks.are_valid();
        let held = self.snapshot.held_root();
        let era = self.marks.era();
        prepare(
            &mut self.next,
            &mut self.spare,
            &self.root,
            held,
            era,
            self.marks.archive(),
        );
        store_marks(&mut self.slots, &self.next, &self.marks)?;
        mem::swap(&mut self.root, &mut self.next);
        Ok(())
    }

    /// Whether the marks in memory are one era switch ahead of what is stored: a `roll` failed, and `store` stores it.
    pub fn unstored(&self) -> bool
        ensures { result ≡ self.now.unstored }
    {
        self.unstored
    }

    /// Each crash image now stands for what is stored, or for what a commit that failed in opening its gate was storing,
    /// whatever was done before. It does nothing.
    pub fn crashes_now(&self)
        requires { Now D.Disk (MetaStands self.now) self.now.slots.disk }
        ensures { Now D.Disk (LeavesMeanings self.now) self.now.slots.disk }
    {
        kept_disk_leaves_its_meanings();
    }

    /// Stores the marks in memory. The error is the disk's count of faults, which rose; then what is stored is as before.
    /// It takes no memory.
    pub fn store(&mut self) -> Result<(), u64>
        requires below { HasNumbersLeft self.old }
        requires standing { IsStanding D.Disk self.old }
        ensures moments { EachMoment D.Disk (MetaStores self.old self.old.marks)
            self.old.slots.disk self.new.slots.disk }
        ensures standing { IsStanding D.Disk self.new }
        ensures ok { OnOk result (CommitsMarks D.Disk self.old self.old.marks self.new
            × IsInMemory self.new self.old.marks false) }
        ensures err { OnErr result (FailsToCommitMarks D.Disk self.old self.old.marks self.new
            × IsInMemory self.new self.old.marks self.old.unstored) }
        ensures same { KeepsSnapshot D.Disk self.old self.new }
        ensures cause { HasCount (D.faults self.old.slots.disk) (D.faults self.new.slots.disk)
            result }
    {
        self.store_live()?;
        self.unstored = false;
        Ok(())
    }

    /// Marks a block in the present era, in memory and on the disk. The error is the disk's count of faults, which rose;
    /// then the marks in memory are as before, and what is stored is too. It takes no memory.
    pub fn mark(&mut self, block: u32) -> Result<(), u64>
        requires block { block < blocks_of_marks self.old.marks }
        requires ready { IsReady D.Disk self.old }
        ensures moments { EachMoment D.Disk (MetaStores self.old (with_block self.old.marks block))
            self.old.slots.disk self.new.slots.disk }
        ensures standing { IsStanding D.Disk self.new }
        ensures ok { OnOk result
            (CommitsMarks D.Disk self.old (with_block self.old.marks block) self.new
            × IsInMemory self.new (with_block self.old.marks block) false) }
        ensures err { OnErr result
            (FailsToCommitMarks D.Disk self.old (with_block self.old.marks block) self.new
            × IsInMemory self.new self.old.marks false) }
        ensures same { KeepsSnapshot D.Disk self.old self.new }
        ensures cause { HasCount (D.faults self.old.slots.disk) (D.faults self.new.slots.disk)
            result }
    {
        let was_marked = self.marks.is_marked(block);
        self.marks.mark(block);
        match self.store_live() {
            Ok(()) => Ok(()),
            Err(count) => {
                self.marks.restore(block, was_marked);
                Err(count)
            }
        }
    }

    /// Moves to the next era, in memory and on the disk: archives the current set, and where sixteen sets are archived
    /// merges the oldest one before, in the same commit. The error is the disk's count of faults, which rose; then the
    /// next era stands in memory alone, and `store` stores it. It takes no memory.
    pub fn roll(&mut self) -> Result<(), u64>
        requires era { self.old.marks.era < LAST_ERA }
        requires ready { IsReady D.Disk self.old }
        ensures moments { EachMoment D.Disk (MetaStores self.old (rolled self.old.marks))
            self.old.slots.disk self.new.slots.disk }
        ensures standing { IsStanding D.Disk self.new }
        ensures ok { OnOk result (CommitsMarks D.Disk self.old (rolled self.old.marks) self.new
            × IsInMemory self.new (rolled self.old.marks) false) }
        ensures err { OnErr result
            (FailsToCommitMarks D.Disk self.old (rolled self.old.marks) self.new
            × IsInMemory self.new (rolled self.old.marks) true) }
        ensures same { KeepsSnapshot D.Disk self.old self.new }
        ensures cause { HasCount (D.faults self.old.slots.disk) (D.faults self.new.slots.disk)
            result }
    {
        self.marks.roll();
        self.unstored = true;
        self.store()
    }
}
