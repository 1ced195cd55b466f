//! Snapshots of the metadata, each taken and dropped by one commit.

ghost use Rattle.std.specs.Prelude.{◌≡◌, ◌+◌, ◌≤◌, true, false, length, OnOk, OnErr};
ghost use Rattle.era_base.specs.Calls.{EachMoment};
ghost use Rattle.era_base.specs.Faults.{HasCount};
ghost use Rattle.era_layout.specs.Root.{fields_of};

use crate::areas::release_lists;
use crate::copies::copy_root;
use crate::held_stores::store_held;
use crate::metadata::Meta;
use era_base::Disk;

impl<D: Disk> Meta<D> {
    ghost use Rattle.era_meta.specs.Copies.{IsSnapshotOf};
    ghost use Rattle.era_meta.specs.InMemory.{FitTogether};
    ghost use Rattle.era_meta.specs.MetaCalls.{IsReady, IsStanding};
    ghost use Rattle.era_meta.specs.SnapshotCalls.{CommitsSnapshot, FailsToCommitSnapshot, KeepsMarks, MetaHolds};

    /// Makes the snapshot in memory one of the committed root and of the marks. Lists of pages come from the next root and
    /// the spare ones; it takes no memory.
    fn hold(&mut self)
        requires { FitTogether D.Disk self.old }
        ensures fit { FitTogether D.Disk self.new }
        ensures held { IsSnapshotOf self.new.snapshot (fields_of self.old.root) self.old.marks }
        ensures same { (self.new.slots ≡ self.old.slots) × (self.new.root ≡ self.old.root)
            × (self.new.marks ≡ self.old.marks) × (self.new.unstored ≡ self.old.unstored) }
    {
        release_lists(&mut self.next.archive, &mut self.spare);
        copy_root(&mut self.snapshot.root, &mut self.spare, &self.root);
        self.snapshot.root.held = false;
        self.snapshot.marks.copy_from(&self.marks);
        self.snapshot.is_held = true;
    }

    /// Takes a snapshot of the marks, in memory and on the disk, where none is held. It shares the pages of the marks. The
    /// error is the disk's count of faults, which rose; then none is held, in memory and on the disk. It takes no memory.
    pub fn take_snap(&mut self) -> Result<(), u64>
        requires none { self.old.snapshot.is_held ≡ false }
        requires ready { IsReady D.Disk self.old }
        ensures moments { EachMoment D.Disk (MetaHolds self.old true)
            self.old.slots.disk self.new.slots.disk }
        ensures standing { IsStanding D.Disk self.new }
        ensures ok { OnOk result (CommitsSnapshot D.Disk self.old true self.new) }
        ensures err { OnErr result (FailsToCommitSnapshot D.Disk self.old true self.new) }
        ensures same { KeepsMarks D.Disk self.old self.new }
        ensures cause { HasCount (D.faults self.old.slots.disk) (D.faults self.new.slots.disk)
            result }
    {
        store_held(&mut self.slots, &mut self.root, true)?;
        self.hold();
        Ok(())
    }

    /// Drops the snapshot, in memory and on the disk. The error is the disk's count of faults, which rose; then the
    /// snapshot is held as before, in memory and on the disk. It takes no memory.
    pub fn drop_snap(&mut self) -> Result<(), u64>
        requires held { self.old.snapshot.is_held ≡ true }
        requires ready { IsReady D.Disk self.old }
        ensures moments { EachMoment D.Disk (MetaHolds self.old false)
            self.old.slots.disk self.new.slots.disk }
        ensures standing { IsStanding D.Disk self.new }
        ensures ok { OnOk result (CommitsSnapshot D.Disk self.old false self.new) }
        ensures err { OnErr result (FailsToCommitSnapshot D.Disk self.old false self.new) }
        ensures same { KeepsMarks D.Disk self.old self.new }
        ensures cause { HasCount (D.faults self.old.slots.disk) (D.faults self.new.slots.disk)
            result }
    {
        store_held(&mut self.slots, &mut self.root, false)?;
        self.snapshot.is_held = false;
        Ok(())
    }
}
