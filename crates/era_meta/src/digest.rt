//! Digest steps of the metadata, each by one commit.

ghost use Rattle.std.specs.Prelude.{◌≡◌, ℕ, false, IfOk, MatchResult, OnOk, OnErr, Some, None};
ghost use Rattle.era_base.specs.Calls.{EachMoment};
ghost use Rattle.era_base.specs.Faults.{HasCount};
ghost use Rattle.era_model.specs.Digest.{digest_of, digested};
ghost use Rattle.era_meta.specs.Digesting.{HasStep, IsDigest, after_digest};

use crate::laws::kept_disk_leaves_its_meanings;
use crate::metadata::Meta;
use era_base::Disk;

impl<D: Disk> Meta<D> {
    ghost use Rattle.era_meta.specs.Digested.{HasDigested, HasMarks, StillHasMarks};
    ghost use Rattle.era_meta.specs.InMemory.{MetaStores};
    ghost use Rattle.era_meta.specs.MetaCalls.{IsReady, IsStanding, KeepsSnapshot};

    /// Transcribes a page by a digest step, in memory and on the disk.
    fn digest_page(&mut self, page: u32) -> Result<(), u64>
        requires step { (era : ℕ) × IsDigest self.old.marks era (Some page) }
        requires ready { IsReady D.Disk self.old }
        ensures moments { EachMoment D.Disk
            (MetaStores self.old (digested self.old.marks (Some page)))
            self.old.slots.disk self.new.slots.disk }
        ensures standing { IsStanding D.Disk self.new }
        ensures ok { OnOk result
            (HasMarks D.Disk self.old (digested self.old.marks (Some page)) self.new) }
        ensures err { OnErr result
            (StillHasMarks D.Disk self.old (digested self.old.marks (Some page)) self.new) }
        ensures same { KeepsSnapshot D.Disk self.old self.new }
        ensures cause { HasCount (D.faults self.old.slots.disk) (D.faults self.new.slots.disk)
            result }
    {
        self.marks.are_valid();
        let mut entries = [0; 1_024];
        let count = self.marks.copy_page(page, &mut entries);
        self.marks.transcribe(page);
        match self.store_live() {
            Ok(()) => Ok(()),
            Err(faults) => {
                self.marks.put_back(page, &entries[..count]);
                Err(faults)
            }
        }
    }

    /// Drops the oldest archived set, which is of this era, by a digest step, in memory and on the disk.
    fn digest_set(&mut self, era: u32) -> Result<(), u64>
        requires step { IsDigest self.old.marks era None }
        requires ready { IsReady D.Disk self.old }
        ensures moments { EachMoment D.Disk
            (MetaStores self.old (digested self.old.marks None))
            self.old.slots.disk self.new.slots.disk }
        ensures standing { IsStanding D.Disk self.new }
        ensures ok { OnOk result
            (HasMarks D.Disk self.old (digested self.old.marks None) self.new) }
        ensures err { OnErr result
            (StillHasMarks D.Disk self.old (digested self.old.marks None) self.new) }
        ensures same { KeepsSnapshot D.Disk self.old self.new }
        ensures cause { HasCount (D.faults self.old.slots.disk) (D.faults self.new.slots.disk)
            result }
    {
        self.marks.are_valid();
        let mut words = [0; 1_024];
        let count = self.marks.copy_oldest(&mut words);
        self.marks.drop_oldest();
        match self.store_live() {
            Ok(()) => Ok(()),
            Err(faults) => {
                self.marks.take_back(era, &words[..count]);
                Err(faults)
            }
        }
    }

    /// Works on the oldest archived set: transcribes the least page of the era array that has a block of the set with
    /// another era as its entry, and answers the set's era and the page; where there is no such page it drops the set, and
    /// answers its era alone. Exactly where no set is archived it answers `None`, and nothing changes. The error is the
    /// disk's count of faults, which rose: then some set is archived, and the marks are as before, in memory and on the
    /// disk. It takes no memory.
    pub fn digest_step(&mut self) -> Result<Option<(u32, Option<u32>)>, u64>
        requires ready { IsReady D.Disk self.old }
        ensures step { MatchResult result
            (λ step. step ≡ digest_of self.old.marks.archive self.old.marks.array)
            (λ _. HasStep self.old.marks) }
        ensures moments { EachMoment D.Disk (MetaStores self.old (after_digest self.old.marks))
            self.old.slots.disk self.new.slots.disk }
        ensures standing { IsStanding D.Disk self.new }
        ensures ok { IfOk result (HasDigested D.Disk self.old self.new) }
        ensures err { OnErr result
            (StillHasMarks D.Disk self.old (after_digest self.old.marks) self.new) }
        ensures same { KeepsSnapshot D.Disk self.old self.new }
        ensures cause { HasCount (D.faults self.old.slots.disk) (D.faults self.new.slots.disk)
            result }
    {
        kept_disk_leaves_its_meanings();
        match self.marks.next_digest() {
            None => Ok(None),
            Some((era, Some(page))) => {
                self.digest_page(page)?;
                Ok(Some((era, Some(page))))
            }
            Some((era, None)) => {
                self.digest_set(era)?;
                Ok(Some((era, None)))
            }
        }
    }
}
