//! Copies of marks and of roots, into memory that was taken before.

ghost use Rattle.std.specs.Prelude.{◌≡◌, ◌+◌, ◌≤◌, ℕ, List, [], ◌++◌, length, drop, map};
ghost use Rattle.std.specs.List.{AllByRecursion};
ghost use Rattle.era_base.specs.declared.limits.TheConstants.{MOST_SETS};
ghost use Rattle.era_layout.specs.Root.{fields_of};
ghost use Rattle.era_meta.specs.Copies.{CanCopyLists, CanCopyRoot};

use crate::areas::{SpareLists, release_lists};
use crate::dropped_set::refill;
use crate::live_marks::LiveMarks;
use crate::live_set::LiveSet;
use crate::merging::ROOM;
use era_base::ReservedList;
use era_layout::{ArchiveList, Archived, Root};

/// Puts all archived sets behind the spare ones.
fn release_sets(
    archive: &mut ReservedList<LiveSet, { ROOM }>,
    spare: &mut ReservedList<LiveSet, { ROOM }>,
)
    requires { length archive.old + length spare.old ≤ MOST_SETS }
    ensures archive { archive.new ≡ [] }
    ensures spare { spare.new ≡ spare.old ++ archive.old }
{
    for _ in 0..archive.len() {
        let set = archive.take_first();
        spare.push_reserved(set);
    }
}

/// Archives copies of sets, where none is archived, each in the first spare one.
fn copy_sets(
    archive: &mut ReservedList<LiveSet, { ROOM }>,
    spare: &mut ReservedList<LiveSet, { ROOM }>,
    sets: &[LiveSet],
)
    requires none { archive.old ≡ [] }
    requires sizes { (blocks : ℕ)
        × AllByRecursion (λ set. length set.blocks ≡ blocks) sets.now
        × AllByRecursion (λ set. length set.blocks ≡ blocks) spare.old }
    requires enough { length sets.now ≤ length spare.old }
    requires count { length sets.now ≤ MOST_SETS }
    ensures archive { archive.new ≡ sets.now }
    ensures spare { spare.new ≡ drop (length sets.now) spare.old }
{
    for set in sets {
        let mut blocks = spare.take_first().into_blocks();
        refill(&mut blocks, set.blocks().words());
        archive.push_reserved(LiveSet::new(set.era(), blocks));
    }
}

impl LiveMarks {
    /// Makes the marks those of others of the same geometry. It takes no memory.
    pub fn copy_from(&mut self, other: &LiveMarks)
        requires { (self.old.sectors ≡ other.now.sectors)
            × (self.old.block_sectors ≡ other.now.block_sectors) }
        ensures { self.new ≡ other.now }
    {
        self.array.put_entries(0, other.array.as_slice());
        refill(&mut self.current, other.current.words());
        release_sets(&mut self.archive, &mut self.spare);
        copy_sets(&mut self.archive, &mut self.spare, other.archive.as_slice());
        self.era = other.era;
    }
}

/// Archives copies of sets, where none is archived, each with the first spare list.
fn copy_lists(archive: &mut ArchiveList, spare: &mut SpareLists, sets: &[Archived])
    requires none { archive.old ≡ [] }
    requires lists { CanCopyLists sets.now spare.old }
    ensures archive { archive.new ≡ sets.now }
    ensures spare { spare.new ≡ drop (length sets.now) spare.old }
{
    for set in sets {
        let mut pages = spare.take_first();
        pages.copy_from(set.pages.as_slice());
        archive.push_reserved(Archived {
            era: set.era,
            pages,
        });
    }
}

/// Makes a root another one of the same geometry. Lists of pages come from its own sets and the spare ones; it takes
/// no memory.
pub fn copy_root(root: &mut Root, spare: &mut SpareLists, other: &Root)
    requires { CanCopyRoot (fields_of root.old) spare.old (fields_of other.now) }
    ensures root { fields_of root.new ≡ fields_of other.now }
    ensures spare { spare.new ≡ drop (length other.now.archive)
        (spare.old ++ map (λ set. set.pages) root.old.archive) }
{
    root.geometry = other.geometry;
    root.era = other.era;
    root.held = other.held;
    root.array.copy_from(other.array.as_slice());
    root.current.copy_from(other.current.as_slice());
    release_lists(&mut root.archive, spare);
    copy_lists(&mut root.archive, spare, other.archive.as_slice());
}
