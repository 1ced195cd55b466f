//! The last marked eras of blocks, and the blocks that were marked since an era.

ghost use Rattle.std.specs.Prelude.{◌≡◌, ◌<◌, ◌≤◌, IfOk, if◌then◌else◌};
ghost use Rattle.era_base.specs.Flags.{has};
ghost use Rattle.era_model.specs.Conditions.{ListsExactly};
ghost use Rattle.era_model.specs.Marks.{blocks_of_marks, last_archived, marks_last_era, written_since};

use crate::live_marks::LiveMarks;
use crate::live_set::LiveSet;
use era_base::{Memory, RunSource, Runs};
use std::alloc::Global;

/// The era of the set where the block is in it, else 0.
fn era_in_set(set: &LiveSet, block: u32) -> u32
    ensures { result ≡ (if has set.now.blocks block then set.now.era else 0) }
{
    if set.blocks().has(block) {
        set.era()
    } else {
        0
    }
}

/// The greatest era of the sets that have the block, 0 where none has it.
fn last_set_era(sets: &[LiveSet], block: u32) -> u32
    ensures { result ≡ last_archived sets.now block }
{
    let mut last = 0;
    for set in sets {
        last = last.max(era_in_set(set, block));
    }
    last
}

/// The blocks of marks that were marked in an era or a later one.
#[derive(Drop)]
struct MarkedSince<'a> {
    marks: &'a LiveMarks,
    era: u32,
}

impl RunSource for MarkedSince<'_> {
    ghost use Rattle.era_model.specs.Marks.{blocks_of_marks, written_since};

    ghost blocks = { λ since. blocks_of_marks since.marks.now };

    ghost has = { λ since. written_since since.marks.now since.era };

    fn blocks(&self) -> u32 {
        self.marks.are_valid();
        self.marks.blocks()
    }

    fn first_with(&self, from: u32, flag: bool) -> u32 {
        for block in from..self.blocks() {
            if (self.era.max(1) <= self.marks.last_era(block)) == flag {
                return block;
            }
        }
        self.blocks()
    }
}

impl LiveMarks {
    /// How many blocks the marks are of.
    pub fn blocks(&self) -> u32
        ensures { result ≡ blocks_of_marks self.now }
    {
        self.geometry.blocks()
    }

    /// The era in which the block was last marked, 0 for never. It takes no memory.
    pub fn last_era(&self, block: u32) -> u32
        requires { block < blocks_of_marks self.now }
        ensures { result ≡ marks_last_era self.now block }
    {
        let archived = last_set_era(self.archive.as_slice(), block);
        let last = self.array.get(block).max(archived);
        if self.current.has(block) {
            last.max(self.era)
        } else {
            last
        }
    }

    /// The blocks that were marked in the era or a later one. Era 0 means the same as 1. It takes memory for the runs
    /// alone.
    pub fn since(&self, alloc: Global, era: u32) -> Result<Runs, Memory>
        ensures { IfOk result (ListsExactly (blocks_of_marks self.now)
            (written_since self.now era)) }
    {
        self.are_valid();
        let runs = Runs::of(alloc, &MarkedSince { marks: self, era })?;
        let _runs = runs.as_slice();
        Ok(runs)
    }
}
