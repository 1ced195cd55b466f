//! The marks of a session: the write set of the present era, at most sixteen archived sets, and the era array. All
//! memory for them is taken at once, so that a mark and an era switch take none.

ghost use Rattle.std.specs.Prelude.{◌≡◌, ◌==◌, ◌<◌, ℕ, false, true, length, replicate, IfOk, vec_len, vec_capacity, All};
ghost use Rattle.era_base.specs.Flags.{has};
ghost use Rattle.era_base.specs.declared.limits.TheConstants.{LAST_ERA};
ghost use Rattle.era_model.specs.Conditions.{ListsExactly};
ghost use Rattle.era_model.specs.MarkLaws.{LastsAreBounded, MarkGivesEra, SwitchKeepsMarks};
ghost use Rattle.era_model.specs.Marks.{blocks_of_marks, marks_last_era, no_marks, rolled, with_block, written_since};
ghost use Rattle.era_model.specs.Validity.{AreValidMarks};

use crate::listing::add_run;
use crate::room::take_set;
use crate::write_set::WriteSet;
use era_base::{Geometry, MOST_SETS, Memory, Runs};
use era_model::{last_eras_are_bounded, mark_gives_last_era, switch_keeps_last_eras};
use std::alloc::Global;
use std::marker::Model;
use std::mem;

/// The marks of a session in memory. A contract sees them block by block.
#[derive(Debug, Drop)]
pub struct SessionMarks {
    geometry: Geometry,
    era: u32,
    array: Vec<u32>,
    archive: Vec<WriteSet>,
    current: Vec<bool>,
    spare: Vec<WriteSet>,
}

impl Model for SessionMarks {
    ghost use Rattle.std.specs.Prelude.{vec_capacity};
    ghost use Rattle.era_model.specs.Marks.{BlockMarks};
    ghost use Rattle.era_marks.specs.Parts.{AreParts};

    ghost Value = { BlockMarks };

    ghost view = { λ m. record {
      sectors = m.geometry.sectors;
      block_sectors = m.geometry.block_sectors;
      era = m.era;
      array = m.array.items;
      archive = m.archive.items;
      current = m.current.items;
    } };

    ghost invariant = { λ m. AreParts
        (record {
          sectors = m.geometry.sectors;
          block_sectors = m.geometry.block_sectors;
          era = m.era;
          array = m.array.items;
          archive = m.archive.items;
          current = m.current.items;
        })
        m.spare.items (vec_capacity m.archive) };
}

/// As many sets as can be archived, without blocks.
fn spare_sets(alloc: Global, blocks: usize) -> Result<Vec<WriteSet>, Memory>
    ensures count { IfOk result (λ sets. vec_len sets ≡ MOST_SETS) }
    ensures sizes { IfOk result (λ sets. All (λ set. length set.blocks ≡ blocks) sets.items) }
{
    let mut sets = Vec::with_capacity(alloc, MOST_SETS as usize)?;
    for _ in 0..MOST_SETS {
        sets.push(WriteSet::new(0, vec![in alloc; false; blocks]?))?;
    }
    Ok(sets)
}

impl SessionMarks {
    /// No marks, in an era from 1 on. It takes the memory for all that follows but for the lists.
    pub fn new(alloc: Global, geometry: &Geometry, era: u32) -> Result<SessionMarks, Memory>
        requires { 0 < era }
        ensures { IfOk result (λ marks. marks
            ≡ no_marks geometry.now.sectors geometry.now.block_sectors era) }
    {
        let blocks = geometry.blocks() as usize;
        Ok(SessionMarks {
            geometry: *geometry,
            era,
            array: vec![in alloc; 0; blocks]?,
            archive: Vec::with_capacity(alloc, MOST_SETS as usize)?,
            current: vec![in alloc; false; blocks]?,
            spare: spare_sets(alloc, blocks)?,
        })
    }

    /// The present era.
    pub fn era(&self) -> u32
        ensures { result ≡ self.now.era }
    {
        self.era
    }

    /// Whether the block is marked in the present era.
    pub fn is_marked(&self, block: u32) -> bool
        requires { block < blocks_of_marks self.now }
        ensures value { result ≡ has self.now.current block }
        ensures valid { AreValidMarks self.now }
        ensures lasts { LastsAreBounded self.now }
    {
        last_eras_are_bounded();
        self.current[block as usize]
    }

    /// Marks the block in the present era.
    pub fn mark(&mut self, block: u32)
        requires { block < blocks_of_marks self.old }
        ensures value { self.new ≡ with_block self.old block }
        ensures lasts { MarkGivesEra self.old block }
    {
        mark_gives_last_era();
        self.current[block as usize] = true;
    }

    /// Moves to the next era, which is below 2^32: the current set is archived, and where sixteen sets are archived the
    /// oldest of them is merged into the era array before.
    pub fn roll(&mut self)
        requires { self.old.era < LAST_ERA }
        ensures value { self.new ≡ rolled self.old }
        ensures lasts { SwitchKeepsMarks self.old }
    {
        switch_keeps_last_eras();
        let mut set = take_set(&mut self.array, &mut self.archive, &mut self.spare).into_blocks();
        set.fill(false);
        let ended = mem::replace(&mut self.current, set);
        self.archive.push_reserved(WriteSet::new(self.era, ended));
        self.era += 1;
    }

    /// The era in which the block was last marked, 0 for never.
    fn last_era(&self, block: u32) -> u32
        requires { block < blocks_of_marks self.now }
        ensures { result ≡ marks_last_era self.now block }
    {
        let at = block as usize;
        let mut last = self.array[at];
        for set in &self.archive {
            last = last.max(set.era_of(at));
        }
        if self.current[at] {
            last.max(self.era)
        } else {
            last
        }
    }

    /// The blocks that were marked in the era or a later one. Era 0 means the same as 1.
    pub fn since(&self, alloc: Global, era: u32) -> Result<Runs, Memory>
        ensures { IfOk result (ListsExactly (blocks_of_marks self.now)
            (written_since self.now era)) }
    {
        let mut runs = Runs::new(alloc);
        let mut begin = 0;
        for block in 0..self.geometry.blocks() {
            if self.last_era(block) < era.max(1) {
                add_run(&mut runs, begin, block)?;
                begin = block + 1;
            }
        }
        add_run(&mut runs, begin, self.geometry.blocks())?;
        Ok(runs)
    }
}
