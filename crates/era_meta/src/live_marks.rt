//! The marks in memory. All memory for them is taken at once, so that a mark and an era switch take none.

ghost use Rattle.std.specs.Prelude.{◌≡◌, ◌<◌, length, slice_set, IfOk};
ghost use Rattle.std.specs.List.{AllByRecursion};
ghost use Rattle.era_base.specs.Flags.{has};
ghost use Rattle.era_base.specs.declared.limits.TheConstants.{LAST_ERA, MOST_SETS};
ghost use Rattle.era_model.specs.Marks.{blocks_of_marks, no_marks, rolled, with_block};
ghost use Rattle.era_model.specs.Validity.{AreValidMarks};

use crate::live_set::LiveSet;
use crate::merging::{ROOM, take_set};
use era_array::EraArray;
use era_base::{Geometry, Memory, ReservedList};
use era_model::{mark_gives_last_era, switch_keeps_last_eras};
use era_sets::BitSet;
use std::alloc::Global;
use std::marker::Model;
use std::mem;

/// The marks of a metadata disk. A contract sees them block by block.
#[derive(Debug, Drop)]
pub struct LiveMarks {
    pub(crate) geometry: Geometry,
    pub(crate) era: u32,
    pub(crate) array: EraArray,
    pub(crate) current: BitSet,
    pub(crate) archive: ReservedList<LiveSet, { ROOM }>,
    pub(crate) spare: ReservedList<LiveSet, { ROOM }>,
}

impl Model for LiveMarks {
    ghost use Rattle.era_model.specs.Marks.{BlockMarks};
    ghost use Rattle.era_meta.specs.LiveParts.{AreLiveParts};

    ghost Value = { BlockMarks };

    ghost view = { λ m. record {
      sectors = m.geometry.sectors;
      block_sectors = m.geometry.block_sectors;
      era = m.era;
      array = m.array;
      archive = m.archive;
      current = m.current;
    } };

    ghost invariant = { λ m. AreLiveParts
        (record {
          sectors = m.geometry.sectors;
          block_sectors = m.geometry.block_sectors;
          era = m.era;
          array = m.array;
          archive = m.archive;
          current = m.current;
        })
        m.spare };
}

/// As many sets as can be archived, without blocks.
fn spare_sets(alloc: Global, blocks: u32) -> Result<ReservedList<LiveSet, { ROOM }>, Memory>
    ensures count { IfOk result (λ sets. length sets ≡ MOST_SETS) }
    ensures sizes { IfOk result (AllByRecursion (λ set. length set.blocks ≡ blocks)) }
{
    let mut sets = ReservedList::with_room(alloc)?;
    for _ in 0..ROOM {
        sets.push_reserved(LiveSet::new(0, BitSet::new(alloc, blocks)?));
    }
    Ok(sets)
}

impl LiveMarks {
    /// No marks, in era 1. It takes the memory for all marks that follow.
    pub fn new(alloc: Global, geometry: &Geometry) -> Result<LiveMarks, Memory>
        ensures { IfOk result (λ marks. marks
            ≡ no_marks geometry.now.sectors geometry.now.block_sectors 1) }
    {
        let blocks = geometry.blocks();
        let array = EraArray::new(alloc, blocks)?;
        let current = BitSet::new(alloc, blocks)?;
        let archive = ReservedList::with_room(alloc)?;
        let spare = spare_sets(alloc, blocks)?;
        Ok(LiveMarks {
            geometry: *geometry,
            era: 1,
            array,
            current,
            archive,
            spare,
        })
    }

    /// The marks are valid, whatever was done with them.
    pub fn are_valid(&self)
        ensures { AreValidMarks self.now }
    {
        let _era = self.era;
    }

    /// The era array.
    pub fn array(&self) -> &EraArray
        ensures { result.now ≡ self.now.array }
    {
        &self.array
    }

    /// The set of the present era.
    pub fn current(&self) -> &BitSet
        ensures { result.now ≡ self.now.current }
    {
        &self.current
    }

    /// The archived sets, the oldest first.
    pub fn archive(&self) -> &[LiveSet]
        ensures { result.now ≡ self.now.archive }
    {
        self.archive.as_slice()
    }

    /// The present era.
    pub fn era(&self) -> u32
        ensures { result ≡ self.now.era }
    {
        self.era
    }

    /// Whether the block is marked in the present era. A block past the end never is.
    pub fn is_marked(&self, block: u32) -> bool
        ensures { result ≡ has self.now.current block }
    {
        self.current.has(block)
    }

    /// Marks the block in the present era.
    pub fn mark(&mut self, block: u32)
        requires { block < blocks_of_marks self.old }
        ensures { self.new ≡ with_block self.old block }
    {
        mark_gives_last_era();
        self.current.mark(block);
    }

    /// Marks the block in the present era, or takes its mark away: it undoes a mark that wasn't stored.
    pub fn restore(&mut self, block: u32, was_marked: bool)
        requires { block < blocks_of_marks self.old }
        ensures { self.new ≡ record self.old {
          current = slice_set self.old.current block was_marked;
        } }
    {
        if was_marked {
            self.current.mark(block);
        } else {
            self.current.unmark(block);
        }
    }

    /// Moves to the next era, which is below 2^32: the current set is archived, and where sixteen sets are archived the
    /// oldest of them is merged into the era array before.
    pub fn roll(&mut self)
        requires { self.old.era < LAST_ERA }
        ensures { self.new ≡ rolled self.old }
    {
        switch_keeps_last_eras();
        let mut set = take_set(&mut self.array, &mut self.archive, &mut self.spare);
        set.clear();
        let ended = mem::replace(&mut self.current, set);
        self.archive.push_reserved(LiveSet::new(self.era, ended));
        self.era += 1;
    }
}
