//! Marks block by block.

ghost use Rattle.std.specs.Prelude.{◌≡◌, ◌↔◌, ◌/◌, ◌<◌, ◌≤◌, ◌^◌, ◌&&◌, IfOk, IsTrue, if◌then◌else◌, length, option_map};
ghost use Rattle.era_base.specs.Flags.{has};
ghost use Rattle.era_core.specs.Present.{is_on_page};
ghost use Rattle.era_model.specs.Digest.{digest_of, digested, first_untranscribed};
ghost use Rattle.era_model.specs.Usage.{pages_of_marks};
ghost use Rattle.era_model.specs.Marks.{BlockMarks, blocks_of_marks, entry_of, last_archived, marks_last_era, rolled, transcribed, with_block, with_oldest_merged};

use crate::block_lists::{
    are_entries, are_flags, are_sets, copies_of, entries_of, flags_of, sets_of,
};
use crate::block_set::BlockSet;
use era_base::{Geometry, MOST_SETS, Memory};
use era_model::Marks;
use std::alloc::Global;
use std::marker::Model;
use std::mem;

/// Marks with each block's entry and flags.
#[derive(Debug, Drop)]
pub struct BlockTable {
    geometry: Geometry,
    era: u64,
    array: Vec<u64>,
    archive: Vec<BlockSet>,
    current: Vec<bool>,
}

impl Model for BlockTable {
    ghost Value = { BlockMarks };

    ghost view = { λ t. record {
      sectors = t.geometry.sectors;
      block_sectors = t.geometry.block_sectors;
      era = t.era;
      array = t.array.items;
      archive = t.archive.items;
      current = t.current.items;
    } };
}

impl BlockTable {
    /// The marks of the runs.
    pub fn of_marks(alloc: Global, marks: &Marks) -> Result<BlockTable, Memory>
        ensures { IfOk result (λ t. t ≡ marks.now) }
    {
        let blocks = marks.geometry.blocks();
        Ok(BlockTable {
            geometry: marks.geometry,
            era: u64::from(marks.era),
            array: entries_of(alloc, blocks, marks.array.as_slice())?,
            archive: sets_of(alloc, blocks, marks.archive.as_slice())?,
            current: flags_of(alloc, blocks, marks.current.as_slice())?,
        })
    }

    /// The same marks once more.
    pub fn copy(&self, alloc: Global) -> Result<BlockTable, Memory>
        ensures { IfOk result (λ t. t ≡ self.now) }
    {
        Ok(BlockTable {
            geometry: self.geometry,
            era: self.era,
            array: Vec::from_slice(alloc, self.array.as_slice())?,
            archive: copies_of(alloc, self.archive.as_slice())?,
            current: Vec::from_slice(alloc, self.current.as_slice())?,
        })
    }

    /// Marks the block in the present era.
    pub fn mark(&mut self, block: u32)
        ensures { self.new ≡ with_block self.old block }
    {
        if (block as usize) < self.current.len() {
            self.current[block as usize] = true;
        }
    }

    /// Merges the oldest archived set, if there is one, into the array.
    fn merge_oldest(&mut self)
        ensures { self.new ≡ with_oldest_merged self.old self.old.archive }
    {
        if self.archive.is_empty() {
            return;
        }
        let oldest = self.archive.remove(0);
        transcribe(&mut self.array, &oldest, None);
    }

    /// The marks after an era switch.
    pub fn after_switch(&self, alloc: Global) -> Result<BlockTable, Memory>
        requires { self.now.era < 2 ^ 63 }
        ensures { IfOk result (λ t. t ≡ rolled self.now) }
    {
        let mut next = self.copy(alloc)?;
        if next.archive.len() >= MOST_SETS as usize {
            next.merge_oldest();
        }
        let fresh = vec![in alloc; false; next.current.len()]?;
        let ended = mem::replace(&mut next.current, fresh);
        next.archive.push(BlockSet::new(next.era, ended))?;
        next.era += 1;
        Ok(next)
    }

    /// Transcribes the page of the oldest archived set, or drops that set.
    pub fn digest(&mut self, page: Option<u32>)
        ensures { self.new ≡ digested self.old page }
    {
        if self.archive.is_empty() {
            return;
        }
        match page {
            Some(page) => transcribe(&mut self.array, &self.archive[0], Some(page)),
            None => {
                let _dropped = self.archive.remove(0);
            }
        }
    }

    /// What a digest does next: the oldest set's era, and the page that has a block to transcribe, if one has.
    pub fn next_digest(&self) -> Option<(u64, Option<usize>)>
        ensures { result ≡ digest_of self.now.archive self.now.array }
    {
        match self.archive.first() {
            Some(oldest) => Some((oldest.era(), first_page(oldest, self.array.as_slice()))),
            None => None,
        }
    }

    /// Whether these are the marks.
    pub fn is_of(&self, marks: &Marks) -> bool
        ensures { IsTrue result ↔ (self.now ≡ marks.now) }
    {
        self.geometry.sectors() == marks.geometry.sectors()
            && self.geometry.block_sectors() == marks.geometry.block_sectors()
            && self.era == u64::from(marks.era)
            && are_entries(
                self.array.as_slice(),
                marks.geometry.blocks(),
                marks.array.as_slice(),
            )
            && are_sets(
                self.archive.as_slice(),
                marks.geometry.blocks(),
                marks.archive.as_slice(),
            )
            && are_flags(
                self.current.as_slice(),
                marks.geometry.blocks(),
                marks.current.as_slice(),
            )
    }

    /// How many blocks the marks are of.
    pub fn blocks(&self) -> u32
        ensures { result ≡ blocks_of_marks self.now }
    {
        self.geometry.blocks()
    }

    /// How many sets are archived.
    pub fn set_count(&self) -> usize
        ensures { result ≡ length self.now.archive }
    {
        self.archive.len()
    }

    /// How many metadata pages the marks take.
    pub fn pages(&self) -> u64
        requires { length self.now.archive ≤ MOST_SETS }
        ensures value { result ≡ pages_of_marks self.now }
        ensures few { result ≤ 128 }
    {
        u64::from(self.geometry.array_pages())
            + u64::from(self.geometry.bit_pages()) * (1 + self.archive.len() as u64)
    }

    /// The last marked era of the block, 0 for never and past the end.
    pub fn last_era(&self, block: u32) -> u64
        ensures { result ≡ marks_last_era self.now block }
    {
        let present = era_if(has_block(self.current.as_slice(), block), self.era);
        let entry = entry_at(self.array.as_slice(), block as usize);
        entry.max(last_of_sets(self.archive.as_slice(), block).max(present))
    }
}

/// The era where the flag is set, else 0.
fn era_if(flag: bool, era: u64) -> u64
    ensures { result ≡ (if flag then era else 0) }
{
    if flag { era } else { 0 }
}

/// Whether the block's flag is set; past the end it isn't.
fn has_block(flags: &[bool], block: u32) -> bool
    ensures { result ≡ has flags.now block }
{
    match flags.get(block as usize) {
        Some(flag) => *flag,
        None => false,
    }
}

/// The block's entry, 0 past the end.
fn entry_at(array: &[u64], block: usize) -> u64
    ensures { result ≡ entry_of array.now block }
{
    match array.get(block) {
        Some(entry) => *entry,
        None => 0,
    }
}

/// The greatest era of the sets that have the block, 0 where none has it.
fn last_of_sets(sets: &[BlockSet], block: u32) -> u64
    ensures { result ≡ last_archived sets.now block }
{
    let mut last = 0;
    for set in sets {
        last = last.max(era_if(set.has(block), set.era()));
    }
    last
}

/// The page of 1,024 blocks with the first block of the set whose entry is another era than the set's, or `None`.
fn first_page(set: &BlockSet, array: &[u64]) -> Option<usize>
    ensures { result ≡ option_map (λ block. block / 1024)
        (first_untranscribed set.now.era set.now.blocks array.now 0) }
{
    for (block, flag) in set.flags().iter().enumerate() {
        if *flag && entry_at(array, block) != set.era() {
            return Some(block / 1024);
        }
    }
    None
}

/// Gives each block of the page, or of all pages, that is in the set the set's era as its entry.
fn transcribe(array: &mut Vec<u64>, set: &BlockSet, page: Option<u32>)
    ensures { array.new.items ≡ transcribed set.now (is_on_page page) 0 array.old.items }
{
    for (block, entry) in array.iter_mut().enumerate() {
        transcribe_entry(entry, block, set, page);
    }
}

/// Gives the block the set's era as its entry, if it is on the page and in the set.
fn transcribe_entry(entry: &mut u64, block: usize, set: &BlockSet, page: Option<u32>)
    ensures { entry.new
        ≡ (if is_on_page page block && has set.now.blocks block then set.now.era else entry.old) }
{
    let on_page = match page {
        Some(page) => block / 1024 == page as usize,
        None => true,
    };
    if on_page && set.has_index(block) {
        *entry = set.era();
    }
}
