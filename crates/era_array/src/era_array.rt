//! The era array.

ghost use Rattle.std.specs.Prelude.{◌≡◌, ℕ, ◌+◌, ◌<◌, ◌≤◌, length, replicate, slice_index, IfOk};
ghost use Rattle.std.specs.Int.{div_ceil};
ghost use Rattle.era_base.specs.Runs.{ListExactly};
ghost use Rattle.era_array.specs.Entries.{transcribed_entry, entered_since};

use crate::since::Since;
use era_base::{Memory, Runs, has_bit};
use std::alloc::Global;
use std::marker::Model;

/// The blocks of a page of the era array.
const PAGE: usize = 1_024;

/// An era for each block of an origin, from block 0 on; 0 stands for none. A contract sees it as the list of the eras.
#[derive(Debug, Drop)]
pub struct EraArray {
    eras: Vec<u32>,
}

impl Model for EraArray {
    ghost use Rattle.std.specs.Prelude.{List, ℕ, length, ◌<◌};

    ghost Value = { List ℕ };

    ghost view = { λ a. a.eras.items };

    ghost invariant = { λ a. length a.eras.items < 4294967296 };
}

impl EraArray {
    /// No era for any of so many blocks.
    pub fn new(alloc: Global, blocks: u32) -> Result<EraArray, Memory>
        ensures { IfOk result (λ array. array ≡ replicate blocks 0) }
    {
        let eras = vec![in alloc; 0; blocks as usize]?;
        Ok(EraArray { eras })
    }

    /// The era of the block, 0 for none.
    pub fn get(&self, block: u32) -> u32
        requires { block < length self.now }
        ensures { result ≡ slice_index self.now block }
    {
        self.eras[block as usize]
    }

    /// The eras of all blocks.
    pub fn as_slice(&self) -> &[u32]
        ensures { result.now ≡ self.now }
    {
        &self.eras
    }

    /// Gives each block of a page of 1,024 blocks whose bit is set the era. The bit of the page's block k is bit `k % 64`,
    /// counted from the lowest, of word `k / 64`; a word that is lacking counts as 0.
    pub fn transcribe_page(&mut self, page: u32, words: &[u64], era: u32)
        requires page { page < div_ceil (length self.old) 1024 }
        requires words { length words.now ≤ 16 }
        ensures size { length self.new ≡ length self.old }
        ensures entries { (block : ℕ) → block < length self.old
            → slice_index self.new block ≡ transcribed_entry self.old page words.now era block }
    {
        let first = PAGE * page as usize;
        let end = (first + PAGE).min(self.eras.len());
        for block in first..end {
            if has_bit(words, (block - first) as u32) {
                self.eras[block] = era;
            }
        }
    }

    /// Puts eras into the places of a block and of those behind it. It takes no memory.
    pub fn put_entries(&mut self, first: u32, eras: &[u32])
        requires { first + length eras.now ≤ length self.old }
        ensures size { length self.new ≡ length self.old }
        ensures put { (index : ℕ) → index < length eras.now
            → slice_index self.new (first + index) ≡ slice_index eras.now index }
        ensures others { (block : ℕ) → (first ≤ block → first + length eras.now ≤ block)
            → slice_index self.new block ≡ slice_index self.old block }
    {
        for (index, era) in eras.iter().enumerate() {
            self.eras[first as usize + index] = *era;
        }
    }

    /// The blocks whose entry is the era or a later one, as runs. Era 0 means the same as 1. It takes memory for the runs
    /// alone.
    pub fn since(&self, alloc: Global, era: u32) -> Result<Runs, Memory>
        ensures { IfOk result (λ runs. ListExactly runs (entered_since self.now era)) }
    {
        Runs::of(alloc, &Since::new(&self.eras, era))
    }
}
