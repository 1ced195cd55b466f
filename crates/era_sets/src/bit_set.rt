//! Write sets.

ghost use Rattle.std.specs.Prelude.{◌≡◌, ◌<◌, ◌≤◌, ◌||◌, ℕ, true, false, length, replicate, slice_set, IfOk};
ghost use Rattle.std.specs.Int.{div_ceil};
ghost use Rattle.era_base.specs.Bits.{bit_of_words};
ghost use Rattle.era_base.specs.Flags.{has};
ghost use Rattle.era_base.specs.Runs.{ListExactly};

use crate::words::first_bit;
use era_base::{Memory, RunSource, Runs, has_bit};
use std::alloc::Global;
use std::marker::Model;

/// Blocks of an origin, from 0 on, of which some are in the set. A contract sees it as a flag for each block.
#[derive(Debug, Drop)]
pub struct BitSet {
    blocks: u32,
    words: Vec<u64>,
}

impl Model for BitSet {
    ghost use Rattle.std.specs.Prelude.{List, Bool};
    ghost use Rattle.era_base.specs.Bits.{bit_of_words};
    ghost use Rattle.era_base.specs.Flags.{tabulate};
    ghost use Rattle.era_sets.specs.Words.{ArePacked};

    ghost Value = { List Bool };

    ghost view = { λ s. tabulate 0 s.blocks (bit_of_words s.words.items) };

    ghost invariant = { λ s. ArePacked s.blocks s.words.items };
}

impl BitSet {
    /// The set of so many blocks that has none of them.
    pub fn new(alloc: Global, blocks: u32) -> Result<BitSet, Memory>
        ensures { IfOk result (λ set. set ≡ replicate blocks false) }
    {
        let words = vec![in alloc; 0; blocks.div_ceil(64) as usize]?;
        Ok(BitSet { blocks, words })
    }

    /// Of how many blocks the set is.
    pub fn len(&self) -> u32
        ensures { result ≡ length self.now }
    {
        self.blocks
    }

    /// Whether the set has the block. A block past the end is in no set.
    pub fn has(&self, block: u32) -> bool
        ensures { result ≡ has self.now block }
    {
        has_bit(&self.words, block)
    }

    /// Puts the block into the set.
    pub fn mark(&mut self, block: u32)
        requires { block < length self.old }
        ensures { self.new ≡ slice_set self.old block true }
    {
        self.words[(block / 64) as usize] |= 1 << (block % 64);
    }

    /// Takes the block out of the set.
    pub fn unmark(&mut self, block: u32)
        requires { block < length self.old }
        ensures { self.new ≡ slice_set self.old block false }
    {
        self.words[(block / 64) as usize] &= !(1 << (block % 64));
    }

    /// Takes all blocks out of the set.
    pub fn clear(&mut self)
        ensures { self.new ≡ replicate (length self.old) false }
    {
        self.words.fill(0);
    }

    /// Puts the blocks of another set of as many blocks into the set.
    pub fn union(&mut self, other: &BitSet)
        requires { length other.now ≡ length self.old }
        ensures size { length self.new ≡ length self.old }
        ensures flags { (block : ℕ) → has self.new block
            ≡ (has self.old block || has other.now block) }
    {
        for at in 0..self.words.len() {
            self.words[at] |= other.words[at];
        }
    }

    /// The bits of the blocks, 64 in a word, each from its lowest bit on. The bits past the last block are clear.
    pub fn words(&self) -> &[u64]
        ensures size { length result.now ≡ div_ceil (length self.now) 64 }
        ensures bits { (block : ℕ) → bit_of_words result.now block ≡ has self.now block }
    {
        &self.words
    }

    /// The blocks of the set, as runs. It takes memory for the runs alone, and passes over 64 blocks at once where all
    /// of them or none are in the set.
    pub fn runs(&self, alloc: Global) -> Result<Runs, Memory>
        ensures { IfOk result (λ runs. ListExactly runs (has self.now)) }
    {
        Runs::of(alloc, self)
    }
}

impl RunSource for BitSet {
    ghost use Rattle.std.specs.Prelude.{length};
    ghost use Rattle.era_base.specs.Flags.{has};

    ghost blocks = { λ set. length set };

    ghost has = { has };

    fn blocks(&self) -> u32 {
        self.len()
    }

    fn first_with(&self, from: u32, flag: bool) -> u32 {
        let blocks = self.blocks as usize;
        first_bit(&self.words, from as usize, flag).min(blocks) as u32
    }
}
