//! An archived set block by block.

ghost use Rattle.std.specs.Prelude.{◌≡◌, IfOk};
ghost use Rattle.era_base.specs.Flags.{has};
ghost use Rattle.era_model.specs.Marks.{ArchivedSet};

use era_base::Memory;
use std::alloc::Global;
use std::marker::Model;

/// For each block whether it was marked in an era that has ended.
#[derive(Debug, Drop)]
pub struct BlockSet {
    era: u64,
    blocks: Vec<bool>,
}

impl Model for BlockSet {
    ghost Value = { ArchivedSet };

    ghost view = { λ s. record { era = s.era; blocks = s.blocks.items } };
}

impl BlockSet {
    /// The set of an era. It takes no memory.
    pub fn new(era: u64, blocks: Vec<bool>) -> BlockSet
        ensures { result ≡ record { era = era; blocks = blocks.items } }
    {
        BlockSet { era, blocks }
    }

    /// The same set once more.
    pub fn copy(&self, alloc: Global) -> Result<BlockSet, Memory>
        ensures { IfOk result (λ s. s ≡ self.now) }
    {
        Ok(BlockSet {
            era: self.era,
            blocks: Vec::from_slice(alloc, self.blocks.as_slice())?,
        })
    }

    /// The era of the set.
    pub fn era(&self) -> u64
        ensures { result ≡ self.now.era }
    {
        self.era
    }

    /// Whether the set has the block.
    pub fn has(&self, block: u32) -> bool
        ensures { result ≡ has self.now.blocks block }
    {
        match self.blocks.get(block as usize) {
            Some(flag) => *flag,
            None => false,
        }
    }

    /// Whether the set has the block with this index.
    pub fn has_index(&self, block: usize) -> bool
        ensures { result ≡ has self.now.blocks block }
    {
        match self.blocks.get(block) {
            Some(flag) => *flag,
            None => false,
        }
    }

    /// For each block whether it is in the set.
    pub fn flags(&self) -> &[bool]
        ensures { result.now ≡ self.now.blocks }
    {
        self.blocks.as_slice()
    }
}
