//! A write set: the blocks that were marked in one era.

ghost use Rattle.std.specs.Prelude.{◌≡◌, ◌<◌, length, if◌then◌else◌};
ghost use Rattle.era_base.specs.Flags.{has};

use std::marker::Model;

/// The write set of an era, with a flag for each block.
#[derive(Debug, Drop)]
pub struct WriteSet {
    era: u32,
    blocks: Vec<bool>,
}

impl Model for WriteSet {
    ghost use Rattle.era_model.specs.Marks.{ArchivedSet};

    ghost Value = { ArchivedSet };

    ghost view = { λ s. record { era = s.era; blocks = s.blocks.items } };
}

impl WriteSet {
    /// The set of an era, with these flags.
    pub fn new(era: u32, blocks: Vec<bool>) -> WriteSet
        ensures { result ≡ record { era = era; blocks = blocks.items } }
    {
        WriteSet { era, blocks }
    }

    /// The era of the set.
    pub fn era(&self) -> u32
        ensures { result ≡ self.now.era }
    {
        self.era
    }

    /// Whether the block is in the set.
    pub fn has(&self, block: usize) -> bool
        requires { block < length self.now.blocks }
        ensures { result ≡ has self.now.blocks block }
    {
        self.blocks[block]
    }

    /// The era of the set where the block is in it, else 0.
    pub fn era_of(&self, block: usize) -> u32
        requires { block < length self.now.blocks }
        ensures { result ≡ (if has self.now.blocks block then self.now.era else 0) }
    {
        if self.has(block) { self.era } else { 0 }
    }

    /// The flags of the blocks.
    pub fn into_blocks(self) -> Vec<bool>
        ensures { result.items ≡ self.blocks }
    {
        self.blocks
    }
}
