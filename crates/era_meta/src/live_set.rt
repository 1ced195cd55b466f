//! A write set whose era has ended, in memory.

ghost use Rattle.std.specs.Prelude.{◌≡◌};

use era_sets::BitSet;
use std::marker::Model;

/// The write set of an era that has ended.
#[derive(Debug, Drop)]
pub struct LiveSet {
    era: u32,
    blocks: BitSet,
}

impl Model for LiveSet {
    ghost use Rattle.era_model.specs.Marks.{ArchivedSet};

    ghost Value = { ArchivedSet };

    ghost view = { λ s. record { era = s.era; blocks = s.blocks } };
}

impl LiveSet {
    /// The set of an era, with these blocks.
    pub fn new(era: u32, blocks: BitSet) -> LiveSet
        ensures { result ≡ record { era = era; blocks = blocks } }
    {
        LiveSet { era, blocks }
    }

    /// The era of the set.
    pub fn era(&self) -> u32
        ensures { result ≡ self.now.era }
    {
        self.era
    }

    /// The blocks of the set.
    pub fn blocks(&self) -> &BitSet
        ensures { result.now ≡ self.now.blocks }
    {
        &self.blocks
    }

    /// The blocks of the set, for another era.
    pub fn into_blocks(self) -> BitSet
        ensures { result ≡ self.blocks }
    {
        self.blocks
    }
}
