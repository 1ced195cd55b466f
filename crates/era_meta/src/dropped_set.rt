//! A set that was dropped from the archived ones, put back in its place. It takes no memory.

ghost use Rattle.std.specs.Prelude.{◌≡◌, ◌+◌, ◌<◌, ◌≤◌, ℕ, Bool, List, [], ◌∷◌, ◌++◌, length, take};
ghost use Rattle.era_base.specs.Bits.{bit_of_words};
ghost use Rattle.era_base.specs.Flags.{has};
ghost use Rattle.era_base.specs.declared.limits.TheConstants.{MOST_SETS};
ghost use Rattle.era_model.specs.Marks.{ArchivedSet, BlockMarks};
ghost use Rattle.era_meta.specs.Digesting.{SayOldest, WasDropped};

use crate::live_marks::LiveMarks;
use crate::live_set::LiveSet;
use crate::merging::ROOM;
use era_base::{ReservedList, has_bit};
use era_sets::BitSet;

/// Makes a set one of other blocks, whose bits these words have.
pub(crate) fn refill(set: &mut BitSet, words: &[u64])
    ensures { (flags : List Bool) → length flags ≡ length set.old
        → ((block : ℕ) → bit_of_words words.now block ≡ has flags block) → set.new ≡ flags }
{
    set.clear();
    for block in 0..set.len() {
        if has_bit(words, block) {
            set.mark(block);
        }
    }
}

/// Moves the last of some sets to the first place.
fn last_to_front(sets: &mut ReservedList<LiveSet, { ROOM }>)
    requires { length sets.old ≤ MOST_SETS }
    ensures { (front : List ArchivedSet) (last : ArchivedSet) → sets.old ≡ front ++ last ∷ []
        → sets.new ≡ last ∷ front }
{
    for _ in 0..sets.len().saturating_sub(1) {
        let first = sets.take_first();
        sets.push_reserved(first);
    }
}

impl LiveMarks {
    /// Copies the words of the oldest archived set, and says how many there are.
    pub fn copy_oldest(&self, into: &mut [u64]) -> usize
        requires some { 0 < length self.now.archive }
        requires room { length into.old ≡ 1024 }
        ensures count { result ≤ 1024 }
        ensures copied { SayOldest (take result into.new) self.now }
    {
        let _blocks = self.geometry.blocks();
        let oldest = &self.archive.as_slice()[0];
        let words = oldest.blocks().words();
        into[..words.len()].copy_from_slice(words);
        words.len()
    }

    /// Puts a set that was dropped back as the oldest archived one, and so undoes the drop.
    pub fn take_back(&mut self, era: u32, words: &[u64])
        requires { (before : BlockMarks) × WasDropped era words.now before self.old }
        ensures { (before : BlockMarks) → WasDropped era words.now before self.old
            → self.new ≡ before }
    {
        let mut blocks = self.spare.take_first().into_blocks();
        refill(&mut blocks, words);
        self.archive.push_reserved(LiveSet::new(era, blocks));
        last_to_front(&mut self.archive);
    }
}
