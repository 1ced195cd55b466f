//! One digest step of the marks in memory, and how it is undone. It takes no memory.

ghost use Rattle.std.specs.Prelude.{◌≡◌, ◌==◌, ◌&&◌, ◌<◌, ◌≤◌, ℕ, not, length, take, Option, Some, None};
ghost use Rattle.era_base.specs.Flags.{has};
ghost use Rattle.era_model.specs.Digest.{digest_of, digested, first_untranscribed};
ghost use Rattle.era_model.specs.Marks.{BlockMarks, entry_of};
ghost use Rattle.era_meta.specs.Digesting.{IsDigest, WasTranscribed, entries_of_page};

use crate::live_marks::LiveMarks;
use crate::live_set::LiveSet;
use crate::page_source::part;
use era_array::EraArray;
use era_model::digest_keeps_last_eras;

/// The blocks of a page of the era array.
const PAGE: usize = 1_024;

/// The words of a set for the blocks of a page of the era array.
const WORDS: usize = 16;

/// Whether a block of a set is left to transcribe: its entry of the era array is another era than the set's.
fn is_left(set: &LiveSet, array: &EraArray, block: u32) -> bool
    requires { block < length array.now }
    ensures { result ≡ (has set.now.blocks block
        && not (entry_of array.now block == set.now.era)) }
{
    set.blocks().has(block) && array.get(block) != set.era()
}

/// The first block of a set that is left to transcribe.
fn first_left(set: &LiveSet, array: &EraArray) -> Option<u32>
    requires { length set.now.blocks ≡ length array.now }
    ensures { result ≡ first_untranscribed set.now.era set.now.blocks array.now 0 }
{
    for block in 0..set.blocks().len() {
        if is_left(set, array, block) {
            return Some(block);
        }
    }
    None
}

impl LiveMarks {
    /// What the next digest step does: the era of the oldest archived set, and the least page of the era array that has
    /// a block to transcribe, or `None` where the set can be dropped. Nothing where no set is archived.
    pub fn next_digest(&self) -> Option<(u32, Option<u32>)>
        ensures { result ≡ digest_of self.now.archive self.now.array }
    {
        let oldest = self.archive.as_slice().first()?;
        let page = first_left(oldest, &self.array).map(|block| block / 1_024);
        Some((oldest.era(), page))
    }

    /// Copies the entries of a page of the era array, and says how many there are.
    pub fn copy_page(&self, page: u32, into: &mut [u32]) -> usize
        requires { length into.old ≡ 1024 }
        ensures count { result ≤ 1024 }
        ensures copied { take result into.new ≡ entries_of_page self.now.array page }
    {
        let entries = part(self.array.as_slice(), PAGE * page as usize, PAGE);
        into[..entries.len()].copy_from_slice(entries);
        entries.len()
    }

    /// Gives the blocks of a page that are in the oldest archived set its era as their entry.
    pub fn transcribe(&mut self, page: u32)
        requires { (era : ℕ) × IsDigest self.old era (Some page) }
        ensures { self.new ≡ digested self.old (Some page) }
    {
        digest_keeps_last_eras();
        let oldest = &self.archive.as_slice()[0];
        let words = part(oldest.blocks().words(), WORDS * page as usize, WORDS);
        self.array.transcribe_page(page, words, oldest.era());
    }

    /// Puts the entries of a page back, and so undoes its transcription.
    pub fn put_back(&mut self, page: u32, entries: &[u32])
        requires { (before : BlockMarks) × WasTranscribed page entries.now before self.old }
        ensures { (before : BlockMarks) → WasTranscribed page entries.now before self.old
            → self.new ≡ before }
    {
        let _blocks = self.geometry.blocks();
        self.array.put_entries(1_024 * page, entries);
    }

    /// Drops the oldest archived set, of which nothing is left to transcribe.
    pub fn drop_oldest(&mut self)
        requires { (era : ℕ) × IsDigest self.old era None }
        ensures { self.new ≡ digested self.old None }
    {
        digest_keeps_last_eras();
        let oldest = self.archive.take_first();
        self.spare.push_reserved(oldest);
    }
}
