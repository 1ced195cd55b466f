//! Entries in the chunks in which the memory for them came.

ghost use Rattle.std.specs.Prelude.{◌≡◌, ◌+◌, ◌<◌, [], ◌∷◌, ◌++◌};
ghost use Rattle.era_notes.specs.Rooms.{entries_in, free_in, last_in};

use era_model::Entry;

/// Entries in order: each chunk, behind those of the chunks before it.
#[derive(Drop)]
pub enum Chunks {
    Start,
    After(Vec<Entry>, Box<Chunks>),
}

impl Chunks {
    /// Adds an entry behind the others. It takes no memory.
    pub fn push(&mut self, entry: Entry)
        requires { 0 < free_in self.old }
        ensures entries { entries_in self.new ≡ entries_in self.old ++ entry ∷ [] }
        ensures last { last_in self.new ≡ last_in self.old ++ entry ∷ [] }
        ensures room { free_in self.new + 1 ≡ free_in self.old }
    {
        match self {
            Chunks::Start => unreachable!(),
            Chunks::After(entries, _) => entries.push_reserved(entry),
        }
    }

    /// The entries of the last chunk, in order: those that were pushed since the last room was admitted. It takes no memory.
    pub fn last(&self) -> &[Entry]
        ensures { result.now ≡ last_in self.now }
    {
        match self {
            Chunks::Start => &[],
            Chunks::After(entries, _) => entries,
        }
    }
}
