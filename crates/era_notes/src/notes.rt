//! The entries that one device's owner drew, with the device as it was then. They take no bytes that grow.

ghost use Rattle.std.specs.Prelude.{◌≡◌, [], ◌∷◌};
ghost use Rattle.era_notes.specs.Notes.{notes_of, note_at, first_device};

use era_base::Disk;
use era_model::Entry;
use std::snapshot::Snapshot;

/// The device as the session began on it, and then each entry with the device as it was when the entry was drawn. For
/// contracts alone: one byte when the program runs.
#[derive(Drop)]
pub enum Notes<D> {
    Start(Snapshot<D>),
    After(Snapshot<Entry>, Snapshot<D>, Snapshot<Notes<D>>),
}

impl<D: Disk> Notes<D> {
    /// No entry, at the device as it is now. It takes no memory.
    pub fn begin(device: &D) -> Notes<D>
        ensures notes { notes_of D.Disk result ≡ [] }
        ensures first { first_device result ≡ device.now }
    {
        Notes::Start(Snapshot::of(device))
    }

    /// Adds the entry at the device as it is now. It takes no memory.
    pub fn add(&mut self, entry: &Entry, device: &D)
        ensures notes { notes_of D.Disk self.new
            ≡ note_at D.Disk entry.now device.now ∷ notes_of D.Disk self.old }
        ensures first { first_device self.new ≡ first_device self.old }
    {
        let before = Snapshot::of(self);
        *self = Notes::After(Snapshot::of(entry), Snapshot::of(device), before);
    }
}
