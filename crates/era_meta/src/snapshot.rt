//! The snapshot in memory.

ghost use Rattle.std.specs.Prelude.{◌≡◌, option_copied};

use crate::live_marks::LiveMarks;
use era_layout::Root;

/// A snapshot, or room for one: where none is held, the next one takes the memory of the root and of the marks.
#[derive(Debug, Drop)]
pub struct Snapshot {
    /// Whether a snapshot is held.
    pub is_held: bool,
    /// The snapshot's root.
    pub root: Root,
    /// The snapshot's marks.
    pub marks: LiveMarks,
}

impl Snapshot {
    ghost use Rattle.era_meta.specs.Areas.{held_fields};
    ghost use Rattle.era_meta.specs.Held.{snapshot_root};

    /// The snapshot's root, if one is held.
    pub fn held_root(&self) -> Option<&Root>
        ensures { held_fields (option_copied result) ≡ snapshot_root self.now }
    {
        if self.is_held { Some(&self.root) } else { None }
    }
}
