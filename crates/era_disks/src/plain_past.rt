//! The past states of a disk that never fails, which take no bytes.

use std::snapshot::Snapshot;

/// The bytes before the present ones, for contracts alone: one byte when the program runs, and none for a call.
#[derive(Drop)]
pub enum PlainPast {
    Start,
    After(Snapshot<Vec<u8>>, Snapshot<PlainPast>),
}

impl PlainPast {
    ghost use Rattle.std.specs.Prelude.{◌≡◌, [], ◌∷◌, ◌++◌};
    ghost use Rattle.era_disks.specs.PlainPast.{plain_past, plain_state};

    /// The present bytes become the last of the past ones.
    pub fn pass(&mut self, now: &Vec<u8>)
        ensures { plain_past self.new ≡ plain_past self.old ++ plain_state now.now.items ∷ [] }
    {
        let before = Snapshot::of(self);
        *self = PlainPast::After(Snapshot::of(now), before);
    }
}
