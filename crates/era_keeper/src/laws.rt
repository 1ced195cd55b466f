//! What follows of a keeper's own entries. The functions do nothing; their clauses are the laws.

ghost use Rattle.std.specs.Prelude.{◌≡◌, Bool, true, List};
ghost use Rattle.era_model.specs.Legal.{IsLegal, IsOpening};
ghost use Rattle.era_model.specs.declared.opening.Opening.{Opening};
ghost use Rattle.era_notes.specs.Notes.{Note, own_history};
ghost use Rattle.era_keeper.specs.Keepers.{EntriesStand, KeeperView};
ghost use Rattle.era_keeper.specs.OwnEntries.{AllKeepWithin, AreKeepersLegal};

/// The entries of a keeper are a legal history by themselves, where each that tells that the era was kept tells of at most
/// as many stripes as the session has. How many stripes were inside is known to the gate alone.
pub fn keepers_entries_are_legal()
    ensures entries { (opening : Opening) (notes : List Note) → IsOpening opening
        → AreKeepersLegal opening notes → AllKeepWithin opening.stripes notes
        → IsLegal (own_history opening notes) }
    ensures stands { (tells : Bool) (opening : Opening) (view : KeeperView)
        → EntriesStand tells opening view
        → AllKeepWithin opening.stripes view.notes → IsLegal (own_history opening view.notes) }
{}
