//! How marks change, as laws: the functions do nothing, and their clauses are the laws.

ghost use Rattle.std.specs.Prelude.{◌≡◌, ℕ, ◌<◌, Option, Some};
ghost use Rattle.era_model.specs.Digest.{digest_of, digested};
ghost use Rattle.era_model.specs.MarkLaws.{LastsAreBounded, MarkGivesEra, SwitchKeepsMarks};
ghost use Rattle.era_model.specs.Marks.{BlockMarks, blocks_of_marks};
ghost use Rattle.era_model.specs.Promises.{KeepsLastEras};
ghost use Rattle.era_model.specs.Validity.{AreValidMarks};

/// An era switch, also one that merges the oldest of sixteen archived sets into the era array, keeps each block's last
/// marked era.
pub fn switch_keeps_last_eras()
    ensures { (m : BlockMarks) → AreValidMarks m → SwitchKeepsMarks m }
{}

/// A digest by its rule, which transcribes a page of the oldest archived set or drops the set, keeps the marks valid,
/// their geometry, and each block's last marked era.
pub fn digest_keeps_last_eras()
    ensures { (m : BlockMarks) (era : ℕ) (page : Option ℕ) → AreValidMarks m
        → digest_of m.archive m.array ≡ Some (era, page) → KeepsLastEras m (digested m page) }
{}

/// A mark gives its block the present era as its last marked one.
pub fn mark_gives_last_era()
    ensures { (m : BlockMarks) (block : ℕ) → AreValidMarks m → block < blocks_of_marks m
        → MarkGivesEra m block }
{}

/// No block's last marked era is above the present one, and it is the present one where the current set has the block.
pub fn last_eras_are_bounded()
    ensures { (m : BlockMarks) → AreValidMarks m → LastsAreBounded m }
{}
