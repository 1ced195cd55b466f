//! Digest steps and used blocks, as laws: the functions do nothing, and their clauses are the laws.

ghost use Rattle.std.specs.Prelude.{◌≡◌, ℕ, true, false, [], ◌∷◌, Some, None};
ghost use Rattle.era_model.specs.Digest.{digest_of};
ghost use Rattle.era_model.specs.Marks.{ArchivedSet, BlockMarks};
ghost use Rattle.era_model.specs.Promises.{KeepsLastEras};
ghost use Rattle.era_model.specs.Validity.{AreValidMarks};
ghost use Rattle.era_meta.specs.Digesting.{after_digest};
ghost use Rattle.era_meta.specs.Usage.{count_different};

use era_model::digest_keeps_last_eras;

/// A digest step keeps the marks valid, their geometry, and each block's last marked era.
pub fn digest_steps_keep_last_eras()
    ensures { (m : BlockMarks) → AreValidMarks m → KeepsLastEras m (after_digest m) }
{
    digest_keeps_last_eras();
}

/// A set of two blocks of which the second has its era as its entry is transcribed in page 0; with both entries it can
/// be dropped, also where a later set is archived; and without a set there is nothing to do.
pub fn digest_steps_end()
    ensures left { (set : ArchivedSet) → set ≡ record { era = 3; blocks = true ∷ true ∷ [] }
        → digest_of (set ∷ []) (2 ∷ 3 ∷ []) ≡ Some (3, Some 0) }
    ensures whole { (set later : ArchivedSet)
        → set ≡ record { era = 3; blocks = true ∷ false ∷ [] }
        → digest_of (set ∷ later ∷ []) (3 ∷ 0 ∷ []) ≡ Some (3, None) }
    ensures none { digest_of [] (3 ∷ 0 ∷ []) ≡ None }
{}

/// Blocks that stand twice count once, and others as often as they stand.
pub fn shared_blocks_count_once()
    ensures shared { count_different (2 ∷ 3 ∷ 4 ∷ 3 ∷ 4 ∷ []) ≡ 3 }
    ensures apart { count_different (2 ∷ 3 ∷ 4 ∷ 5 ∷ 6 ∷ []) ≡ 5 }
{}
