//! Laws of openings. The functions do nothing; their clauses are the laws.

ghost use Rattle.std.specs.Prelude.{◌≡◌, ◌+◌, ◌*◌, ◌<◌, ◌≤◌, ℕ, List, length};
ghost use Rattle.era_model.specs.Promises.{KeepsLastEras};
ghost use Rattle.era_model.specs.Validity.{AreValidMarks, IsValidSnapshot};
ghost use Rattle.era_meta.specs.Meaning.{Meaning, IsImageOf};
ghost use Rattle.era_meta.specs.Openings.{AreOneRefusal};
ghost use Rattle.era_meta.specs.Starting.{next_era};
ghost use Rattle.era_meta.specs.Trials.{HoldAll, RefusesFirst, Trial, look_trials};
ghost use Rattle.era_meta.specs.declared.refusal.MetaError.{MetaError};

use era_layout::laws::root_is_read_back;
use era_model::switch_keeps_last_eras;

/// Trials of a disk are refused in one way at most, and not at all where all hold.
pub fn one_refusal_is_first()
    ensures one { (have : ℕ) (seen : List ℕ) (trials : List Trial) (one two : MetaError)
        → RefusesFirst have seen trials one → RefusesFirst have seen trials two
        → AreOneRefusal one two }
    ensures none { (have : ℕ) (seen : List ℕ) (trials : List Trial) (error : MetaError)
        → RefusesFirst have seen trials error → ¬ HoldAll have seen trials }
{
    root_is_read_back();
}

/// All trials of a look hold exactly where the disk stands for a meaning.
pub fn looked_disk_stands_for_a_meaning()
    ensures stands { (have : ℕ) (seen : List ℕ) → 4096 * have ≤ length seen
        → HoldAll have seen (look_trials seen) → (meaning : Meaning) × IsImageOf meaning seen }
    ensures hold { (have : ℕ) (seen : List ℕ) (meaning : Meaning)
        → length seen < 4096 * (have + 1) → IsImageOf meaning seen
        → HoldAll have seen (look_trials seen) }
{
    root_is_read_back();
}

/// A disk stands for valid marks, and for a valid snapshot or none.
pub fn disk_stands_for_valid_marks()
    ensures marks { (meaning : Meaning) (image : List ℕ)
        → IsImageOf meaning image → AreValidMarks meaning.marks }
    ensures held { (meaning : Meaning) (image : List ℕ)
        → IsImageOf meaning image → IsValidSnapshot meaning.held }
{}

/// The era that a start begins keeps each block's last marked era and the snapshot, and is the next one.
pub fn next_era_keeps_last_eras()
    ensures lasts { (before : Meaning) → AreValidMarks before.marks
        → KeepsLastEras before.marks (next_era before).marks }
    ensures held { (before : Meaning) → (next_era before).held ≡ before.held }
    ensures era { (before : Meaning)
        → (next_era before).marks.era ≡ before.marks.era + 1 }
{
    switch_keeps_last_eras();
}
