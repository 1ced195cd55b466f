//! What images of a metadata disk mean, as any relation.

ghost use Rattle.std.specs.Prelude.{ℕ, List, Option};
ghost use Rattle.era_model.specs.Marks.{BlockMarks};

/// A format of metadata disks: the marks and the snapshot, or none, that an image stands for, and which images are blank.
/// The laws hold for every such relation.
pub trait ImageMeaning {
    ghost stands_for: { List ℕ → BlockMarks → Option BlockMarks → Type 0 };

    ghost is_blank: { List ℕ → Type 0 };
}
