//! What pages say and where they stand, as laws: the functions do nothing, and their clauses are the laws.

ghost use Rattle.std.specs.Prelude.{◌≡◌, ◌≤◌, ℕ, List, Option, length};
ghost use Rattle.std.specs.Option.{option_map};
ghost use Rattle.era_base.specs.declared.limits.TheConstants.{MOST_SETS};
ghost use Rattle.era_layout.specs.Root.{RootFields, pages_of, IsValidRoot};
ghost use Rattle.era_model.specs.Marks.{BlockMarks};
ghost use Rattle.era_model.specs.Usage.{IsUsage};
ghost use Rattle.era_model.specs.Validity.{AreValidMarks};
ghost use Rattle.era_meta.specs.Areas.{HasFreeArea, LieInAnArea, LieInAreas};
ghost use Rattle.era_meta.specs.Content.{blocks_of_root, content_of, marks_in, IsWholeContent};
ghost use Rattle.era_meta.specs.Meaning.{marks_on, reached, IsWholeRoot};
ghost use Rattle.era_meta.specs.Placing.{IsPlaced};
ghost use Rattle.era_meta.specs.SaysMarks.{SaysMarks, IsRootFor};
ghost use Rattle.era_meta.specs.Usage.{used_by};

/// A root of valid marks whose pages say these marks, page by page, says them, and no kind of damage of a page applies
/// to its pages.
pub fn pages_say_marks()
    ensures marks { (page : ℕ → List ℕ) (root : RootFields) (m : BlockMarks) → IsValidRoot root
        → AreValidMarks m → IsRootFor root m → SaysMarks m (content_of page root)
        → marks_in root (content_of page root) ≡ m }
    ensures whole { (page : ℕ → List ℕ) (root : RootFields) (m : BlockMarks) → IsValidRoot root
        → AreValidMarks m → IsRootFor root m → SaysMarks m (content_of page root)
        → IsWholeContent root (content_of page root) }
{}

/// A root and its held root, each of which has its pages in one of the three page areas, leave one area free. So the
/// next root, which takes the least free one, lies in an area too: only roots that were written otherwise lie scattered.
pub fn two_roots_leave_an_area()
    ensures free { (root : RootFields) (held : Option RootFields) → LieInAreas root held
        → HasFreeArea (blocks_of_root root) (reached root held) }
    ensures next { (root next : RootFields) (held : Option RootFields) → LieInAreas root held
        → IsPlaced root next held → length next.archive ≤ MOST_SETS
        → LieInAnArea (blocks_of_root next) (pages_of next) }
{}

/// The count of used metadata blocks is a usage of the marks and of the snapshot, as a status may tell it.
pub fn used_blocks_are_a_usage()
    ensures { (page : ℕ → List ℕ) (root : RootFields) (held : Option RootFields)
        → IsWholeRoot page root held
        → IsUsage (marks_on page root) (option_map (marks_on page) held) (used_by root held) }
{}
