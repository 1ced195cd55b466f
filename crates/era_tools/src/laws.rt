//! Laws of the tools. The functions do nothing; their clauses are the laws.

ghost use Rattle.std.specs.Prelude.{◌≡◌, ℕ, List, Some, true};
ghost use Rattle.era_model.specs.Marks.{BlockMarks};
ghost use Rattle.era_model.specs.Merging.{merged_marks};
ghost use Rattle.era_model.specs.Validity.{AreValidMarks};
ghost use Rattle.era_text.specs.Dumps.{AreOfImage, IsDumpOf, dumped_marks};
ghost use Rattle.era_text.specs.declared.dump_kind.DumpKind.{DumpKind};
ghost use Rattle.era_text.specs.declared.text_end.TextEnd.TheVariants.{Line as refused_line};
ghost use Rattle.era_tools.specs.ReadTexts.{IsRead, IsUnread, SourceAround};

use era_text::laws::{dump_reads_back, lines_are_read_one_way, logical_dump_reads_back};

/// What a restoring reads of the dump of valid marks are these marks, and of their logical dump the merged ones. No line
/// of a dump is refused.
pub fn dump_is_restored()
    ensures whole { (m marks : BlockMarks) (text : List ℕ) (source : SourceAround)
        → AreOfImage m → AreValidMarks m → IsDumpOf m text → source.left ≡ Some text
        → IsRead source marks → marks ≡ m }
    ensures logical { (m marks : BlockMarks) (text : List ℕ) (source : SourceAround)
        → AreOfImage m → AreValidMarks m → IsDumpOf (dumped_marks m true) text
        → source.left ≡ Some text → IsRead source marks → marks ≡ merged_marks m }
    ensures taken { (m : BlockMarks) (text : List ℕ) (source : SourceAround)
        (line : ℕ) (kind : DumpKind)
        → AreOfImage m → AreValidMarks m → IsDumpOf m text → source.left ≡ Some text
        → ¬ IsUnread source (refused_line line kind) }
{
    dump_reads_back();
    logical_dump_reads_back();
    lines_are_read_one_way();
}
