//! What the definitions say of small dumps that are worked out by hand. The functions do nothing; their clauses are
//! the laws.

ghost use Rattle.std.specs.Prelude.{◌≡◌, ◌++◌, [], ◌∷◌, codes, replicate};
ghost use Rattle.era_line.specs.Lines.{lines_of};
ghost use Rattle.era_model.specs.Merging.{merged_marks};
ghost use Rattle.era_text.specs.Dumps.{listed_marks};
ghost use Rattle.era_text.specs.Grammar.{dump_end};
ghost use Rattle.era_text.specs.RowsOfDumps.{IsRefused, IsWhole, text_of_sets, two_eras, two_eras_text, two_eras_logical_text};
ghost use Rattle.era_text.specs.declared.dump_kind.DumpKind.TheVariants.{BadEra, BadGeometry, BadNumber, LongLine, Order, PastEnd, TooManySets, Trailing, Truncated, Unknown};

/// A dump has a line for each maximal run; the logical one has no archived sets.
pub fn dump_has_a_line_for_each_run()
    ensures whole { two_eras_text
        ≡ codes "eradump 1 512 8 2\narray\nset 1\n0 1\n5 5\ncurrent\n1 1\nend\n" }
    ensures logical { two_eras_logical_text
        ≡ codes "eradump 1 512 8 2\narray\n0 1 1\n5 5 1\ncurrent\n1 1\nend\n" }
    ensures merged { merged_marks two_eras
        ≡ listed_marks 512 8 2 ((0, 1, 1) ∷ (5, 5, 1) ∷ []) [] ((1, 1) ∷ []) }
{}

/// Runs that touch with the same entry are no order, a block past the end is none of the geometry's, and an entry is of
/// the past.
pub fn run_is_refused_where_it_stands()
    ensures touching { IsRefused
        (codes "eradump 1 512 8 3\narray\n0 0 1\n1 1 1\ncurrent\nend\n") 4 Order }
    ensures past_end { IsRefused
        (codes "eradump 1 512 8 3\narray\n0 64 1\n1 1 1\ncurrent\nend\n") 3 PastEnd }
    ensures present { IsRefused
        (codes "eradump 1 512 8 3\narray\n0 0 3\n1 1 1\ncurrent\nend\n") 3 BadEra }
    ensures set { IsRefused
        (codes "eradump 1 512 8 3\narray\ncurrent\n3 3\n4 4\nend\n") 5 Order }
{}

/// A line is refused by the first kind that applies to it.
pub fn line_is_refused_by_its_first_kind()
    ensures truncated { IsRefused (codes "eradump 1 512 8 2\narray\ncurrent\n") 4 Truncated }
    ensures unknown { IsRefused (codes "eradump 2 512 9 0\n") 1 Unknown }
    ensures number { IsRefused (codes "eradump 1 0512 9 0\n") 1 BadNumber }
    ensures geometry { IsRefused (codes "eradump 1 512 9 0\n") 1 BadGeometry }
    ensures era { IsRefused (codes "eradump 1 512 8 0\n") 1 BadEra }
    ensures set_number { IsRefused (codes "eradump 1 512 8 2\narray\nset x\n") 3 BadNumber }
    ensures current_set { IsRefused
        (codes "eradump 1 512 8 2\narray\ncurrent\nset 1\n") 4 BadNumber }
    ensures trailing { IsRefused (codes "eradump 1 512 8 2\narray\ncurrent\nend\n\n") 5 Trailing }
{}

/// The last line may lack its LF; runs of the array may touch where their eras differ; the seventeenth set and a line of
/// more than 128 bytes are refused.
pub fn limits_of_dumps_are_tight()
    ensures bare { dump_end (lines_of (codes "eradump 1 512 8 2\narray\ncurrent\n1 1\nend"))
        ≡ dump_end (lines_of (codes "eradump 1 512 8 2\narray\ncurrent\n1 1\nend\n")) }
    ensures touching { IsWhole
        (codes "eradump 1 512 8 3\narray\n0 0 1\n1 1 2\ncurrent\nend\n") }
    ensures sixteen { IsWhole (text_of_sets 16) }
    ensures seventeen { IsRefused (text_of_sets 17) 19 TooManySets }
    ensures long { IsRefused (replicate 129 48) 1 LongLine }
    ensures short { IsRefused (replicate 128 48) 1 Unknown }
{}
