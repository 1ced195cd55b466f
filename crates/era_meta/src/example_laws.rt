//! Small pages, as examples of what a root over them says. The function does nothing; its clauses are the laws.

ghost use Rattle.std.specs.Prelude.{◌≡◌};
ghost use Rattle.era_model.specs.Marks.{no_marks, with_block};
ghost use Rattle.era_meta.specs.Content.{marks_in, IsWholeContent};
ghost use Rattle.era_meta.specs.Examples.{one_block, pages_beginning};

/// The lowest bit of the set's page marks the one block of an origin. The next bit lies past the end, and an entry of
/// the era array has no era before the first: such pages are whole ones of no root of that origin.
pub fn one_block_is_marked()
    ensures marked { marks_in one_block (pages_beginning 0 1) ≡ with_block (no_marks 8 8 1) 0 }
    ensures unmarked { marks_in one_block (pages_beginning 0 0) ≡ no_marks 8 8 1 }
    ensures other { ¬ (marks_in one_block (pages_beginning 0 0) ≡ with_block (no_marks 8 8 1) 0) }
    ensures past_end { ¬ IsWholeContent one_block (pages_beginning 0 2) }
    ensures too_late { ¬ IsWholeContent one_block (pages_beginning 1 0) }
{}
