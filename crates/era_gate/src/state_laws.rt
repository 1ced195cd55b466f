//! Which states the invariant admits, and what a gate may tell at its close. The functions do nothing; their clauses are
//! the laws.

ghost use Rattle.std.specs.Prelude.{◌≡◌, ◌+◌, ◌<◌, ◌^◌, ℕ, List, [], ◌∷◌, length, slice_index};
ghost use Rattle.era_gate.specs.Acts.{Act, IsLegalFrom, opened};
ghost use Rattle.era_gate.specs.Invariant.{GateInvariant, GateWordCountsInside, KeptHaveFailedExchanges, MarksPrecedeWrites, NumbersDenseAndUnique, OutsideHoldsNothing, ReceiptsAreConserved, SetBitsHaveMarks, SpareIsClear, StaysAccountForKept, WritesStayInEra};
ghost use Rattle.era_gate.specs.Parts.{new_keeper};
ghost use Rattle.era_gate.specs.Plays.{keeper_of, other_stripes};
ghost use Rattle.era_gate.specs.RowsOfActs.{issued_acts, unmarked_acts};
ghost use Rattle.era_gate.specs.RowsOfViews.{ahead_view, cleared_view, ended_view, forgetful_view, issued_view, left_view, moved_view, refused_view, small_plan, small_words, unmarked_view};
ghost use Rattle.era_gate.specs.Rule.{IsPlan};
ghost use Rattle.era_gate.specs.States.{shown_words, whole_view};
ghost use Rattle.era_gate.specs.Tells.{Tells, reached};
ghost use Rattle.era_gate.specs.declared.parts.View.{View};
ghost use Rattle.era_gate.specs.declared.plan.Plan.{Plan};

/// Whatever acts are legal, there is a state that shows them: it meets the invariant, and what it has tells of them.
pub fn each_legal_list_of_acts_has_a_state()
    ensures invariant { (plan : Plan) (acts : List Act) → IsPlan plan
        → IsLegalFrom plan.stripes (opened plan.era) acts → plan.era + length acts < 2 ^ 32
        → GateInvariant plan (shown_words plan (reached plan acts)) (whole_view plan acts ∷ []) }
    ensures told { (plan : Plan) (acts : List Act) → IsPlan plan
        → IsLegalFrom plan.stripes (opened plan.era) acts → plan.era + length acts < 2 ^ 32
        → Tells plan (reached plan acts).places (whole_view plan acts).stripes
        (keeper_of (whole_view plan acts)) (whole_view plan acts).pass.lanes acts }
{}

/// Under the same views no other gate word and no other order word would do.
pub fn views_tell_the_words()
    ensures { (plan : Plan) (words words' : List ℕ) (views : List View)
        → GateInvariant plan words views → GateInvariant plan words' views
        → (slice_index words 0 ≡ slice_index words' 0)
        × (slice_index words 1 ≡ slice_index words' 1) }
{}

/// The invariant's clauses on words are broken by a writer that isn't counted, a place of nobody, a bit without its mark,
/// a spare word that isn't clear, and a floor that wasn't reached.
pub fn other_words_break_the_invariant()
    ensures writer { ¬ GateWordCountsInside small_plan (small_words 0 3 0 1) (issued_view ∷ []) }
    ensures place { ¬ NumbersDenseAndUnique (small_words 1 4 0 1) (issued_view ∷ []) }
    ensures bit { ¬ SetBitsHaveMarks small_plan (small_words 1 3 0 3) (issued_view ∷ []) }
    ensures spare { ¬ SpareIsClear small_plan (small_words 1 3 1 1) (keeper_of cleared_view) }
    ensures floor { ¬ GateInvariant small_plan (small_words 1 3 0 1) (ahead_view ∷ []) }
{}

/// Its clauses on views are broken by a write without its mark, an open write of another era than its seat's, a seat that
/// left with an open write, a refused switch without its exchange, lost receipts, and a present stay that is known as
/// ended.
pub fn other_views_break_the_invariant()
    ensures mark { ¬ MarksPrecedeWrites (unmarked_view ∷ []) }
    ensures era { ¬ WritesStayInEra (small_words 1 3 0 1) (moved_view ∷ []) }
    ensures left { ¬ OutsideHoldsNothing (left_view ∷ []) }
    ensures switch { ¬ KeptHaveFailedExchanges (refused_view ∷ []) }
    ensures receipt { ¬ ReceiptsAreConserved (small_words 1 3 0 1) (forgetful_view ∷ []) }
    ensures stay { ¬ StaysAccountForKept (small_words 1 3 0 1) (ended_view ∷ []) }
{}

/// Nothing is told of acts by another number of places, without a stripe, with a keeper that forgot its entries, without a
/// lane, or of acts that aren't legal.
pub fn other_states_tell_nothing()
    ensures places { ¬ Tells small_plan 4 issued_view.stripes (keeper_of issued_view)
        issued_view.pass.lanes issued_acts }
    ensures stripes { ¬ Tells small_plan 3 (other_stripes issued_view.stripes)
        (keeper_of issued_view) issued_view.pass.lanes issued_acts }
    ensures keeper { ¬ Tells small_plan 3 issued_view.stripes (new_keeper 1)
        issued_view.pass.lanes issued_acts }
    ensures lanes { ¬ Tells small_plan 3 issued_view.stripes (keeper_of issued_view) []
        issued_acts }
    ensures acts { (places : ℕ) → ¬ Tells small_plan places issued_view.stripes
        (keeper_of issued_view) issued_view.pass.lanes unmarked_acts }
{}
