//! What the definitions say of small lists of acts. The functions do nothing; their clauses are the laws.

ghost use Rattle.std.specs.Prelude.{◌≡◌, [], ◌∷◌, ◌++◌};
ghost use Rattle.era_gate.specs.Acts.{IsLegalFrom, keeper_drew, opened};
ghost use Rattle.era_gate.specs.Loose.{loose_in};
ghost use Rattle.era_gate.specs.RowsOfActs.{command, early_move_acts, few_stays, groundless_acts, missed_acts, moved_acts, refused_acts, stranger_acts, unmarked_acts, vain_acts};
ghost use Rattle.era_model.specs.declared.event.Event.TheVariants.{Kept, Roll};

/// A write to a marked block is legal, and so is a switch of the era after it.
pub fn marked_write_is_a_legal_act()
    ensures { IsLegalFrom 2 (opened 1) moved_acts }
{}

/// A failed exchange is refused once, with the count that it found, and no switch is drawn in its place.
pub fn failed_exchange_is_refused_once()
    ensures once { IsLegalFrom 2 (opened 1) refused_acts }
    ensures twice { ¬ IsLegalFrom 2 (opened 1)
        (refused_acts ++ keeper_drew (Kept (command 3) 1) ∷ []) }
    ensures other { ¬ IsLegalFrom 2 (opened 1)
        (missed_acts ++ keeper_drew (Kept (command 1) 2) ∷ []) }
    ensures switch { ¬ IsLegalFrom 2 (opened 1)
        (missed_acts ++ keeper_drew (Roll (command 1) 2) ∷ []) }
{}

/// No write is issued without its mark, no era moves while a stripe is inside, no switch is refused without an exchange
/// that failed, none fails while nobody is inside, and nothing is drawn by a lane that the gate doesn't have.
pub fn acts_that_find_no_cause_are_illegal()
    ensures unmarked { ¬ IsLegalFrom 2 (opened 1) unmarked_acts }
    ensures early { ¬ IsLegalFrom 2 (opened 1) early_move_acts }
    ensures groundless { ¬ IsLegalFrom 2 (opened 1) groundless_acts }
    ensures vain { ¬ IsLegalFrom 2 (opened 1) vain_acts }
    ensures lane { ¬ IsLegalFrom 2 (opened 1) stranger_acts }
{}

/// A stay isn't loose where it was known as ended, nor where its floor is above the place.
pub fn ended_and_later_stays_arent_loose()
    ensures all { loose_in 2 3 [] few_stays ≡ 3 }
    ensures ended { loose_in 2 3 (1 ∷ []) few_stays ≡ 2 }
    ensures later { loose_in 2 2 (1 ∷ []) few_stays ≡ 1 }
{}
