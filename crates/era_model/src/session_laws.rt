//! What holds over all sessions in a row, with their crashes and reopenings. The functions do nothing; their clauses
//! are the laws.

ghost use Rattle.std.specs.Prelude.{◌≡◌, ◌++◌, ℕ, ◌≤◌, List, [], ◌∷◌, replicate, true};
ghost use Rattle.era_model.specs.Chains.{IsMoment, IsSessionChain};
ghost use Rattle.era_model.specs.Crashes.{MayCrash, MayEnd};
ghost use Rattle.era_model.specs.History.{content, is_open};
ghost use Rattle.era_model.specs.Legal.{IsLegal};
ghost use Rattle.era_model.specs.Marking.{held_of, is_marked_in, journal_last_era, marks_of};
ghost use Rattle.era_model.specs.Marks.{BlockMarks, marks_last_era, rolled};
ghost use Rattle.era_model.specs.Merging.{merged_marks};
ghost use Rattle.era_model.specs.Promises.{CoverageGoesOn, KeepsLastEras, MarksFollowJournal, NoChangedBlockMissed, NoUnaskedBlockListed};
ghost use Rattle.era_model.specs.Recovered.{IsDurableFrom};
ghost use Rattle.era_model.specs.Rows.{sector_of};
ghost use Rattle.era_model.specs.RowsOfCrashes.{crash_images, crashed_session, reopened_history, reopened_journal};
ghost use Rattle.era_model.specs.Validity.{AreValidMarks};
ghost use Rattle.era_model.specs.declared.history.Happening.{Happening};
ghost use Rattle.era_model.specs.declared.history.Images.{Images};

/// Each moment of a legal history is legal.
pub fn moments_are_legal()
    ensures { (h moment : List Happening) → IsLegal h → IsMoment h moment → IsLegal moment }
{}

/// The marks of a legal journal are valid, and have its era and each block's last marked era. As they stand they are
/// durable, so they may be recovered. An era switch with its merge of the oldest set, and a merge of all sets, keep each
/// block's last marked era.
pub fn marks_follow_journal()
    ensures journal { (h : List Happening) → IsLegal h → is_open h ≡ true → MarksFollowJournal h }
    ensures durable { (h : List Happening) → IsLegal h → is_open h ≡ true
        → IsDurableFrom h (marks_of h) (held_of h) }
    ensures switch { (m : BlockMarks) → AreValidMarks m → KeepsLastEras m (rolled m) }
    ensures merge { (m : BlockMarks) → AreValidMarks m → KeepsLastEras m (merged_marks m) }
{}

/// A block that a legal journal has marked in an era has that era or a later one as its last.
pub fn marks_are_kept()
    ensures { (h : List Happening) (block era : ℕ) → IsLegal h → is_marked_in h block era ≡ true
        → era ≤ journal_last_era h block }
{}

/// Over all sessions, at every moment: all marks that may be recovered list each block that has changed since an era,
/// whatever a crash may leave of it.
pub fn no_changed_block_missed()
    ensures { (h : List Happening) → IsLegal h → NoChangedBlockMissed h }
{}

/// Over all sessions, at every moment: each block that marks list since an era, if they may be recovered, was asked to
/// be marked in that era or a later one, or the marks of the first opening listed it.
pub fn no_unasked_block_listed()
    ensures { (h : List Happening) → IsLegal h → NoUnaskedBlockListed h }
{}

/// Where the marks of an opening cover its contents from a base, since an era that has begun, all marks that may be
/// recovered at a later moment, also of a later session, cover all contents that a crash may leave then.
pub fn coverage_goes_on()
    ensures { (h : List Happening) → IsLegal h → CoverageGoesOn h }
{}

/// What the end of a session may leave, a crash may leave as well.
pub fn end_is_among_the_crashes()
    ensures { (h : List Happening) (images : Images) → MayEnd h images → MayCrash h images }
{}

/// A chain of two sessions is legal: in the first one a write is cut and another one asks for its mark, the crash
/// leaves neither the old nor the new bytes of the cut write and the mark stored, and the second one writes and
/// switches the era.
pub fn reopened_session_is_legal()
    ensures chain { IsSessionChain (crashed_session ∷ []) reopened_journal }
    ensures cut { marks_last_era crash_images.marks 0 ≡ 1 }
    ensures asked { marks_last_era crash_images.marks 1 ≡ 1 }
    ensures written { marks_last_era (marks_of reopened_history) 0 ≡ 2 }
    ensures kept { marks_last_era (marks_of reopened_history) 1 ≡ 1 }
    ensures content { content reopened_history 0 ≡ sector_of 170 ++ replicate 3584 0 }
{}
