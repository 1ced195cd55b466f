//! The theorem over all schedules: the machine makes legal histories, and it makes all of them. The functions do
//! nothing; their clauses are the laws.

ghost use Rattle.std.specs.Prelude.{◌≢◌, List, [], ◌∷◌};
ghost use Rattle.era_core.specs.AfterSteps.{after_step};
ghost use Rattle.era_core.specs.Machine.{CoreState, IsEnabled};
ghost use Rattle.era_core.specs.Schedules.{HasLegalSessions, IsSchedule, IsScheduled};
ghost use Rattle.era_core.specs.declared.step.Step.{Step};
ghost use Rattle.era_model.specs.Crashes.{MayCrash};
ghost use Rattle.era_model.specs.Journal.{history_after};
ghost use Rattle.era_model.specs.Legal.{IsLegal};
ghost use Rattle.era_model.specs.Promises.{CoverageGoesOn, NoChangedBlockMissed, NoUnaskedBlockListed};
ghost use Rattle.era_model.specs.declared.entry.Entry.{Entry};
ghost use Rattle.era_model.specs.declared.history.Happening.TheVariants.{Opened};
ghost use Rattle.era_model.specs.declared.history.Happening.{Happening};
ghost use Rattle.era_model.specs.declared.history.Images.{Images};
ghost use Rattle.era_model.specs.declared.opening.Opening.{Opening};

use era_model::{
    coverage_goes_on, marks_follow_journal, moments_are_legal, no_changed_block_missed,
    no_unasked_block_listed,
};

/// Every list of steps that the machine accepts, with any writers, faults, crashes and reopenings, makes a legal
/// history: each step keeps it so, and each of its sessions is legal by itself as well. At every moment of it, all marks
/// that may be recovered list each block that has changed since an era, whatever a crash may leave of it; each block
/// that they list was asked to be marked; and from a base that the marks of an opening cover they go on to cover it.
pub fn every_schedule_is_legal()
    ensures step { (core : CoreState) (step : Step)
        → IsLegal core.history → IsEnabled core step → IsLegal (after_step core step).history }
    ensures legal { (opening : Opening) (steps : List Step) (last : CoreState)
        → IsSchedule opening steps last → IsLegal last.history }
    ensures sessions { (opening : Opening) (steps : List Step) (last : CoreState)
        → IsSchedule opening steps last → HasLegalSessions last.history }
    ensures missed { (opening : Opening) (steps : List Step) (last : CoreState)
        → IsSchedule opening steps last → NoChangedBlockMissed last.history }
    ensures asked { (opening : Opening) (steps : List Step) (last : CoreState)
        → IsSchedule opening steps last → NoUnaskedBlockListed last.history }
    ensures covered { (opening : Opening) (steps : List Step) (last : CoreState)
        → IsSchedule opening steps last → CoverageGoesOn last.history }
{
    moments_are_legal();
    marks_follow_journal();
    no_changed_block_missed();
    no_unasked_block_listed();
    coverage_goes_on();
}

/// Every legal history, of any number of sessions, is that of a list of steps that the machine accepts, but for the
/// numbers of the eras that were kept.
pub fn every_legal_history_is_scheduled()
    ensures { (h : List Happening) → IsLegal h → h ≢ [] → IsScheduled h }
{}

/// A session that is legal by itself is legal behind other sessions as well, where it may open there, and what a crash
/// may leave of it by itself it may leave there.
pub fn sessions_stand_by_themselves()
    ensures legal { (opening : Opening) (earlier : List Happening) (entries : List Entry)
        → IsLegal (Opened opening ∷ earlier)
        → IsLegal (history_after (Opened opening ∷ []) entries)
        → IsLegal (history_after (Opened opening ∷ earlier) entries) }
    ensures crash { (opening : Opening) (earlier : List Happening) (entries : List Entry)
        (images : Images) → MayCrash (history_after (Opened opening ∷ []) entries) images
        → MayCrash (history_after (Opened opening ∷ earlier) entries) images }
{}
