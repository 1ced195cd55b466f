//! The machine.

ghost use Rattle.std.specs.Prelude.{◌≡◌, ◌↔◌, IfOk, IsTrue, OnErr, OnOk, if◌then◌else◌, reverse};
ghost use Rattle.era_core.specs.KeptState.{IsKept};
ghost use Rattle.era_core.specs.AfterSteps.{after_step, is_metadata_event, reopened, with_event, with_stripe};
ghost use Rattle.era_core.specs.Machine.{CoreState, IsEnabled, MayLeaveImages, MayReopen, MayTake, opened_core};
ghost use Rattle.era_core.specs.declared.step.Step.TheVariants.{Crash};
ghost use Rattle.era_model.specs.Legal.{IsOpening};
ghost use Rattle.era_model.specs.PlainCalls.{TellsAllBytes};

use crate::copies::{copy_event, copy_images};
use crate::core_guard::is_enabled;
use crate::guard::inside_count;
use crate::laws::every_schedule_is_legal;
use crate::lookups::present_era;
use crate::reopening::next_opening;
use crate::step::Step;
use crate::trace::is_metadata_event;
use crate::upkeep::Upkeep;
use era_base::Memory;
use era_model::{Event, Happening, Images, Opening, marks_follow_journal};
use std::alloc::Global;
use std::marker::Model;

/// The machine at a moment. A contract sees its history, the stripes inside and the kept numbers.
#[derive(Debug, Drop)]
pub struct Core {
    happenings: Vec<Happening>,
    inside: Vec<bool>,
    kept: Vec<u32>,
    upkeep: Upkeep,
}

impl Model for Core {
    ghost Value = { CoreState };

    ghost view = { λ c. record { history = reverse c.happenings.items; inside = c.inside.items; kept = c.kept.items } };

    ghost invariant = { λ c. IsKept (reverse c.happenings.items) c.inside.items c.upkeep };
}

/// Behind an event of the metadata the count alone is kept.
fn follow_kept(kept: &mut Vec<u32>, count: Vec<u32>, event: &Event)
    ensures { kept.new.items
        ≡ (if is_metadata_event event.now then count.items else kept.old.items) }
{
    if is_metadata_event(event) {
        *kept = count;
    }
}

impl Core {
    /// The machine at the opening of its first session. It asks that the opening tells all bytes of its geometry.
    pub fn new(alloc: Global, opening: Opening) -> Result<Core, Memory>
        requires told { TellsAllBytes opening }
        requires legal { IsOpening opening }
        ensures { IfOk result (λ core. core ≡ opened_core opening) }
    {
        let upkeep = Upkeep::at_opening(alloc, &opening)?;
        let inside = vec![in alloc; false; opening.stripes as usize]?;
        let mut kept = Vec::new(alloc);
        kept.push(0)?;
        let mut happenings = Vec::new(alloc);
        happenings.push(Happening::Opened(opening))?;
        Ok(Core {
            happenings,
            inside,
            kept,
            upkeep,
        })
    }

    /// What has happened so far over all sessions, the earliest first.
    pub fn happenings(&self) -> &[Happening]
        ensures { reverse result.now ≡ self.now.history }
    {
        self.happenings.as_slice()
    }

    /// Whether the step may happen: exactly where it meets its conditions. It takes no memory.
    pub fn enabled(&self, step: &Step) -> bool
        ensures { IsTrue result ↔ IsEnabled self.now step.now }
    {
        is_enabled(
            self.happenings.as_slice(),
            self.inside.as_slice(),
            self.kept.as_slice(),
            &self.upkeep,
            step,
        )
    }

    /// Takes a step that is enabled. After `Memory` the core is unchanged.
    pub fn step(&mut self, alloc: Global, step: &Step) -> Result<(), Memory>
        requires { IsEnabled self.old step.now }
        ensures ok { OnOk result (self.new ≡ after_step self.old step.now) }
        ensures err { OnErr result (self.new ≡ self.old) }
    {
        match step {
            Step::Enter { stripe } => self.move_stripe(alloc, *stripe, true),
            Step::Leave { stripe } => self.move_stripe(alloc, *stripe, false),
            Step::Take(event) => self.take(alloc, event),
            Step::Crash { place_images } => self.crash(alloc, place_images),
            Step::Reopen { stripes } => self.reopen(alloc, *stripes),
        }
    }

    /// Lets the stripe in, or out.
    fn move_stripe(&mut self, alloc: Global, stripe: u32, inside: bool) -> Result<(), Memory>
        ensures ok { OnOk result (self.new ≡ with_stripe self.old stripe inside) }
        ensures err { OnErr result (self.new ≡ self.old) }
    {
        let mut flags = Vec::from_slice(alloc, self.inside.as_slice())?;
        if (stripe as usize) < flags.len() {
            flags[stripe as usize] = inside;
        }
        self.kept.push(inside_count(flags.as_slice()))?;
        self.inside = flags;
        Ok(())
    }

    /// Draws the event. Room for it is made first, so that nothing has to be undone.
    fn take(&mut self, alloc: Global, event: &Event) -> Result<(), Memory>
        requires { MayTake self.old event.now }
        ensures ok { OnOk result (self.new ≡ with_event self.old event.now) }
        ensures err { OnErr result (self.new ≡ self.old) }
    {
        marks_follow_journal();
        let drawn = copy_event(alloc, event)?;
        let count = vec![in alloc; inside_count(self.inside.as_slice()); 1]?;
        self.happenings.reserve(1)?;
        let era = present_era(self.happenings.as_slice());
        self.upkeep.follow(alloc, era, event)?;
        follow_kept(&mut self.kept, count, event);
        match self.happenings.push(Happening::Happened(drawn)) {
            Ok(()) => Ok(()),
            Err(_) => unreachable!(),
        }
    }

    /// Ends the session with the images.
    fn crash(&mut self, alloc: Global, images: &Images) -> Result<(), Memory>
        requires { MayLeaveImages self.old images.now }
        ensures ok { OnOk result (self.new ≡ after_step self.old (Crash images.now)) }
        ensures err { OnErr result (self.new ≡ self.old) }
    {
        let left = copy_images(alloc, images)?;
        self.happenings.push(Happening::Crashed(left))?;
        self.upkeep.crash();
        Ok(())
    }

    /// Opens the next session.
    fn reopen(&mut self, alloc: Global, stripes: u32) -> Result<(), Memory>
        requires { MayReopen self.old.history stripes }
        ensures ok { OnOk result (self.new ≡ reopened self.old self.old.history stripes) }
        ensures err { OnErr result (self.new ≡ self.old) }
    {
        marks_follow_journal();
        every_schedule_is_legal();
        let opening = match next_opening(alloc, self.happenings.as_slice(), stripes)? {
            Some(opening) => opening,
            None => return Ok(()),
        };
        let upkeep = Upkeep::at_opening(alloc, &opening)?;
        let inside = vec![in alloc; false; stripes as usize]?;
        let kept = vec![in alloc; 0; 1]?;
        self.happenings.push(Happening::Opened(opening))?;
        self.inside = inside;
        self.kept = kept;
        self.upkeep = upkeep;
        Ok(())
    }
}
