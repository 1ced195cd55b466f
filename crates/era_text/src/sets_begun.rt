//! Sets of a dump text begin and end.

ghost use Rattle.std.specs.Prelude.{◌≡◌, OnOk, []};
ghost use Rattle.era_text.specs.FirstLine.{start, with_current_begun, with_set_begun, with_set_ended};
ghost use Rattle.era_text.specs.Grammar.{first_set_step, next_set_step};
ghost use Rattle.era_text.specs.Taking.{Takes, head_of, with_set_put_away};

use crate::dump_head::DumpHead;
use crate::dump_kind::DumpKind;
use crate::line_fault::LineFault;
use crate::reading::Reading;
use crate::runs_taken::greatest_of;
use crate::section::Section;
use era_base::{MOST_SETS, Memory, Runs};
use era_model::{EraRuns, MarkedSet, SetList};
use std::alloc::Global;
use std::mem;

impl Reading {
    /// Nothing was read behind the first line. It takes no memory.
    pub fn new(alloc: Global) -> Reading
        ensures { result ≡ start }
    {
        Reading {
            section: Section::Heading,
            array: EraRuns::new(alloc),
            archive: SetList::new(alloc),
            set_era: 0,
            blocks: Runs::new(alloc),
        }
    }

    // Puts the set that was read to the archived ones, and leaves no blocks.
    fn put_set_away(&mut self, alloc: Global) -> Result<(), Memory>
        ensures { OnOk result (self.new ≡ with_set_put_away self.old) }
    {
        let blocks = mem::replace(&mut self.blocks, Runs::new(alloc));
        let era = self.set_era;
        self.archive.push(MarkedSet { era, blocks })?;
        Ok(())
    }

    // Begins an archived set.
    fn begin_set(&mut self, alloc: Global, era: u32)
        ensures { self.new ≡ with_set_begun era self.old }
    {
        self.section = Section::Set;
        self.set_era = era;
        self.blocks = Runs::new(alloc);
    }

    /// Begins the current set, where no archived one is being read.
    pub fn begin_current(&mut self, alloc: Global)
        ensures { self.new ≡ with_current_begun self.old }
    {
        self.section = Section::Current;
        self.blocks = Runs::new(alloc);
    }

    /// Begins the current set behind an archived one.
    pub fn end_sets(&mut self, alloc: Global) -> Result<(), Memory>
        ensures { OnOk result (self.new ≡ with_current_begun (with_set_ended self.old)) }
    {
        self.put_set_away(alloc)?;
        self.begin_current(alloc);
        Ok(())
    }

    /// Begins the first archived set, or refuses it.
    pub fn begin_first_set(
        &mut self,
        alloc: Global,
        head: &DumpHead,
        era: u32,
    ) -> Result<(), LineFault>
        ensures { Takes (first_set_step (head_of head.now) self.old era) self.new result }
    {
        if !head.is_past(era) || era < greatest_of(self.array.as_slice()) {
            return Err(LineFault::Refused(DumpKind::BadEra));
        }
        self.begin_set(alloc, era);
        Ok(())
    }

    /// Begins a further archived set, or refuses it.
    pub fn begin_next_set(
        &mut self,
        alloc: Global,
        head: &DumpHead,
        era: u32,
    ) -> Result<(), LineFault>
        ensures { Takes (next_set_step (head_of head.now) self.old era) self.new result }
    {
        if era <= self.set_era {
            return Err(LineFault::Refused(DumpKind::Order));
        }
        if !head.is_past(era) {
            return Err(LineFault::Refused(DumpKind::BadEra));
        }
        if self.archive.len() >= MOST_SETS as usize - 1 {
            return Err(LineFault::Refused(DumpKind::TooManySets));
        }
        self.put_set_away(alloc)?;
        self.begin_set(alloc, era);
        Ok(())
    }
}
