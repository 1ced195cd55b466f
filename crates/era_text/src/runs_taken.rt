//! Runs of a dump text are taken, or refused by their first kind.

ghost use Rattle.std.specs.Prelude.{◌≡◌};
ghost use Rattle.era_text.specs.FirstLine.{greatest_era, is_apart, is_behind, last_of};
ghost use Rattle.era_text.specs.Grammar.{array_run_step, run_step};
ghost use Rattle.era_text.specs.Taking.{Takes, head_of};

use crate::dump_head::DumpHead;
use crate::dump_kind::DumpKind;
use crate::line_fault::LineFault;
use crate::reading::Reading;

// The last run of a set.
fn last_run(runs: &[(u32, u32)]) -> Option<(u32, u32)>
    ensures { result ≡ last_of runs.now }
{
    runs.last().copied()
}

// The last run of the array.
fn last_era_run(runs: &[(u32, u32, u32)]) -> Option<(u32, u32, u32)>
    ensures { result ≡ last_of runs.now }
{
    runs.last().copied()
}

// Whether a run that begins with this block may stand behind another one of a set.
fn is_apart_from(before: Option<(u32, u32)>, first: u32) -> bool
    ensures { result ≡ is_apart before first }
{
    match before {
        None => true,
        Some((_, last)) => first > 0 && last < first - 1,
    }
}

// Whether a run of an era that begins with this block may stand behind another one of the array.
fn is_behind_run(before: Option<(u32, u32, u32)>, first: u32, era: u32) -> bool
    ensures { result ≡ is_behind before first era }
{
    let Some((_, last, era_before)) = before else {
        return true;
    };
    last < first && !(last + 1 == first && era_before == era)
}

/// The greatest era of runs of the array, 0 where there are none.
pub fn greatest_of(runs: &[(u32, u32, u32)]) -> u32
    ensures { result ≡ greatest_era runs.now }
{
    let mut greatest = 0;
    for run in runs {
        greatest = run.2.max(greatest);
    }
    greatest
}

impl Reading {
    /// Takes a run of a set, or refuses it.
    pub fn take_run(&mut self, head: &DumpHead, first: u32, last: u32) -> Result<(), LineFault>
        ensures { Takes (run_step (head_of head.now) self.old first last) self.new result }
    {
        if last >= head.blocks() {
            return Err(LineFault::Refused(DumpKind::PastEnd));
        }
        if last < first || !is_apart_from(last_run(self.blocks.as_slice()), first) {
            return Err(LineFault::Refused(DumpKind::Order));
        }
        self.blocks.push(first, last)?;
        Ok(())
    }

    /// Takes a run of the array, or refuses it.
    pub fn take_era_run(
        &mut self,
        head: &DumpHead,
        first: u32,
        last: u32,
        era: u32,
    ) -> Result<(), LineFault>
        ensures { Takes (array_run_step (head_of head.now) self.old first last era)
            self.new result }
    {
        if last >= head.blocks() {
            return Err(LineFault::Refused(DumpKind::PastEnd));
        }
        if last < first || !is_behind_run(last_era_run(self.array.as_slice()), first, era) {
            return Err(LineFault::Refused(DumpKind::Order));
        }
        if !head.is_past(era) {
            return Err(LineFault::Refused(DumpKind::BadEra));
        }
        self.array.push(first, last, era)?;
        Ok(())
    }
}
