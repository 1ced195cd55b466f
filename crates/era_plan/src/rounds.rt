//! The rounds that a source gives, one after the other.

ghost use Rattle.std.specs.Prelude.{◌≡◌, ◌↔◌, ◌+◌, ℕ, List, true, false, Ok, IsErr, IsTrue, IfOk, IfErr, MatchResult};
ghost use Rattle.era_line.specs.Reading.{IsAhead, LeavesRest};
ghost use Rattle.era_plan.specs.Errors.{HasPlanCause};
ghost use Rattle.era_plan.specs.Reading.{FailsRound, GivesRound, HasGiven, IsToRead, StandsAt, TellsEnd, has_ended, has_failed, taken_by};
ghost use Rattle.era_plan.specs.Stream.{Standing, line_step};
ghost use Rattle.era_plan.specs.Taking.{FailsStep, IsAtEnd, ReadsTo, StandsIn, TakesTo};
ghost use Rattle.era_plan.specs.declared.progress.Progress.TheVariants.{Goes as goes};

use crate::forms::read_line;
use crate::gathering::Gathering;
use crate::progress::Progress;
use crate::round::{LineKind, PlanError, Round};
use crate::stream_reader::Lines;
use crate::taking::{refusal, take_says};
use era_base::Source;
use era_line::Next;
use std::alloc::Global;

/// The greatest number of bytes of a line.
const LONGEST_LINE: usize = 131_200;

/// Reads the next round of a stream: its commands up to a line `run`, or up to the end of the input. None exactly where
/// the input is at its end with no command before it. It is always called with the same source.
///
/// A round is answered as soon as its last line was read: the source isn't asked between that line and the answer. Nor is
/// it asked again once the input has ended, be it inside a round: the next call answers that there is none. It takes
/// memory for the reader's own buffers, once, and for the round.
pub fn next_round<S: Source>(
    alloc: Global,
    lines: &mut Lines,
    source: &mut S,
) -> Result<Option<Round>, PlanError>
    requires { has_failed lines.old ≡ false }
    ensures told { (text : List ℕ) (at : Standing) → StandsAt lines.old at
        → IsToRead lines.old (S.left source.old) text
        → MatchResult result
        (GivesRound at text lines.new (S.left source.new))
        (FailsRound at text (S.left source.new)) }
    ensures given { (at : Standing) → StandsAt lines.old at
        → IfOk result (HasGiven at lines.new) }
    ensures ended { (at : Standing) → StandsAt lines.old at
        → IfOk result (TellsEnd at lines.new) }
    ensures asks { has_ended lines.old ≡ true → source.new ≡ source.old }
    ensures failed { IsTrue (has_failed lines.new) ↔ IsErr result }
    ensures leaves { LeavesRest (S.left source.old) (S.left source.new) }
    ensures cause { HasPlanCause (S.faults source.old) (S.faults source.new) result }
{
    if lines.ended {
        return Ok(None);
    }
    let given = gather_round(alloc, lines, source);
    lines.failed = given.is_err();
    given
}

// Reads the next round of an input that hasn't ended, whether or not the reader has failed.
fn gather_round<S: Source>(
    alloc: Global,
    lines: &mut Lines,
    source: &mut S,
) -> Result<Option<Round>, PlanError>
    requires { has_ended lines.old ≡ false }
    ensures told { (text : List ℕ) (at : Standing) → StandsAt lines.old at
        → IsAhead (taken_by lines.old) (S.left source.old) text
        → MatchResult result
        (GivesRound at text lines.new (S.left source.new))
        (FailsRound at text (S.left source.new)) }
    ensures given { (at : Standing) → StandsAt lines.old at
        → IfOk result (HasGiven at lines.new) }
    ensures ended { (at : Standing) → StandsAt lines.old at
        → IfOk result (TellsEnd at lines.new) }
    ensures leaves { LeavesRest (S.left source.old) (S.left source.new) }
    ensures cause { HasPlanCause (S.faults source.old) (S.faults source.new) result }
{
    let mut round = Gathering::new(alloc);
    loop {
        match read_step(alloc, lines, &mut round, source)? {
            Progress::Goes => {}
            Progress::Ends => return Ok(Some(round.finish())),
            Progress::Over => return Ok(round.end()),
        }
    }
}

// Reads the next line, and takes what it says into the round.
fn read_step<S: Source>(
    alloc: Global,
    lines: &mut Lines,
    round: &mut Gathering,
    source: &mut S,
) -> Result<Progress, PlanError>
    ensures steps { (now : Standing) → StandsIn lines.old.counts round.old now
        → IfOk result
        (TakesTo now (line_step now lines.new.line.items) lines.new.counts round.new) }
    ensures reads { (text : List ℕ) → IsAhead (taken_by lines.old) (S.left source.old) text
        → IfOk result
        (ReadsTo text lines.new.line.items (taken_by lines.new) (S.left source.new)) }
    ensures fails { (now : Standing) (text : List ℕ) → StandsIn lines.old.counts round.old now
        → IsAhead (taken_by lines.old) (S.left source.old) text
        → IfErr result (FailsStep now text (S.left source.new)) }
    ensures later { result ≡ Ok goes → lines.new.counts.lines ≡ lines.old.counts.lines + 1 }
    ensures ended { IfOk result (IsAtEnd (has_ended lines.old) (has_ended lines.new)) }
    ensures leaves { LeavesRest (S.left source.old) (S.left source.new) }
    ensures cause { HasPlanCause (S.faults source.old) (S.faults source.new) result }
{
    match lines.reader.next(source, &mut lines.line, LONGEST_LINE)? {
        Next::Line => {
            let says = read_line(alloc, &lines.line)?;
            take_says(&mut lines.counts, round, says)
        }
        Next::Long => Err(refusal(&lines.counts, LineKind::LongLine)),
        Next::End => {
            lines.ended = true;
            Ok(Progress::Over)
        }
    }
}
