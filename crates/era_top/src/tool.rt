//! The tools: every command that is no session. A tool takes no runtime, so it waits for nobody and returns.

ghost use Rattle.std.specs.Prelude.{◌≡◌};
ghost use Rattle.era_base.specs.Faults.{Rose};
ghost use Rattle.era_tools.specs.Around.{bay_around};
ghost use Rattle.era_tools.specs.Printing.{HasSinkCause, Prints};
ghost use Rattle.era_top.specs.Around.{AllReturned, HasFaultCause, HasSourceCause, IsFaultless, SomeCountRose, streams_around};
ghost use Rattle.era_top.specs.Refusals.{words_status, words_text};
ghost use Rattle.era_top.specs.Tools.{EndsAsTool, EndsQuiet, EndsToolExactly, ReportsTool, RunsTool};
ghost use Rattle.era_top.specs.Top.{EndsBySink, IsNumber};
ghost use Rattle.era_words.specs.Words.{texts_of};

use crate::refusal::WordsRefusal;
use era_base::{Bay, Sink, Source};
use era_line::Part::Text;
use era_tools::{Status, backup, check, dump, invalidate, need, number, print, restore};
use era_words::{Job, WordsError, read_words};
use std::alloc::Global;

/// Tells why words are refused, and the status that the call ends with. It takes no memory.
pub fn refuse_words<K: Sink>(sink: &mut K, refusal: WordsRefusal) -> Status
    ensures printed { Prints (K.given sink.old) (K.given sink.new) (words_text refusal)
        (words_status refusal) result }
    ensures fault { result ≡ Status.Fault → ⊥ }
    ensures source { result ≡ Status.Source → ⊥ }
    ensures sink { HasSinkCause (K.faults sink.old) (K.faults sink.new) result }
{
    match refusal {
        WordsRefusal::NoCommand => print(sink, &[Text(b"refused Usage\n")], Status::Usage),
        WordsRefusal::NotYet => print(sink, &[Text(b"refused NotYet\n")], Status::Usage),
        WordsRefusal::NoRoom => print(sink, &[Text(b"memory\n")], Status::Memory),
    }
}

/// Does a tool's job. A session and a load are none of its commands.
fn do_job<S: Source, K: Sink, B: Bay>(
    alloc: Global,
    job: &Job,
    source: &mut S,
    sink: &mut K,
    bay: &mut B,
) -> Status
    ensures ran { RunsTool B.D.Disk (bay_around B.Bay bay.old bay.new)
        (streams_around S.Source K.Sink source.old source.new sink.old sink.new)
        job.now result }
    ensures sink { HasSinkCause (K.faults sink.old) (K.faults sink.new) result }
{
    match job {
        Job::Need {
            sectors,
            block_sectors,
        } => need(*sectors, *block_sectors, sink),
        Job::Check { meta } => check(alloc, meta.as_str(), sink, bay),
        Job::Invalidate { meta, since, snap } => {
            invalidate(alloc, meta.as_str(), *since, *snap, sink, bay)
        }
        Job::Dump { meta, logical } => dump(alloc, meta.as_str(), *logical, sink, bay),
        Job::Restore { meta } => restore(alloc, meta.as_str(), source, sink, bay),
        Job::Backup {
            meta,
            origin,
            since,
        } => backup(alloc, meta.as_str(), origin.as_str(), *since, sink, bay),
        Job::Apply { .. } => refuse_words(sink, WordsRefusal::NotYet),
        Job::Serve { .. } | Job::Load { .. } => refuse_words(sink, WordsRefusal::NoCommand),
    }
}

/// Does a tool's job, and tells how it ended. A session and a load are none of its commands.
pub fn run_tool<S: Source, K: Sink, B: Bay>(
    alloc: Global,
    job: &Job,
    source: &mut S,
    sink: &mut K,
    bay: &mut B,
) -> Status
    ensures ran { RunsTool B.D.Disk (bay_around B.Bay bay.old bay.new)
        (streams_around S.Source K.Sink source.old source.new sink.old sink.new)
        job.now result }
    ensures fault { HasFaultCause B.D.Disk (bay_around B.Bay bay.old bay.new) result }
    ensures source { HasSourceCause
        (streams_around S.Source K.Sink source.old source.new sink.old sink.new) result }
    ensures sink { HasSinkCause (K.faults sink.old) (K.faults sink.new) result }
    ensures returned { AllReturned (bay_around B.Bay bay.old bay.new) }
{
    do_job(alloc, job, source, sink, bay)
}

/// Does what words ask of the tools, and tells how it ended.
fn run_tool_words<S: Source, K: Sink, B: Bay>(
    alloc: Global,
    words: &[String],
    source: &mut S,
    sink: &mut K,
    bay: &mut B,
) -> Status
    ensures report { ReportsTool (texts_of words.now) B.D.Disk (bay_around B.Bay bay.old bay.new)
        (streams_around S.Source K.Sink source.old source.new sink.old sink.new) result }
    ensures fault { HasFaultCause B.D.Disk (bay_around B.Bay bay.old bay.new) result }
    ensures source { HasSourceCause
        (streams_around S.Source K.Sink source.old source.new sink.old sink.new) result }
    ensures sink { HasSinkCause (K.faults sink.old) (K.faults sink.new) result }
    ensures returned { AllReturned (bay_around B.Bay bay.old bay.new) }
{
    match read_words(alloc, words) {
        Ok(job) => run_tool(alloc, &job, source, sink, bay),
        Err(WordsError::Usage) => refuse_words(sink, WordsRefusal::NoCommand),
        Err(WordsError::Memory) => refuse_words(sink, WordsRefusal::NoRoom),
    }
}

/// Does what words ask of the tools, and answers the number that the program ends with: 0 where the whole text was given,
/// 1 where a check found a damage, and 2 to 8 as the refusal, the fault or the failure says. A session and a load are none
/// of its commands: it answers `refused Usage`, status 2. It waits for nobody.
pub fn era_tool<S: Source, K: Sink, B: Bay>(
    alloc: Global,
    words: &[String],
    source: &mut S,
    sink: &mut K,
    bay: &mut B,
) -> u8
    ensures report { EndsAsTool (texts_of words.now) B.D.Disk (bay_around B.Bay bay.old bay.new)
        (streams_around S.Source K.Sink source.old source.new sink.old sink.new) result }
    ensures number { IsNumber result }
    ensures fault { result ≡ 4 → SomeCountRose B.D.Disk (bay_around B.Bay bay.old bay.new) }
    ensures source { result ≡ 7 → Rose (S.faults source.old) (S.faults source.new) }
    ensures sink { EndsBySink (K.faults sink.old) (K.faults sink.new) result }
    ensures returned { AllReturned (bay_around B.Bay bay.old bay.new) }
    ensures exact { EndsToolExactly (texts_of words.now) result }
    ensures faultless { IsFaultless B.D.Disk (bay_around B.Bay bay.old bay.new)
        (streams_around S.Source K.Sink source.old source.new sink.old sink.new)
        → EndsQuiet (texts_of words.now) result }
{
    number(run_tool_words(alloc, words, source, sink, bay))
}
