//! The top call: the words are read, the origin is opened, a session is served over it, and the origin is put back.

ghost use Rattle.std.specs.Prelude.{◌≡◌, ◌⊎◌, ℕ, List, [], ◌∷◌, ◌++◌};
ghost use Rattle.era_base.specs.Bay.{Loan, new_loan, KeepsSizes};
ghost use Rattle.era_base.specs.Faults.{Rose};
ghost use Rattle.era_top.specs.Around.{SomeCountRose, AllReturned, IsFaultless, HasFaultCause, HasSourceCause, streams_around};
ghost use Rattle.era_tools.specs.Around.{bay_around};
ghost use Rattle.era_tools.specs.Printing.{HasSinkCause};
ghost use Rattle.era_top.specs.Openings.{OpensAsAsked, HasServed};
ghost use Rattle.era_top.specs.Reports.{Reports, ReportsSession, RunsJob};
ghost use Rattle.era_top.specs.Top.{EndsAs, EndsBySink, IsNumber, IsServable};
ghost use Rattle.era_top.specs.Exactly.{EndsExactly};
ghost use Rattle.era_words.specs.Words.{texts_of};

use crate::origin::open_origin;
use crate::refusal::WordsRefusal;
use crate::session::serve;
use crate::tool::{refuse_words, run_tool};
use era_base::{Bay, Geometry, Pace, Sink, Source};
use era_line::TableLine;
use era_tools::{Refusal, Status, number, refuse};
use era_words::{Job, WordsError, read_words};
use std::alloc::Global;
use std::sync::Wait;
use std::thread::Threads;

/// Opens the origin of a table line.
fn open<B: Bay>(line: &TableLine, bay: &mut B) -> Result<(Geometry, B::D), Refusal>
    ensures { OpensAsAsked line.now
        B.D.Disk (bay_around B.Bay bay.old bay.new)
        result }
{
    let geometry = match Geometry::new(line.length, line.block_sectors) {
        Ok(geometry) => geometry,
        Err(error) => {
            return Err(Refusal::NoGeometry {
                error,
                size: line.block_sectors,
            });
        }
    };
    match open_origin(bay, line) {
        Ok(disk) => Ok((geometry, disk)),
        Err(refusal) => Err(refusal),
    }
}

/// Serves a session over a disk that was lent last, and puts the disk back.
fn serve_lent<S: Source, K: Sink, B: Bay>(
    alloc: Global,
    geometry: &Geometry,
    mut disk: B::D,
    source: &mut S,
    sink: &mut K,
    bay: &mut B,
) -> Status
    requires size { B.D.sectors disk ≡ geometry.now.sectors }
    requires lent { (before : List (Loan B.D)) × (B.loans bay.old ≡ before ++ new_loan disk ∷ []) }
    ensures served { (contents : List ℕ) (before : List (Loan B.D))
        → B.loans bay.old ≡ before ++ new_loan disk ∷ []
        → HasServed geometry.now contents
        B.D.Disk (bay_around B.Bay bay.old bay.new)
        (streams_around S.Source K.Sink source.old source.new sink.old sink.new)
        before disk result }
    ensures sizes { KeepsSizes (B.sizes bay.old) (B.sizes bay.new) }
    ensures sink { HasSinkCause (K.faults sink.old) (K.faults sink.new) result }
{
    let status = serve(alloc, geometry, source, sink, &mut disk);
    bay.put_back(disk);
    status
}

/// Serves a session over the target of a table line, and tells how it ended.
fn run_serve<S: Source, K: Sink, B: Bay>(
    alloc: Global,
    line: &TableLine,
    source: &mut S,
    sink: &mut K,
    bay: &mut B,
) -> Status
    ensures single_lane_session { (contents : List ℕ) → ReportsSession line.now contents
        B.D.Disk (bay_around B.Bay bay.old bay.new)
        (streams_around S.Source K.Sink source.old source.new sink.old sink.new)
        result }
    ensures fault { HasFaultCause B.D.Disk (bay_around B.Bay bay.old bay.new) result }
    ensures source { HasSourceCause
        (streams_around S.Source K.Sink source.old source.new sink.old sink.new) result }
    ensures sink { HasSinkCause (K.faults sink.old) (K.faults sink.new) result }
    ensures returned { AllReturned (bay_around B.Bay bay.old bay.new) }
{
    match open(line, bay) {
        Ok((geometry, disk)) => serve_lent(alloc, &geometry, disk, source, sink, bay),
        Err(refusal) => refuse(sink, refusal),
    }
}

/// Does a job, and tells how it ended.
fn run_job<S: Source, K: Sink, B: Bay>(
    alloc: Global,
    job: &Job,
    source: &mut S,
    sink: &mut K,
    bay: &mut B,
) -> Status
    ensures single_lane_session { (contents : List ℕ) → RunsJob contents
        B.D.Disk (bay_around B.Bay bay.old bay.new)
        (streams_around S.Source K.Sink source.old source.new sink.old sink.new)
        job.now result }
    ensures fault { HasFaultCause B.D.Disk (bay_around B.Bay bay.old bay.new) result }
    ensures source { HasSourceCause
        (streams_around S.Source K.Sink source.old source.new sink.old sink.new) result }
    ensures sink { HasSinkCause (K.faults sink.old) (K.faults sink.new) result }
    ensures returned { AllReturned (bay_around B.Bay bay.old bay.new) }
{
    match job {
        Job::Serve {
            line,
            stripes,
            digest,
        } => {
            if *stripes == 4 && *digest == 0 {
                run_serve(alloc, line, source, sink, bay)
            } else {
                refuse_words(sink, WordsRefusal::NotYet)
            }
        }
        Job::Load { .. } => refuse_words(sink, WordsRefusal::NotYet),
        _ => run_tool(alloc, job, source, sink, bay),
    }
}

/// Does what the words say, and tells how it ended.
pub fn run_words<S: Source, K: Sink, B: Bay>(
    alloc: Global,
    words: &[String],
    source: &mut S,
    sink: &mut K,
    bay: &mut B,
) -> Status
    ensures single_lane_session { (contents : List ℕ) → Reports (texts_of words.now) contents
        B.D.Disk (bay_around B.Bay bay.old bay.new)
        (streams_around S.Source K.Sink source.old source.new sink.old sink.new)
        result }
    ensures fault { HasFaultCause B.D.Disk (bay_around B.Bay bay.old bay.new) result }
    ensures source { HasSourceCause
        (streams_around S.Source K.Sink source.old source.new sink.old sink.new) result }
    ensures sink { HasSinkCause (K.faults sink.old) (K.faults sink.new) result }
    ensures returned { AllReturned (bay_around B.Bay bay.old bay.new) }
{
    match read_words(alloc, words) {
        Ok(job) => run_job(alloc, &job, source, sink, bay),
        Err(WordsError::Usage) => refuse_words(sink, WordsRefusal::NoCommand),
        Err(WordsError::Memory) => refuse_words(sink, WordsRefusal::NoRoom),
    }
}

/// Does what the words say, and answers the number that the program ends with.
pub fn era_top<R: Threads + Wait + Sync, S: Source, K: Sink, B: Bay, P: Pace + Sync>(
    rt: &R,
    alloc: Global,
    words: &[String],
    source: &mut S,
    sink: &mut K,
    bay: &mut B,
    pace: &P,
) -> u8
    ensures single_lane_session { (contents : List ℕ) → EndsAs (texts_of words.now) contents
        B.D.Disk (bay_around B.Bay bay.old bay.new)
        (streams_around S.Source K.Sink source.old source.new sink.old sink.new)
        result }
    ensures number { IsNumber result }
    ensures fault { result ≡ 4 → SomeCountRose
        B.D.Disk (bay_around B.Bay bay.old bay.new) }
    ensures source { result ≡ 7 → Rose (S.faults source.old) (S.faults source.new) }
    ensures sink { EndsBySink (K.faults sink.old) (K.faults sink.new) result }
    ensures returned { AllReturned (bay_around B.Bay bay.old bay.new) }
    ensures exact { EndsExactly (texts_of words.now) (B.sizes bay.new) result }
    ensures faultless { IsServable (texts_of words.now) (B.sizes bay.new) (S.left source.old)
        → IsFaultless
        B.D.Disk (bay_around B.Bay bay.old bay.new)
        (streams_around S.Source K.Sink source.old source.new sink.old sink.new)
        → (result ≡ 0) ⊎ (result ≡ 5) }
{
    let _ = rt;
    let _ = pace;
    number(run_words(alloc, words, source, sink, bay))
}
