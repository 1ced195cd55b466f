//! Runs a session over the target of a table line.

ghost use Rattle.std.specs.Prelude.{◌<◌, ◌≤◌};
ghost use Rattle.era_base.specs.Bay.{KeepsSizes};
ghost use Rattle.era_opening.specs.Loans.{MayGoBack};
ghost use Rattle.era_opening.specs.Openings.{session_disks};
ghost use Rattle.era_run.specs.Around.{streams_around};
ghost use Rattle.era_run.specs.Reports.{RunsSession};
ghost use Rattle.era_run.specs.Steps.{RanOpened, ServesStream};
ghost use Rattle.era_served.specs.Served.{IsNew};
ghost use Rattle.era_session.specs.Sessions.{SameSession, SessionFits};
ghost use Rattle.era_session.specs.declared.session.Session.{Session};
ghost use Rattle.era_tools.specs.Around.{bay_around};

use crate::laws::runs_are_accounted_for;
use crate::lines::{give_ending, give_open};
use era_base::{Bay, Disk, Sink, Source};
use era_line::TableLine;
use era_opening::laws::devices_of_a_session_may_go_back;
use era_opening::{open_session, put_back_session};
use era_serve::{Stop, Stopped, serve_rounds};
use era_served::counts::sessions_keep_their_devices;
use era_session::Session;
use era_tools::{Status, refuse};
use std::alloc::Global;

/// Gives the first line of a session, and serves the rounds of the source behind it. Where the line can't be given, nothing
/// is read.
fn serve_stream<S: Source, K: Sink, D: Disk>(
    alloc: Global,
    session: &mut Session<D>,
    source: &mut S,
    sink: &mut K,
) -> Stopped
    requires fits { SessionFits D.Disk session.old }
    requires new { IsNew session.old }
    ensures served { ServesStream D.Disk session.old session.new
        (streams_around S.Source K.Sink source.old source.new sink.old sink.new) result }
{
    let era = session.keeper.meta.era();
    let Ok(()) = give_open(sink, &session.geometry, era) else {
        return Stopped {
            stop: Stop::Sink,
            some_fault: false,
            some_memory: false,
        };
    };
    serve_rounds(alloc, session, source, sink)
}

/// Serves the stream of a source over a session whose devices were lent last, puts them back, and gives the last lines.
fn run_opened<S: Source, K: Sink, B: Bay>(
    alloc: Global,
    mut session: Session<B::D>,
    source: &mut S,
    sink: &mut K,
    bay: &mut B,
) -> Status
    requires fits { SessionFits B.D.Disk session }
    requires new { IsNew session }
    requires may { (last : Session B.D) → SameSession B.D.Disk session last
        → MayGoBack B.D.Disk (session_disks last) (B.loans bay.old) }
    ensures ran { RanOpened B.D.Disk (bay_around B.Bay bay.old bay.new)
        (streams_around S.Source K.Sink source.old source.new sink.old sink.new)
        session result }
    ensures sizes { KeepsSizes (B.sizes bay.old) (B.sizes bay.new) }
{
    sessions_keep_their_devices::<B::D>();
    let stopped = serve_stream(alloc, &mut session, source, sink);
    let era = session.keeper.meta.era();
    let ended = session.close();
    let places = ended.places;
    put_back_session(bay, ended);
    give_ending(sink, stopped, era, places)
}

/// Runs a session over the target of a table line, in at most so many stripes: it opens the devices, serves the commands of
/// the source, and puts the devices back, whatever fails. It tells how the session ended.
pub fn run_session<S: Source, K: Sink, B: Bay>(
    alloc: Global,
    line: &TableLine,
    stripes: u32,
    source: &mut S,
    sink: &mut K,
    bay: &mut B,
) -> Status
    requires stripes { (0 < stripes) × (stripes ≤ 16) }
    ensures ran { RunsSession B.D.Disk (bay_around B.Bay bay.old bay.new) line.now stripes
        (streams_around S.Source K.Sink source.old source.new sink.old sink.new) result }
    ensures sizes { KeepsSizes (B.sizes bay.old) (B.sizes bay.new) }
{
    devices_of_a_session_may_go_back::<B::D>();
    runs_are_accounted_for::<B::D>();
    match open_session(alloc, bay, line, stripes) {
        Ok(session) => run_opened(alloc, session, source, sink, bay),
        Err(refusal) => refuse(sink, refusal),
    }
}
