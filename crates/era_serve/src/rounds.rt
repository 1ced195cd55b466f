//! The rounds of a source, one after the other.

ghost use Rattle.std.specs.Prelude.{◌≡◌};
ghost use Rattle.era_serve.specs.Stops.{ServesRounds, around, not_yet_at, stop_of};
ghost use Rattle.era_served.specs.Served.{IsNew};
ghost use Rattle.era_session.specs.Sessions.{SessionFits};

use crate::lanes::{first_elsewhere, lane_with};
use crate::replies::Replies;
use crate::round::answer_round;
use crate::stop::{Stop, Stopped};
use era_base::{Disk, Sink, Source};
use era_plan::{LineError, LineKind, Lines, PlanError, next_round};
use era_served::laws::other_commands_have_issued_nothing;
use era_session::Session;
use std::alloc::Global;

/// How serving ends where the stream gives no further round.
fn stop_by(error: PlanError) -> Stop
    ensures { result ≡ stop_of error }
{
    match error {
        PlanError::Line(error) => Stop::Line(error),
        PlanError::Source(count) => Stop::Source(count),
        PlanError::Memory => Stop::Memory,
    }
}

/// How it ends at a command of another lane in this line.
fn not_yet(line: u32) -> Stop
    ensures { result ≡ not_yet_at line }
{
    Stop::Line(LineError {
        line,
        kind: LineKind::NotYet,
    })
}

/// Serves the rounds of a source over a session that has just begun, and gives their replies, each round's before the
/// source is asked for the next one. It ends where the stream does, or at the first cause that its answer names. All
/// commands are those of one lane, that of the first one. It waits for nobody.
///
/// The memory of a round is taken before its first command is run: that of a command as `CommandRoom::make` takes it.
pub fn serve_rounds<S: Source, K: Sink, D: Disk>(
    alloc: Global,
    session: &mut Session<D>,
    source: &mut S,
    sink: &mut K,
) -> Stopped
    requires fits { SessionFits D.Disk session.old }
    requires begun { IsNew session.old }
    ensures { ServesRounds D.Disk session.old session.new
        (around S.Source K.Sink source.old source.new sink.old sink.new) result }
{
    other_commands_have_issued_nothing::<D>();
    let mut lines = Lines::new(alloc);
    let mut replies = Replies::new();
    let mut lane = None;
    loop {
        let round = match next_round(alloc, &mut lines, source) {
            Ok(Some(round)) => round,
            Ok(None) => return replies.stopped(Stop::Read),
            Err(error) => return replies.stopped(stop_by(error)),
        };
        let commands = round.commands.as_slice();
        lane = lane_with(lane, commands);
        if let Some(line) = first_elsewhere(lane, commands) {
            return replies.stopped(not_yet(line));
        }
        let Ok(()) = answer_round(alloc, session, commands, &mut replies, sink) else {
            return replies.stopped(Stop::Memory);
        };
        if replies.lost {
            return replies.stopped(Stop::Sink);
        }
    }
}
