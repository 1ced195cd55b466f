//! One session over an opened origin: it reads the stream round by round, runs each round and gives its replies.

ghost use Rattle.std.specs.Prelude.{◌≡◌, ◌+◌, ◌*◌, ◌<◌, ◌≤◌, ℕ, List};
ghost use Rattle.era_model.specs.Marks.{no_marks};
ghost use Rattle.era_tools.specs.Printing.{HasSinkCause};
ghost use Rattle.era_top.specs.Rises.{HasRiseFor};
ghost use Rattle.era_top.specs.Endings.{Goes, GoesOn};
ghost use Rattle.era_top.specs.Sessions.{end_status as status_at_end, plan_error_at, session_around};

use crate::progress::Progress;
use crate::round::answer_round;
use crate::served::first_unserved;
use crate::session_lines::{give_end, give_open, give_stop};
use era_base::{Disk, Geometry, Sink, Source};
use era_marks::SessionMarks;
use era_plan::{LineError, LineKind, Lines, PlanError, next_round};
use era_tools::Status;
use std::alloc::Global;

/// The status of a session whose stream was read to its end, where memory for a list was or wasn't refused.
fn end_status(lacked: bool) -> Status
    ensures { result ≡ status_at_end lacked }
{
    if lacked { Status::Memory } else { Status::Done }
}

/// The error of a line whose command isn't served yet.
fn not_yet(line: u32) -> PlanError
    ensures { result ≡ plan_error_at line }
{
    PlanError::Line(LineError {
        line,
        kind: LineKind::NotYet,
    })
}

/// Serves the rounds of a source over an origin, each of them before the next one is read, and gives the session's text
/// behind its first line.
fn serve_rounds<S: Source, K: Sink, D: Disk>(
    alloc: Global,
    geometry: &Geometry,
    marks: SessionMarks,
    source: &mut S,
    sink: &mut K,
    disk: &mut D,
) -> Status
    requires marks { marks ≡ no_marks geometry.now.sectors geometry.now.block_sectors 1 }
    requires disk { D.sectors disk.old ≡ geometry.now.sectors }
    ensures goes { (contents : List ℕ) → GoesOn geometry.now contents
        (session_around S.Source D.Disk source.old source.new disk.old disk.new)
        (K.given sink.old) (K.given sink.new) result }
    ensures rose { HasRiseFor result (S.faults source.old) (S.faults source.new)
        (K.faults sink.old) (K.faults sink.new)
        (D.faults disk.old) (D.faults disk.new) }
    ensures sink { HasSinkCause (K.faults sink.old) (K.faults sink.new) result }
    ensures size { D.sectors disk.new ≡ D.sectors disk.old }
    ensures place { D.place disk.new ≡ D.place disk.old }
{
    let mut session = Progress {
        marks,
        place: 0,
        lacked: false,
    };
    let mut lines = Lines::new(alloc);
    loop {
        let round = match next_round(alloc, &mut lines, source) {
            Ok(Some(round)) => round,
            Ok(None) => {
                let ended = end_status(session.lacked);
                return give_end(sink, session.marks.era(), session.place, ended);
            }
            Err(error) => return give_stop(sink, error, session.marks.era(), session.place),
        };
        let commands = round.commands.as_slice();
        if let Some(line) = first_unserved(commands) {
            let error = not_yet(line);
            return give_stop(sink, error, session.marks.era(), session.place);
        }
        if let Some(status) = answer_round(alloc, geometry, commands, &mut session, sink, disk) {
            return status;
        }
    }
}

/// Serves the stream of a source over an origin, and gives the session's text.
pub fn serve<S: Source, K: Sink, D: Disk>(
    alloc: Global,
    geometry: &Geometry,
    source: &mut S,
    sink: &mut K,
    disk: &mut D,
) -> Status
    requires { D.sectors disk.old ≡ geometry.now.sectors }
    ensures goes { (contents : List ℕ) → Goes geometry.now contents
        (session_around S.Source D.Disk source.old source.new disk.old disk.new)
        (K.given sink.old) (K.given sink.new) result }
    ensures rose { HasRiseFor result (S.faults source.old) (S.faults source.new)
        (K.faults sink.old) (K.faults sink.new)
        (D.faults disk.old) (D.faults disk.new) }
    ensures sink { HasSinkCause (K.faults sink.old) (K.faults sink.new) result }
    ensures size { D.sectors disk.new ≡ D.sectors disk.old }
    ensures place { D.place disk.new ≡ D.place disk.old }
{
    let Ok(()) = give_open(sink, geometry) else {
        return Status::Sink;
    };
    let Ok(marks) = SessionMarks::new(alloc, geometry, 1) else {
        return give_stop(sink, PlanError::Memory, 1, 0);
    };
    serve_rounds(alloc, geometry, marks, source, sink, disk)
}
