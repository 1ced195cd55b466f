//! What follows of a session that was opened and has run. The function does nothing; its clause is the law.

ghost use Rattle.std.specs.Prelude.{ℕ};
ghost use Rattle.era_line.specs.declared.table_line.TableLine.{TableLine};
ghost use Rattle.era_opening.specs.Openings.{HasOpenedSession};
ghost use Rattle.era_run.specs.Around.{StreamsAround};
ghost use Rattle.era_run.specs.Reports.{ServesSession};
ghost use Rattle.era_run.specs.Steps.{RanOpened};
ghost use Rattle.era_session.specs.declared.session.Session.{Session};
ghost use Rattle.era_tools.specs.Around.{BayAround, Between, behind, lending};
ghost use Rattle.era_tools.specs.declared.status.Status.{Status};

use era_account::laws::{
    ended_sessions_devices_follow, ended_sessions_have_legal_journals,
    ended_sessions_metadata_is_durable,
};
use era_base::Disk;
use era_served::counts::sessions_keep_their_devices;
use era_served::laws::{commands_have_their_trails, journals_end_as_their_sessions};
use era_served::runs::journals_are_runs;

/// What a session was opened over and how it ran is what it reports: a legal journal of just its commands, which its
/// devices follow, its text by that journal, and its status by the answers.
pub fn runs_are_accounted_for<D: Disk>()
    ensures { (bay : BayAround D) (between : Between D) (line : TableLine) (stripes : ℕ)
        (streams : StreamsAround) (first : Session D) (result : Status)
        → HasOpenedSession D.Disk (lending bay between) line stripes first
        → RanOpened D.Disk (behind bay between) streams first result
        → ServesSession D.Disk bay line stripes streams result }
{
    journals_are_runs::<D>();
    commands_have_their_trails::<D>();
    journals_end_as_their_sessions::<D>();
    ended_sessions_have_legal_journals::<D>();
    ended_sessions_devices_follow::<D>();
    ended_sessions_metadata_is_durable::<D>();
    sessions_keep_their_devices::<D>();
}
