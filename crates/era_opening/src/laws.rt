//! What follows of a session that was opened. The function does nothing; its clause is the law.

ghost use Rattle.std.specs.Prelude.{ℕ};
ghost use Rattle.era_line.specs.declared.table_line.TableLine.{TableLine};
ghost use Rattle.era_opening.specs.Loans.{MayGoBack};
ghost use Rattle.era_opening.specs.Openings.{HasOpenedSession, session_disks};
ghost use Rattle.era_session.specs.Sessions.{SameSession};
ghost use Rattle.era_session.specs.declared.session.Session.{Session};
ghost use Rattle.era_tools.specs.Around.{BayAround};

use era_base::Disk;

/// The devices of a session may go back to the bay that lent them for its opening, whatever the
/// session served: each lies where it was lent, and what was lent for it is out last.
pub fn devices_of_a_session_may_go_back<D: Disk>()
    ensures { (bay : BayAround D) (line : TableLine) (stripes : ℕ) (first last : Session D)
        → HasOpenedSession D.Disk bay line stripes first → SameSession D.Disk first last
        → MayGoBack D.Disk (session_disks last) bay.loans' }
{}
