//! What the commands that a session served do to its disks' counts of faults, and what stays of the session. The
//! functions do nothing; their clauses are the laws.

ghost use Rattle.std.specs.Prelude.{◌≡◌, ◌<◌, ◌≤◌, ◌^◌, ℕ, List, Contains, true, false};
ghost use Rattle.era_base.specs.Faults.{NoneRose, Rose};
ghost use Rattle.era_model.specs.declared.opening.Opening.{Opening};
ghost use Rattle.era_served.specs.Counts.{EachCount, HasNotFallen, IsServedAnswer, KeepsUp, SomeCount, TellsFault, some_tells_fault};
ghost use Rattle.era_served.specs.Served.{HasServedAll, Served};
ghost use Rattle.era_session.specs.Sessions.{SameSession, SessionFits, SessionStands};
ghost use Rattle.era_session.specs.declared.session.Session.{Session};

use era_base::Disk;

/// The count of faults of each stripe's part and of the metadata disk never falls.
pub fn devices_count_upwards<D: Disk>()
    ensures capped { (served : List Served) (first last : Session D)
        → HasServedAll D.Disk served first last → EachCount D.Disk HasNotFallen first last }
    ensures of_u64 { (served : List Served) (first last : Session D)
        → HasServedAll D.Disk served first last → EachCount D.Disk KeepsUp first last }
{}

/// Where a command was answered with a fault, the count of some disk rose over all commands. A fault of the origin is one
/// of the part of the stripe that the command's sectors lie in, and one of the metadata is one of its disk: the told count
/// is above that disk's count before all commands, and not above its count after them.
pub fn told_faults_have_risen<D: Disk>()
    ensures some { (served : List Served) (first last : Session D)
        → HasServedAll D.Disk served first last → some_tells_fault served ≡ true
        → SomeCount D.Disk Rose first last }
    ensures device { (served : List Served) (first last : Session D) (one : Served)
        → HasServedAll D.Disk served first last → Contains served one
        → TellsFault D.Disk one.command.task one.answer first last }
{}

/// Where no disk's count rose, no command was answered with a fault: a write in range was done, a read in range gave its
/// bytes, and each request was answered as by a metadata disk that doesn't fail.
pub fn quiet_sessions_tell_no_fault<D: Disk>()
    ensures none { (served : List Served) (first last : Session D)
        → HasServedAll D.Disk served first last → EachCount D.Disk NoneRose first last
        → some_tells_fault served ≡ false }
    ensures answers { (served : List Served) (first last : Session D) (one : Served)
        → HasServedAll D.Disk served first last → EachCount D.Disk NoneRose first last
        → Contains served one → IsServedAnswer first.geometry one.command.task one.answer }
{}

/// Gate, geometry and shares of a session stay, with the number of its stripes, and so do its devices: each stripe's disk
/// and the metadata disk keep their place and size. The session fits together and stands in its opening as before.
pub fn sessions_keep_their_devices<D: Disk>()
    ensures same { (served : List Served) (first last : Session D)
        → HasServedAll D.Disk served first last → SameSession D.Disk first last }
    ensures fits { (served : List Served) (first last : Session D)
        → HasServedAll D.Disk served first last → SessionFits D.Disk first
        → SessionFits D.Disk last }
    ensures stands { (opening : Opening) (served : List Served) (first last : Session D)
        → HasServedAll D.Disk served first last → SessionStands D.Disk opening first
        → SessionStands D.Disk opening last }
{}
