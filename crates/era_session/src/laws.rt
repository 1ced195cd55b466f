//! What follows of a command that was served. The functions do nothing; their clauses are the laws.

ghost use Rattle.std.specs.Prelude.{◌≡◌};
ghost use Rattle.era_base.specs.declared.ids.CmdId.{CmdId};
ghost use Rattle.era_model.specs.declared.command.Task.{Task};
ghost use Rattle.era_model.specs.declared.reply.Answer.{Answer};
ghost use Rattle.era_session.specs.Serving.{TaskDid};
ghost use Rattle.era_session.specs.Sessions.{SessionFits};
ghost use Rattle.era_session.specs.Trails.{LeavesTrail};
ghost use Rattle.era_session.specs.declared.session.Session.{Session};

use era_base::Disk;

/// Behind a command the pass has the receipts of just the entries of the session's trail of its
/// task, in their order. Each was drawn by the command, and they fix the answer that it was given.
/// So a reply of that trail is one of the journal's own entries, and tells that answer.
pub fn served_commands_leave_their_trail<D: Disk>()
    ensures { (id : CmdId) (task : Task) (answer : Answer) (old new : Session D)
        → SessionFits D.Disk old → TaskDid D.Disk id task answer old new
        → LeavesTrail id task answer old new }
{}
