//! How a session serves requests that the keeper alone serves.

ghost use Rattle.std.specs.Prelude.{◌≡◌, ◌≢◌};
ghost use Rattle.era_gate.specs.Passes.{no_write};
ghost use Rattle.era_keeper.specs.Calls.{MayCall, SameKeeper};
ghost use Rattle.era_keeper.specs.Keepers.{KeeperFits, KeeperStands};
ghost use Rattle.era_keeper.specs.Results.{AnswersCount};
ghost use Rattle.era_model.specs.declared.command.Request.TheVariants.{Checkpoint};
ghost use Rattle.era_model.specs.declared.opening.Opening.{Opening};
ghost use Rattle.era_session.specs.Chunks.{ChunkDrew};
ghost use Rattle.era_session.specs.Requests.{RequestWent, request_events};

use crate::session::Session;
use era_base::{CmdId, Disk};
use era_gate::{Gate, Pass};
use era_keeper::Keeper;
use era_model::{Answer, Request};
use era_notes::Room;
use std::alloc::Global;

/// Serves a request other than a checkpoint at the keeper. It answers as the keeper's call does, which draws one event.
fn ask_keeper<D: Disk>(
    alloc: Global,
    gate: &Gate,
    keeper: &mut Keeper<D>,
    pass: &mut Pass,
    id: CmdId,
    request: Request,
) -> Answer
    requires may { MayCall D.Disk gate.now keeper.old pass.old id 1 }
    requires other { request ≢ Checkpoint }
    ensures fits { KeeperFits D.Disk keeper.new }
    ensures stands { (opening : Opening) → KeeperStands D.Disk opening keeper.old
        → KeeperStands D.Disk opening keeper.new }
    ensures went { RequestWent D.Disk id request result keeper.old keeper.new pass.old pass.new }
    ensures drew { ChunkDrew (request_events id request result) no_write pass.old pass.new
        keeper.old.entries keeper.new.entries }
    ensures same { SameKeeper D.Disk keeper.old keeper.new }
    ensures cause { AnswersCount (D.faults keeper.old.meta.slots.disk)
        (D.faults keeper.new.meta.slots.disk) result }
{
    match request {
        Request::Checkpoint => unreachable!(),
        Request::TakeSnap => keeper.snap(gate, pass, id),
        Request::DropSnap => keeper.unsnap(gate, pass, id),
        Request::Digest => keeper.digest(gate, pass, id),
        Request::Status => keeper.status(gate, pass, id),
        Request::List { since, snap } => keeper.list(alloc, gate, pass, id, since, snap),
    }
}

impl<D: Disk> Session<D> {
    ghost use Rattle.era_session.specs.Requests.{KeeperCalled, RequestDrew};
    ghost use Rattle.era_session.specs.Sessions.{MayCommand, SameSession, SessionFits, SessionStands};

    /// Serves a request to the metadata other than a checkpoint. `room` is that of the request at the keeper. Each answer has
    /// the cause that the keeper's call says. It takes memory for the blocks of a list alone, and waits for nobody.
    pub fn ask(&mut self, alloc: Global, room: Room, id: CmdId, request: Request) -> Answer
        requires may { MayCommand D.Disk self.old id }
        requires other { request ≢ Checkpoint }
        ensures fits { SessionFits D.Disk self.new }
        ensures stands { (opening : Opening) → SessionStands D.Disk opening self.old
            → SessionStands D.Disk opening self.new }
        ensures did { KeeperCalled D.Disk (RequestWent D.Disk id request result) result
            self.old self.new }
        ensures drew { RequestDrew (request_events id request result) self.old self.new }
        ensures same { SameSession D.Disk self.old self.new }
    {
        self.keeper.admit(room);
        ask_keeper(
            alloc,
            &self.gate,
            &mut self.keeper,
            &mut self.pass,
            id,
            request,
        )
    }
}
