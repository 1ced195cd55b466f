//! How a session serves a command, whatever it asks.

ghost use Rattle.std.specs.Prelude.{◌≡◌, ◌≢◌, false, length};
ghost use Rattle.era_gate.specs.Calls.{has_gone};
ghost use Rattle.era_model.specs.Tasks.{IsTask};
ghost use Rattle.era_model.specs.declared.command.Request.TheVariants.{Checkpoint};
ghost use Rattle.era_model.specs.declared.opening.Opening.{Opening};
ghost use Rattle.era_session.specs.Serving.{IsRoomFor};

use crate::rooms::CommandRoom;
use crate::session::Session;
use era_base::{CmdId, Disk};
use era_model::{Answer, Command, Request, Task};
use era_notes::Room;
use std::alloc::Global;

impl<D: Disk> Session<D> {
    ghost use Rattle.era_session.specs.Serving.{RequestDid, TaskDid};
    ghost use Rattle.era_session.specs.Sessions.{DrawsAtMost, MayCommand, SameSession, SessionFits, SessionStands};
    ghost use Rattle.era_stripe.specs.Results.{only};

    /// Serves a command with the memory that was made for it. Each answer has the cause that the call of its task says: see
    /// `write`, `read`, `checkpoint` and `ask`. It takes memory for the blocks of a list alone, and waits for nobody.
    pub fn serve(&mut self, alloc: Global, room: CommandRoom, command: &Command) -> Answer
        requires may { MayCommand D.Disk self.old command.now.id }
        requires once { has_gone command.now.id self.old.pass.part.lanes ≡ false }
        requires task { IsTask command.now.task }
        requires room { IsRoomFor (length self.old.stripes.items) command.now.task room }
        ensures fits { SessionFits D.Disk self.new }
        ensures stands { (opening : Opening) → SessionStands D.Disk opening self.old
            → SessionStands D.Disk opening self.new }
        ensures did { TaskDid D.Disk command.now.id command.now.task result self.old self.new }
        ensures same { SameSession D.Disk self.old self.new
            × DrawsAtMost 24 (only command.now.id) self.old.pass self.new.pass }
    {
        match (&command.task, room) {
            (Task::Write { sector, bytes }, CommandRoom::Write(marking, room)) => {
                self.write(marking, room, command.id, *sector, bytes.as_slice())
            }
            (Task::Read { sector, count }, CommandRoom::Read(room, into)) => {
                self.read(room, into, command.id, *sector, *count)
            }
            (Task::Ask(Request::Checkpoint), CommandRoom::Checkpoint(rooms, room)) => {
                self.checkpoint(rooms, room, command.id)
            }
            (Task::Ask(request), CommandRoom::Ask(room)) => {
                self.serve_request(alloc, room, command.id, *request)
            }
            _ => unreachable!(),
        }
    }

    /// Serves a request to the metadata other than a checkpoint, as `ask` does.
    fn serve_request(&mut self, alloc: Global, room: Room, id: CmdId, request: Request) -> Answer
        requires may { MayCommand D.Disk self.old id }
        requires other { request ≢ Checkpoint }
        ensures fits { SessionFits D.Disk self.new }
        ensures stands { (opening : Opening) → SessionStands D.Disk opening self.old
            → SessionStands D.Disk opening self.new }
        ensures did { RequestDid D.Disk id request result self.old self.new }
        ensures same { SameSession D.Disk self.old self.new
            × DrawsAtMost 24 (only id) self.old.pass self.new.pass }
    {
        self.ask(alloc, room, id, request)
    }
}
