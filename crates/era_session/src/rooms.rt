//! The memory of one command, which is taken before the command begins.

ghost use Rattle.std.specs.Prelude.{◌≡◌, ◌≤◌, ◌+◌, IfOk, length, vec_len};
ghost use Rattle.era_model.specs.Tasks.{IsTask};
ghost use Rattle.era_session.specs.Serving.{IsRoomFor};

use era_base::Memory;
use era_model::{Request, Task};
use era_notes::Room;
use std::alloc::Global;

/// The memory of one command.
#[derive(Drop)]
pub enum CommandRoom {
    /// Of a write: its room at the keeper, for the mark, and at the stripe of its block.
    Write(Room, Room),
    /// Of a read: its room at the stripe of its block, and a buffer for the bytes.
    Read(Room, Vec<u8>),
    /// Of a checkpoint: a room at each stripe, and that at the keeper.
    Checkpoint(Vec<Room>, Room),
    /// Of another request to the metadata: its room at the keeper.
    Ask(Room),
}

/// Rooms without payload, one for each of so many stripes.
fn make_rooms(alloc: Global, count: u32) -> Result<Vec<Room>, Memory>
    ensures { IfOk result (λ rooms. vec_len rooms ≡ count) }
{
    let mut rooms = Vec::new(alloc);
    for stripe in 0..count {
        let _stripe = stripe;
        rooms.push(Room::make(alloc, 0)?)?;
    }
    Ok(rooms)
}

/// The memory of a request at a session of so many stripes.
fn make_request_room(alloc: Global, request: Request, stripes: u32) -> Result<CommandRoom, Memory>
    ensures { IfOk result (IsRoomFor stripes (Task.Ask request)) }
{
    let keeper = Room::make(alloc, 0)?;
    match request {
        Request::Checkpoint => Ok(CommandRoom::Checkpoint(make_rooms(alloc, stripes)?, keeper)),
        _ => Ok(CommandRoom::Ask(keeper)),
    }
}

impl CommandRoom {
    /// The memory of a command that does this task at a session of so many stripes. A write takes twice its bytes, a read
    /// three times those that it asks for.
    pub fn make(alloc: Global, task: &Task, stripes: u32) -> Result<CommandRoom, Memory>
        requires { IsTask task.now }
        ensures { IfOk result (IsRoomFor stripes task.now) }
    {
        match task {
            Task::Write { bytes, .. } => {
                let marking = Room::make(alloc, 0)?;
                Ok(CommandRoom::Write(marking, Room::make(alloc, bytes.len() as u32)?))
            }
            Task::Read { count, .. } => {
                let mut into = Vec::new(alloc);
                into.resize(*count as usize * 512, 0)?;
                Ok(CommandRoom::Read(Room::make(alloc, *count * 512)?, into))
            }
            Task::Ask(request) => make_request_room(alloc, *request, stripes),
        }
    }
}
