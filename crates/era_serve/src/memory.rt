//! The memory of commands, which is taken before the first of their round is served.

ghost use Rattle.std.specs.Prelude.{◌≡◌, ◌≤◌, All, IfOk};
ghost use Rattle.era_model.specs.Tasks.{IsTask};
ghost use Rattle.era_serve.specs.Memories.{AreMemoriesFor, IsMemoryFor};

use era_base::Memory;
use era_model::{Command, Entry, Task};
use era_session::{CommandRoom, TRAIL_ENTRIES};
use std::alloc::Global;

/// The memory of one command: its room at the session, and the list of the entries that its reply tells.
#[derive(Drop)]
pub struct CommandMemory<'a> {
    pub room: CommandRoom,
    pub trail: Vec<&'a Entry>,
}

/// The memory of a command that does this task at a session of so many stripes.
fn make_memory<'a>(alloc: Global, task: &Task, stripes: u32) -> Result<CommandMemory<'a>, Memory>
    requires { IsTask task.now }
    ensures { IfOk result (IsMemoryFor stripes task.now) }
{
    let room = CommandRoom::make(alloc, task, stripes)?;
    let trail = Vec::with_capacity(alloc, TRAIL_ENTRIES)?;
    Ok(CommandMemory { room, trail })
}

/// The memory of each command of a round at a session of so many stripes, that of the first command last.
pub fn make_memories<'a>(
    alloc: Global,
    commands: &[Command],
    stripes: u32,
) -> Result<Vec<CommandMemory<'a>>, Memory>
    requires { All (λ command. IsTask command.task) commands.now }
    ensures { IfOk result (λ memories. AreMemoriesFor stripes commands.now memories.items) }
{
    let mut memories = Vec::with_capacity(alloc, commands.len())?;
    let mut index = commands.len();
    while index > 0 {
        index -= 1;
        memories.push(make_memory(alloc, &commands[index].task, stripes)?)?;
    }
    Ok(memories)
}
