//! Which commands are served so far.

ghost use Rattle.std.specs.Prelude.{◌≡◌, ◌↔◌, All, IfNone, IfSome, IsTrue};
ghost use Rattle.era_model.specs.Tasks.{IsTask};
ghost use Rattle.era_top.specs.Runs.{IsServedCommand};
ghost use Rattle.era_top.specs.Endings.{IsFirstUnserved};

use era_plan::{Command, Request, Task};

/// Whether a command is served: it is a write, a checkpoint or a list by the marks, of lane 0.
fn is_served(command: &Command) -> bool
    requires { IsTask command.now.task }
    ensures { IsTrue result ↔ IsServedCommand command.now }
{
    if command.id.lane != 0 {
        return false;
    }
    match &command.task {
        Task::Write { .. } => true,
        Task::Read { .. } => false,
        Task::Ask(request) => match request {
            Request::Checkpoint => true,
            Request::List { snap, .. } => !*snap,
            _ => false,
        },
    }
}

/// The line of the first command that isn't served.
pub fn first_unserved(commands: &[Command]) -> Option<u32>
    requires { All (λ command. IsTask command.task) commands.now }
    ensures some { IfSome result (IsFirstUnserved commands.now) }
    ensures none { IfNone result (All IsServedCommand commands.now) }
{
    for command in commands {
        if !is_served(command) {
            return Some(command.line);
        }
    }
    None
}
