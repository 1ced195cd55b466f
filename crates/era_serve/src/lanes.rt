//! The one lane of a session's commands.

ghost use Rattle.std.specs.Prelude.{◌≡◌, ◌↔◌, ◌++◌, List, All, IfNone, IfSome, IsTrue};
ghost use Rattle.era_model.specs.declared.command.Command.{Command};
ghost use Rattle.era_serve.specs.Lanes.{IsFirstElsewhere, IsOfLane, lane_of};

use era_model::Command;

/// The lane of a session's first command, where it has these commands more.
pub fn lane_with(lane: Option<u32>, commands: &[Command]) -> Option<u32>
    ensures { (before : List Command) → lane ≡ lane_of before
        → result ≡ lane_of (before ++ commands.now) }
{
    match (lane, commands.first()) {
        (None, Some(command)) => Some(command.id.lane),
        _ => lane,
    }
}

/// Whether a command is of the lane.
fn is_of_lane(lane: Option<u32>, command: &Command) -> bool
    ensures { IsTrue result ↔ IsOfLane lane command.now }
{
    lane == Some(command.id.lane)
}

/// The line of the first command that isn't of the lane.
pub fn first_elsewhere(lane: Option<u32>, commands: &[Command]) -> Option<u32>
    ensures some { IfSome result (IsFirstElsewhere lane commands.now) }
    ensures none { IfNone result (All (IsOfLane lane) commands.now) }
{
    for command in commands {
        if !is_of_lane(lane, command) {
            return Some(command.line);
        }
    }
    None
}
