//! The commands of the round that is being read.

ghost use Rattle.std.specs.Prelude.{◌≡◌, ◌≤◌, length};
ghost use Rattle.era_base.specs.declared.limits.TheConstants.{MOST_COMMANDS};
ghost use Rattle.era_plan.specs.Commands.{payload_of};

use crate::round::CommandList;

/// The commands of the round that is being read, and how many bytes they have together.
#[derive(Drop)]
pub struct Gathering {
    pub commands: CommandList,
    pub payload: u32,
    pub ghost counted: { payload ≡ payload_of commands },
    pub ghost little: { payload ≤ 67108864 },
    pub ghost few: { length commands ≤ MOST_COMMANDS },
}
