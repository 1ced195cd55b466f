//! What a line says is taken into the round, or the line is refused by the limits of rounds and sessions.

ghost use Rattle.std.specs.Prelude.{◌≡◌, ◌≢◌, ◌+◌, ◌<◌, ◌≤◌, List, [], ◌∷◌, ◌++◌, false, length, Ok, IfSome, IfNone, IfErr, OnOk};
ghost use Rattle.era_base.specs.declared.limits.TheConstants.{MOST_COMMANDS};
ghost use Rattle.era_model.specs.declared.command.Command.{Command as command_of_stream};
ghost use Rattle.era_model.specs.Tasks.{IsTask, payload_of_task};
ghost use Rattle.era_plan.specs.Reading.{HasCounted};
ghost use Rattle.era_plan.specs.Stream.{Standing, is_round_big as is_round_big_with, is_session_big as is_session_big_with, next_command as command_in_line, says_step};
ghost use Rattle.era_plan.specs.Taking.{EndsRound, FitsRound, FitsSession, IsOwn, IsSayable, StandsIn, Takes, refused_line};
ghost use Rattle.era_plan.specs.declared.progress.Progress.TheVariants.{Over as over};
ghost use Rattle.era_plan.specs.declared.says.Says.TheVariants.{Does as does};

use crate::counts::Counts;
use crate::gathering::Gathering;
use crate::progress::Progress;
use crate::round::{CommandList, LineError, LineKind, PlanError, Round};
use crate::says::Says;
use era_base::{CmdId, MOST_COMMANDS, Memory};
use era_model::{Command, Task};
use std::alloc::Global;

/// The greatest number of bytes that the commands of a round have together.
const MOST_ROUND_PAYLOAD: u32 = 67_108_864;

/// The greatest number of lines of a session.
const MOST_LINES: u32 = 131_072;

/// The greatest number of commands of a session.
const MOST_SESSION_COMMANDS: u32 = 65_536;

/// The greatest number of bytes that the commands of a session have together.
const MOST_SESSION_PAYLOAD: u32 = 268_435_456;

/// Takes what the next line says into the round, unless the line is refused.
pub fn take_says(
    counts: &mut Counts,
    round: &mut Gathering,
    says: Says,
) -> Result<Progress, PlanError>
    requires { IsSayable says }
    ensures takes { (at : Standing) → StandsIn counts.old round.old at
        → Takes at (says_step at says) counts.new round.new result }
    ensures some { result ≡ Ok over → ⊥ }
    ensures own { IfErr result IsOwn }
    ensures later { OnOk result (counts.new.lines ≡ counts.old.lines + 1) }
{
    match says {
        Says::Run => end_round(counts),
        Says::Does { lane, task } => take_command(counts, round, lane, task),
        Says::Nothing(kind) => Err(refusal(counts, kind)),
    }
}

// Takes the line that ends a round.
fn end_round(counts: &mut Counts) -> Result<Progress, PlanError>
    ensures ends { (at : Standing) → counts.old.lines ≡ at.lines → HasCounted counts.old at.session
        → EndsRound at counts.new result }
    ensures some { result ≡ Ok over → ⊥ }
    ensures own { IfErr result IsOwn }
    ensures later { OnOk result (counts.new.lines ≡ counts.old.lines + 1) }
{
    if counts.lines >= MOST_LINES {
        return Err(refusal(counts, LineKind::TooMany));
    }
    counts.lines += 1;
    Ok(Progress::Ends)
}

// Takes the command of a lane.
fn take_command(
    counts: &mut Counts,
    round: &mut Gathering,
    lane: u32,
    task: Task,
) -> Result<Progress, PlanError>
    requires lane { lane < 64 }
    requires task { IsTask task }
    ensures takes { (at : Standing) → StandsIn counts.old round.old at
        → Takes at (says_step at (does lane task)) counts.new round.new result }
    ensures some { result ≡ Ok over → ⊥ }
    ensures own { IfErr result IsOwn }
    ensures later { OnOk result (counts.new.lines ≡ counts.old.lines + 1) }
{
    if is_round_big(round, &task) {
        return Err(refusal(counts, LineKind::RoundBig));
    }
    if counts.lines >= MOST_LINES || is_session_big(counts, &task) {
        return Err(refusal(counts, LineKind::TooMany));
    }
    let bytes = count_payload(&task);
    round.add(next_command(counts, lane, task), bytes)?;
    counts.add(lane, bytes);
    Ok(Progress::Goes)
}

// Whether a round would be too big with a task.
fn is_round_big(round: &Gathering, task: &Task) -> bool
    requires { IsTask task.now }
    ensures is { result ≡ is_round_big_with round.now.commands task.now }
    ensures fits { result ≡ false → FitsRound round.now task.now }
{
    round.commands.len() >= MOST_COMMANDS as usize
        || round.payload + count_payload(task) > MOST_ROUND_PAYLOAD
}

// Whether a session would be too big with a task.
fn is_session_big(counts: &Counts, task: &Task) -> bool
    requires { IsTask task.now }
    ensures is { (session : List command_of_stream) → HasCounted counts.now session
        → result ≡ is_session_big_with session task.now }
    ensures fits { result ≡ false → FitsSession counts.now task.now }
{
    counts.commands >= MOST_SESSION_COMMANDS
        || counts.payload + count_payload(task) > MOST_SESSION_PAYLOAD
}

// The command of a lane in the next line.
fn next_command(counts: &Counts, lane: u32, task: Task) -> Command
    requires lane { lane < 64 }
    requires line { counts.now.lines < 131072 }
    ensures is { (at : Standing) → counts.now.lines ≡ at.lines
        → HasCounted counts.now at.session → result ≡ command_in_line at lane task }
    ensures task { result.task ≡ task }
{
    Command {
        line: counts.lines + 1,
        id: CmdId {
            lane,
            number: counts.lanes[lane as usize],
        },
        task,
    }
}

/// The refusal of the next line.
pub fn refusal(counts: &Counts, kind: LineKind) -> PlanError
    ensures { result ≡ refused_line (counts.now.lines + 1) kind }
{
    PlanError::Line(LineError {
        line: counts.lines + 1,
        kind,
    })
}

// How many bytes a task writes, or asks for by a read.
fn count_payload(task: &Task) -> u32
    requires { IsTask task.now }
    ensures is { result ≡ payload_of_task task.now }
    ensures most { result ≤ 65536 }
{
    match task {
        Task::Write { bytes, .. } => bytes.len() as u32,
        Task::Read { count, .. } => *count * 512,
        Task::Ask(_) => 0,
    }
}

impl Gathering {
    /// No command of the round was read yet.
    pub fn new(alloc: Global) -> Gathering
        ensures { result.commands ≡ [] }
    {
        Gathering {
            commands: CommandList::new(alloc),
            payload: 0,
        }
    }

    // Adds a command, which has so many bytes.
    fn add(&mut self, command: Command, bytes: u32) -> Result<(), Memory>
        requires bytes { bytes ≡ payload_of_task command.task }
        requires few { length self.old.commands < MOST_COMMANDS }
        requires little { self.old.payload + bytes ≤ 67108864 }
        ensures { OnOk result (self.new.commands ≡ self.old.commands ++ command ∷ []) }
    {
        self.commands.push(command)?;
        self.payload += bytes;
        Ok(())
    }

    /// What the end of the input makes of the round: it is the last one, unless it has no command.
    pub fn end(self) -> Option<Round>
        ensures some { IfSome result (λ round. round.commands ≡ self.commands) }
        ensures full { IfSome result (λ round. round.commands ≢ []) }
        ensures none { IfNone result (self.commands ≡ []) }
    {
        if self.commands.is_empty() {
            return None;
        }
        Some(self.finish())
    }

    /// The round of all commands.
    pub fn finish(self) -> Round
        ensures { result.commands ≡ self.commands }
    {
        Round {
            commands: self.commands,
        }
    }
}

impl Counts {
    // Counts a line with a command of a lane, which has so many bytes.
    fn add(&mut self, lane: u32, bytes: u32)
        requires lane { lane < 64 }
        requires few { (self.old.lines < 131072) × (self.old.commands < 65536) }
        requires little { self.old.payload + bytes ≤ 268435456 }
        ensures lines { self.new.lines ≡ self.old.lines + 1 }
        ensures counted { (session : List command_of_stream) (command : command_of_stream)
            → HasCounted self.old session → command.id.lane ≡ lane
            → payload_of_task command.task ≡ bytes
            → HasCounted self.new (session ++ command ∷ []) }
    {
        self.lines += 1;
        self.commands += 1;
        self.payload += bytes;
        self.lanes[lane as usize] += 1;
    }
}
