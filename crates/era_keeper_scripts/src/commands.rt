//! The commands of a keeper, each with a room of its own.

ghost use Rattle.std.specs.Prelude.{◌+◌, ◌*◌, ◌<◌, IfOk, OnOk};
ghost use Rattle.era_keeper.specs.Calls.{MayCall};
ghost use Rattle.era_keeper_scripts.specs.Benches.{IsBench, IsOutside};

use era_base::{CmdId, Disk, Memory, Runs};
use era_gate::{Gate, Pass, StripeSeat};
use era_keeper::Keeper;
use era_model::Answer;
use era_notes::Room;
use std::alloc::Global;

/// What a script asks of a keeper: the mark of a block, a checkpoint with a stripe inside, and a list of the blocks since an
/// era by the marks or by the snapshot.
#[derive(Clone, Copy, Debug, PartialEq, Eq)]
pub enum Task {
    Nothing,
    Mark(u32),
    Checkpoint,
    Keep,
    Snap,
    Unsnap,
    Digest,
    Blocks(u32, bool),
    Status,
}

/// Whether each of the first four blocks is listed.
pub type Flags = [bool; 4];

/// How a keeper answered. The number of a fault is the disk's count.
#[derive(Clone, Copy, Debug, PartialEq, Eq)]
pub enum Said {
    Done,
    Fault(u64),
    EraIs(u32),
    Kept(u32),
    NoSnap,
    Held,
    Digested(u32, Option<u32>),
    Idle,
    Listed(Flags),
    /// The used metadata blocks, and the present era.
    Used(u32, u32),
    Another,
}

/// Whether runs have a block.
fn covers(runs: &Runs, block: u32) -> bool {
    runs.as_slice()
        .iter()
        .any(|run| run.0 <= block && block <= run.1)
}

/// Which of the first four blocks the runs have.
pub fn flags_of(runs: &Runs) -> Flags {
    [
        covers(runs, 0),
        covers(runs, 1),
        covers(runs, 2),
        covers(runs, 3),
    ]
}

/// An answer in short.
fn said_of(answer: &Answer) -> Said {
    match answer {
        Answer::Fine | Answer::Snap(2) => Said::Done,
        Answer::Fault(_, count) => Said::Fault(*count),
        Answer::EraIs(era) => Said::EraIs(*era),
        Answer::Kept(inside) => Said::Kept(*inside),
        Answer::NoSnap => Said::NoSnap,
        Answer::Held(2) => Said::Held,
        Answer::Digest(era, page) => Said::Digested(*era, *page),
        Answer::Idle => Said::Idle,
        Answer::Blocks(runs) => Said::Listed(flags_of(runs)),
        Answer::Status(used, 57, era, _) => Said::Used(*used, *era),
        _ => Said::Another,
    }
}

/// Admits the room of a command without payload.
fn ready<D: Disk>(
    alloc: Global,
    gate: &Gate,
    keeper: &mut Keeper<D>,
    pass: &Pass,
    number: u32,
) -> Result<CmdId, Memory>
    requires bench { IsBench D.Disk (2 * number) gate.now keeper.old pass.now }
    requires few { number < 100 }
    ensures bench { OnOk result (IsBench D.Disk (2 * number) gate.now keeper.new pass.now) }
    ensures may { IfOk result (λ id. MayCall D.Disk gate.now keeper.new pass.now id 2) }
{
    let _gate = gate;
    let _pass = pass;
    let room = Room::make(alloc, 0)?;
    keeper.admit(room);
    Ok(CmdId { lane: 0, number })
}

/// Marks a block.
fn mark<D: Disk>(
    alloc: Global,
    gate: &Gate,
    keeper: &mut Keeper<D>,
    pass: &mut Pass,
    number: u32,
    block: u32,
) -> Result<Said, Memory>
    requires bench { IsBench D.Disk (2 * number) gate.now keeper.old pass.old }
    requires few { number < 100 }
    requires block { block < 64 }
    ensures bench { OnOk result (IsBench D.Disk (2 * number + 2) gate.now keeper.new pass.new) }
{
    let id = ready(alloc, gate, keeper, pass, number)?;
    match keeper.mark_for(gate, pass, id, block) {
        Ok(()) => Ok(Said::Done),
        Err(count) => Ok(Said::Fault(count)),
    }
}

/// Moves to the next era.
fn checkpoint<D: Disk>(
    alloc: Global,
    gate: &Gate,
    keeper: &mut Keeper<D>,
    pass: &mut Pass,
    number: u32,
) -> Result<Said, Memory>
    requires bench { IsBench D.Disk (2 * number) gate.now keeper.old pass.old }
    requires few { number < 100 }
    ensures bench { OnOk result (IsBench D.Disk (2 * number + 2) gate.now keeper.new pass.new) }
{
    let id = ready(alloc, gate, keeper, pass, number)?;
    Ok(said_of(&keeper.checkpoint(gate, pass, id)))
}

/// Asks for the next era while the stripe is inside.
fn keep<D: Disk>(
    alloc: Global,
    gate: &Gate,
    stripe: &mut StripeSeat,
    keeper: &mut Keeper<D>,
    pass: &mut Pass,
    number: u32,
) -> Result<Said, Memory>
    requires bench { IsBench D.Disk (2 * number) gate.now keeper.old pass.old }
    requires few { number < 100 }
    requires outside { IsOutside gate.now stripe.old }
    ensures bench { OnOk result (IsBench D.Disk (2 * number + 2) gate.now keeper.new pass.new) }
    ensures outside { OnOk result (IsOutside gate.now stripe.new) }
{
    gate.enter(stripe, pass, CmdId { lane: 0, number });
    let said = checkpoint(alloc, gate, keeper, pass, number)?;
    gate.leave(stripe, pass);
    Ok(said)
}

/// Takes a snapshot.
fn snap<D: Disk>(
    alloc: Global,
    gate: &Gate,
    keeper: &mut Keeper<D>,
    pass: &mut Pass,
    number: u32,
) -> Result<Said, Memory>
    requires bench { IsBench D.Disk (2 * number) gate.now keeper.old pass.old }
    requires few { number < 100 }
    ensures bench { OnOk result (IsBench D.Disk (2 * number + 2) gate.now keeper.new pass.new) }
{
    let id = ready(alloc, gate, keeper, pass, number)?;
    Ok(said_of(&keeper.snap(gate, pass, id)))
}

/// Drops the snapshot.
fn unsnap<D: Disk>(
    alloc: Global,
    gate: &Gate,
    keeper: &mut Keeper<D>,
    pass: &mut Pass,
    number: u32,
) -> Result<Said, Memory>
    requires bench { IsBench D.Disk (2 * number) gate.now keeper.old pass.old }
    requires few { number < 100 }
    ensures bench { OnOk result (IsBench D.Disk (2 * number + 2) gate.now keeper.new pass.new) }
{
    let id = ready(alloc, gate, keeper, pass, number)?;
    Ok(said_of(&keeper.unsnap(gate, pass, id)))
}

/// Makes a digest step.
fn digest<D: Disk>(
    alloc: Global,
    gate: &Gate,
    keeper: &mut Keeper<D>,
    pass: &mut Pass,
    number: u32,
) -> Result<Said, Memory>
    requires bench { IsBench D.Disk (2 * number) gate.now keeper.old pass.old }
    requires few { number < 100 }
    ensures bench { OnOk result (IsBench D.Disk (2 * number + 2) gate.now keeper.new pass.new) }
{
    let id = ready(alloc, gate, keeper, pass, number)?;
    Ok(said_of(&keeper.digest(gate, pass, id)))
}

/// Tells the status.
fn status<D: Disk>(
    alloc: Global,
    gate: &Gate,
    keeper: &mut Keeper<D>,
    pass: &mut Pass,
    number: u32,
) -> Result<Said, Memory>
    requires bench { IsBench D.Disk (2 * number) gate.now keeper.old pass.old }
    requires few { number < 100 }
    ensures bench { OnOk result (IsBench D.Disk (2 * number + 2) gate.now keeper.new pass.new) }
{
    let id = ready(alloc, gate, keeper, pass, number)?;
    Ok(said_of(&keeper.status(gate, pass, id)))
}

/// Lists the blocks since an era.
fn blocks<D: Disk>(
    alloc: Global,
    gate: &Gate,
    keeper: &mut Keeper<D>,
    pass: &mut Pass,
    number: u32,
    since: u32,
    snap: bool,
) -> Result<Said, Memory>
    requires bench { IsBench D.Disk (2 * number) gate.now keeper.old pass.old }
    requires few { number < 100 }
    ensures bench { OnOk result (IsBench D.Disk (2 * number + 2) gate.now keeper.new pass.new) }
{
    let id = ready(alloc, gate, keeper, pass, number)?;
    Ok(said_of(&keeper.list(alloc, gate, pass, id, since, snap)))
}

/// Asks for nothing.
fn idle<D: Disk>(gate: &Gate, keeper: &Keeper<D>, pass: &Pass, number: u32) -> Said
    requires bench { IsBench D.Disk (2 * number) gate.now keeper.now pass.now }
    ensures bench { IsBench D.Disk (2 * number + 2) gate.now keeper.now pass.now }
{
    let _gate = gate;
    let _keeper = keeper;
    let _pass = pass;
    let _number = number;
    Said::Done
}

/// Runs a task, which is the command of this number.
pub fn run<D: Disk>(
    alloc: Global,
    gate: &Gate,
    stripe: &mut StripeSeat,
    keeper: &mut Keeper<D>,
    pass: &mut Pass,
    number: u32,
    task: Task,
) -> Result<Said, Memory>
    requires bench { IsBench D.Disk (2 * number) gate.now keeper.old pass.old }
    requires few { number < 100 }
    requires outside { IsOutside gate.now stripe.old }
    ensures bench { OnOk result (IsBench D.Disk (2 * number + 2) gate.now keeper.new pass.new) }
    ensures outside { OnOk result (IsOutside gate.now stripe.new) }
{
    match task {
        Task::Mark(block) if block < 64 => mark(alloc, gate, keeper, pass, number, block),
        Task::Checkpoint => checkpoint(alloc, gate, keeper, pass, number),
        Task::Keep => keep(alloc, gate, stripe, keeper, pass, number),
        Task::Snap => snap(alloc, gate, keeper, pass, number),
        Task::Unsnap => unsnap(alloc, gate, keeper, pass, number),
        Task::Digest => digest(alloc, gate, keeper, pass, number),
        Task::Status => status(alloc, gate, keeper, pass, number),
        Task::Blocks(since, snap) => blocks(alloc, gate, keeper, pass, number, since, snap),
        _ => Ok(idle(gate, keeper, pass, number)),
    }
}
