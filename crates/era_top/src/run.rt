//! Runs the commands of a round, one after another, up to the first write that the origin fails.

ghost use Rattle.std.specs.Prelude.{◌≡◌, length, vec_capacity, All};
ghost use Rattle.era_base.specs.Geometry.{blocks_of};
ghost use Rattle.era_model.specs.Marks.{blocks_of_marks};
ghost use Rattle.era_model.specs.Tasks.{IsPayload};
ghost use Rattle.era_top.specs.Runs.{IsServedTask, tasks_of};
ghost use Rattle.era_top.specs.Steps.{AnswersRequest, IsRoomFor, MovesEra, RunBehind, StopsWhereCut, TaskWent, TellsBlocks, WriteWent};

use crate::events::is_cut;
use crate::outcome::Outcome;
use era_base::{Bytes, Disk, Geometry, LAST_ERA, write_synced};
use era_marks::SessionMarks;
use era_plan::{Command, Request, Task};
use std::alloc::Global;

/// Runs one write: it marks its block in memory, and writes and syncs its bytes. Out of range it does nothing.
fn run_write<D: Disk>(
    geometry: &Geometry,
    sector: u64,
    bytes: &Bytes,
    marks: &mut SessionMarks,
    disk: &mut D,
) -> Outcome
    requires payload { IsPayload (length bytes.now) }
    requires marks { blocks_of_marks marks.old
        ≡ blocks_of geometry.now.sectors geometry.now.block_sectors }
    requires disk { D.sectors disk.old ≡ geometry.now.sectors }
    ensures went { WriteWent geometry.now (record { sector = sector; bytes = bytes.now }) D.tells
        marks.old marks.new
        (D.faults disk.old) (D.faults disk.new) (D.history disk.old).now
        (D.history disk.new).now result }
    ensures size { D.sectors disk.new ≡ D.sectors disk.old }
    ensures place { D.place disk.new ≡ D.place disk.old }
    ensures marks { blocks_of_marks marks.new ≡ blocks_of_marks marks.old }
{
    let bytes = bytes.as_slice();
    let Some((block, _)) = geometry.place_of(sector, (bytes.len() / 512) as u64) else {
        return Outcome::OutOfRange;
    };
    let first = !marks.is_marked(block);
    marks.mark(block);
    match write_synced(disk, sector, bytes) {
        Ok(()) => Outcome::Done { marks: first },
        Err(faults) => Outcome::Cut {
            marks: first,
            faults,
        },
    }
}

/// Moves to the next era, below the last one.
fn run_checkpoint(marks: &mut SessionMarks) -> Outcome
    ensures moved { MovesEra marks.old marks.new result }
    ensures marks { blocks_of_marks marks.new ≡ blocks_of_marks marks.old }
{
    if marks.era() == LAST_ERA {
        return Outcome::LastEra;
    }
    marks.roll();
    Outcome::Moved { era: marks.era() }
}

/// Lists the blocks that were written since an era.
fn run_list(alloc: Global, marks: &SessionMarks, since: u32) -> Outcome
    ensures { TellsBlocks marks.now since result }
{
    match marks.since(alloc, since) {
        Ok(blocks) => Outcome::Listed { blocks },
        Err(_) => Outcome::NoMemory,
    }
}

/// Does what a command asks of the marks.
fn run_request(alloc: Global, request: Request, marks: &mut SessionMarks) -> Outcome
    requires { IsServedTask (Task.Ask request) }
    ensures answered { AnswersRequest marks.old marks.new request result }
    ensures marks { blocks_of_marks marks.new ≡ blocks_of_marks marks.old }
{
    match request {
        Request::Checkpoint => run_checkpoint(marks),
        Request::List { since, snap: false } => run_list(alloc, marks, since),
        _ => unreachable!(),
    }
}

/// Does what a command is to do.
fn run_task<D: Disk>(
    alloc: Global,
    geometry: &Geometry,
    task: &Task,
    marks: &mut SessionMarks,
    disk: &mut D,
) -> Outcome
    requires served { IsServedTask task.now }
    requires marks { blocks_of_marks marks.old
        ≡ blocks_of geometry.now.sectors geometry.now.block_sectors }
    requires disk { D.sectors disk.old ≡ geometry.now.sectors }
    ensures went { TaskWent geometry.now task.now D.tells marks.old marks.new
        (D.faults disk.old) (D.faults disk.new) (D.history disk.old).now
        (D.history disk.new).now result }
    ensures size { D.sectors disk.new ≡ D.sectors disk.old }
    ensures place { D.place disk.new ≡ D.place disk.old }
    ensures marks { blocks_of_marks marks.new ≡ blocks_of_marks marks.old }
{
    match task {
        Task::Write { sector, bytes } => run_write(geometry, *sector, bytes, marks, disk),
        Task::Read { .. } => unreachable!(),
        Task::Ask(request) => run_request(alloc, *request, marks),
    }
}

/// Runs commands in their order, behind those that were run before, up to the first write that is cut. `outcomes` gets
/// how each of them went. It takes memory for the runs of lists alone.
pub fn run<D: Disk>(
    alloc: Global,
    geometry: &Geometry,
    commands: &[Command],
    marks: &mut SessionMarks,
    outcomes: &mut Vec<Outcome>,
    disk: &mut D,
)
    requires served { All (λ command. IsServedTask command.task) commands.now }
    requires fit { (blocks_of_marks marks.old
        ≡ blocks_of geometry.now.sectors geometry.now.block_sectors)
        × (D.sectors disk.old ≡ geometry.now.sectors) }
    requires room { IsRoomFor (length commands.now) outcomes.old.items
        (vec_capacity outcomes.old) }
    ensures run { RunBehind geometry.now (tasks_of commands.now) outcomes.new.items D.tells
        marks.old marks.new (D.faults disk.old) (D.faults disk.new)
        (D.history disk.old).now (D.history disk.new).now }
    ensures stopped { StopsWhereCut (length commands.now) outcomes.new.items
        (D.faults disk.old) (D.faults disk.new) }
    ensures marks { blocks_of_marks marks.new ≡ blocks_of_marks marks.old }
    ensures size { D.sectors disk.new ≡ D.sectors disk.old }
    ensures place { D.place disk.new ≡ D.place disk.old }
{
    for command in commands {
        let outcome = run_task(alloc, geometry, &command.task, marks, disk);
        let cut = is_cut(&outcome);
        outcomes.push_reserved(outcome);
        if cut {
            return;
        }
    }
}
