//! Scripts with a fuse at each write, with each call failing alone, and with all calls failing from a sync on: what each
//! crash leaves, against the journal.

ghost use Rattle.std.specs.Prelude.{◌+◌, ◌*◌, ◌≤◌, length};
ghost use Rattle.era_keeper_scripts.specs.Benches.{IsBench, IsOutside};

use crate::benches::{Bench, start};
use crate::commands::{Task, run};
use crate::stories::{Found, Story, found_of};
use era_base::{Disk, Memory, Name};
use era_disks::{DiskCall, Fuse, MadeCall, MemDisk, Tear};
use era_gate::{Gate, Pass, StripeSeat};
use era_keeper::Keeper;
use era_meta::Meta;
use std::alloc::Global;
use std::test::Fail;

/// What fails: nothing; a write from a sector with all calls behind it; a call of a kind alone; or all writes and syncs from
/// these on. Numbers are from 0.
#[derive(Clone, Copy, Debug, PartialEq, Eq)]
enum Harm {
    Nothing,
    Fuse(u64, u32),
    Call(DiskCall, u64),
    Rest(u64, u64),
}

/// A blank disk of 57 metadata blocks with this harm.
fn harmed(alloc: Global, harm: Harm) -> Result<MemDisk, Memory> {
    let mut disk = MemDisk::new(alloc, "meta", 456)?;
    match harm {
        Harm::Nothing => {}
        Harm::Fuse(sector, number) => disk.set_fuse(Fuse {
            device: Name::from_text(alloc, "meta")?,
            sector,
            number,
        })?,
        Harm::Call(call, number) => disk.fail(call, number)?,
        Harm::Rest(writes, syncs) => {
            for number in 0..100 {
                disk.fail(DiskCall::Write, writes.saturating_add(number))?;
                disk.fail(DiskCall::Sync, syncs.saturating_add(number))?;
            }
        }
    }
    Ok(disk)
}

/// How many of the calls are writes from a sector.
fn writes_at(made: &[MadeCall], sector: u64) -> u32 {
    let mut count = 0_u32;
    for call in made {
        match call {
            MadeCall::Write { first, .. } if *first == sector => count = count.saturating_add(1),
            _ => {}
        }
    }
    count
}

/// The kind of a call.
fn kind_of(call: MadeCall) -> DiskCall {
    match call {
        MadeCall::Read { .. } => DiskCall::Read,
        MadeCall::Write { .. } => DiskCall::Write,
        MadeCall::Sync { .. } => DiskCall::Sync,
    }
}

/// How many of the calls are of a kind.
fn calls_of(made: &[MadeCall], kind: DiskCall) -> u64 {
    let mut count = 0_u64;
    for call in made {
        if kind_of(*call) == kind {
            count = count.saturating_add(1);
        }
    }
    count
}

/// Adds the harms to a call behind others: it alone fails, and a write or a sync with those behind it.
fn add_harms(harms: &mut Vec<Harm>, before: &[MadeCall], call: MadeCall) -> Result<(), Memory> {
    let kind = kind_of(call);
    let number = calls_of(before, kind);
    harms.push(Harm::Call(kind, number))?;
    match call {
        MadeCall::Read { .. } => {}
        MadeCall::Write { first, .. } => harms.push(Harm::Fuse(first, writes_at(before, first)))?,
        MadeCall::Sync { .. } => {
            harms.push(Harm::Rest(calls_of(before, DiskCall::Write), number))?;
        }
    }
    Ok(())
}

/// No harm, and each harm to calls from one on.
fn harms_of(alloc: Global, made: &[MadeCall], from: usize) -> Result<Vec<Harm>, Memory> {
    let mut harms = Vec::new(alloc);
    harms.push(Harm::Nothing)?;
    for index in from..made.len() {
        add_harms(&mut harms, &made[..index], made[index])?;
    }
    Ok(harms)
}

/// Runs tasks, of which the first is the command of this number.
fn play<D: Disk>(
    alloc: Global,
    gate: &Gate,
    stripe: &mut StripeSeat,
    keeper: &mut Keeper<D>,
    pass: &mut Pass,
    number: u32,
    tasks: &[Task],
) -> Result<(), Memory>
    requires bench { IsBench D.Disk (2 * number) gate.now keeper.old pass.old }
    requires outside { IsOutside gate.now stripe.old }
    requires few { number + length tasks.now ≤ 100 }
{
    if let Some((task, others)) = tasks.split_first() {
        run(alloc, gate, stripe, keeper, pass, number, *task)?;
        play(alloc, gate, stripe, keeper, pass, number + 1, others)?;
    }
    Ok(())
}

/// A disk behind a script, what the metadata in memory came to, and what the journal did.
#[derive(Drop)]
struct Ended<D> {
    disk: D,
    memory: Found,
    story: Story,
}

/// What a bench comes to behind tasks.
fn end_of<D: Disk + Drop>(
    alloc: Global,
    bench: Bench<D>,
    tasks: &[Task],
) -> Result<Ended<D>, Memory>
    requires bench { IsBench D.Disk 0 bench.gate bench.keeper bench.pass }
    requires outside { IsOutside bench.gate bench.stripe }
    requires few { length tasks.now ≤ 100 }
{
    let Bench {
        gate,
        mut stripe,
        mut keeper,
        mut pass,
    } = bench;
    play(alloc, &gate, &mut stripe, &mut keeper, &mut pass, 0, tasks)?;
    let story = Story::of(&keeper.entries);
    let memory = found_of(&keeper.meta);
    let disk = keeper.meta.into_disk();
    Ok(Ended {
        disk,
        memory,
        story,
    })
}

/// What a blank disk comes to behind at most 100 tasks; none where its opening is refused or there are more.
fn run_script<D: Disk + Drop>(
    alloc: Global,
    disk: D,
    tasks: &[Task],
) -> Result<Option<Ended<D>>, Memory> {
    let Some(bench) = start(alloc, disk)? else {
        return Ok(None);
    };
    if tasks.len() > 100 {
        return Ok(None);
    }
    Ok(Some(end_of(alloc, bench, tasks)?))
}

/// What a look finds on a disk; none where it is refused.
fn found_on<D: Disk + Drop>(alloc: Global, disk: D) -> Option<Found> {
    match Meta::look(alloc, disk) {
        Ok(meta) => Some(found_of(&meta)),
        Err(_) => None,
    }
}

/// Whether a script with this harm, which comes, has its journal's marks in memory, and leaves with this tear what the journal
/// allows.
fn holds_of(alloc: Global, tasks: &[Task], harm: Harm, tear: Tear) -> Result<bool, Fail> {
    let disk = harmed(alloc, harm)?;
    let Some(end) = run_script(alloc, disk, tasks)? else {
        return Ok(false);
    };
    let story = end.story;
    let follows = story.is_at(end.memory);
    let mut disk = end.disk;
    let came = disk.faults() > 0 || harm == Harm::Nothing;
    disk.crash(tear)?;
    disk.calls.clear();
    Ok(follows && came && found_on(alloc, disk).is_some_and(|found| story.may_leave(found)))
}

/// The calls that a script makes without harm.
fn calls_made(alloc: Global, tasks: &[Task]) -> Result<Vec<MadeCall>, Fail> {
    let disk = harmed(alloc, Harm::Nothing)?;
    match run_script(alloc, disk, tasks)? {
        Some(end) => Ok(Vec::from_slice(alloc, end.disk.made())?),
        None => Ok(Vec::new(alloc)),
    }
}

/// The first harm and tear with which a script leaves what its journal doesn't allow, or `None`. Harms come behind the
/// opening.
fn first_unmet(alloc: Global, tasks: &[Task]) -> Result<Option<(Harm, Tear)>, Fail> {
    let opening = calls_made(alloc, &[])?.len();
    let made = calls_made(alloc, tasks)?;
    let harms = harms_of(alloc, made.as_slice(), opening)?;
    for harm in harms.as_slice() {
        for tear in [Tear::Keep, Tear::Old, Tear::Fill(9)] {
            if !holds_of(alloc, tasks, *harm, tear)? {
                return Ok(Some((*harm, tear)));
            }
        }
    }
    Ok(None)
}

/// A checkpoint whose commit may fail, and what comes next.
const CHECKPOINTS: [Task; 7] = [
    Task::Mark(0),
    Task::Checkpoint,
    Task::Blocks(1, false),
    Task::Status,
    Task::Mark(1),
    Task::Checkpoint,
    Task::Checkpoint,
];

/// Two snapshots, each held while a block is marked.
const SNAPSHOTS: [Task; 9] = [
    Task::Mark(0),
    Task::Snap,
    Task::Mark(1),
    Task::Checkpoint,
    Task::Unsnap,
    Task::Mark(2),
    Task::Snap,
    Task::Mark(0),
    Task::Unsnap,
];

/// A digest between two marks, up to the last step.
const DIGESTS: [Task; 7] = [
    Task::Mark(0),
    Task::Checkpoint,
    Task::Mark(1),
    Task::Digest,
    Task::Mark(2),
    Task::Digest,
    Task::Digest,
];

/// Eras that are kept by a stripe inside.
const KEPT: [Task; 6] = [
    Task::Mark(0),
    Task::Keep,
    Task::Checkpoint,
    Task::Keep,
    Task::Mark(1),
    Task::Checkpoint,
];

#[test]
fn each_crash_leaves_what_the_journal_allows(rt: HostRuntime) -> Result<(), Fail> {
    let alloc = rt.alloc();
    assert_eq!(rt; first_unmet(alloc, &CHECKPOINTS)?, None);
    assert_eq!(rt; first_unmet(alloc, &SNAPSHOTS)?, None);
    assert_eq!(rt; first_unmet(alloc, &DIGESTS)?, None);
    assert_eq!(rt; first_unmet(alloc, &KEPT)?, None);
    Ok(())
}

/// Seventeen switches, each behind a mark of one of the first four blocks.
fn seventeen_switches(alloc: Global) -> Result<Vec<Task>, Memory> {
    let mut tasks = Vec::new(alloc);
    for era in 0..17_u32 {
        tasks.push(Task::Mark(era % 4))?;
        tasks.push(Task::Checkpoint)?;
    }
    Ok(tasks)
}

#[test]
fn each_crash_of_seventeen_switches_does(rt: HostRuntime) -> Result<(), Fail> {
    let tasks = seventeen_switches(rt.alloc())?;
    assert_eq!(rt; first_unmet(rt.alloc(), tasks.as_slice())?, None);
    Ok(())
}
