//! Scripts of six tasks with failing calls of the metadata disk, and what a look finds after a crash behind them.

ghost use Rattle.std.specs.Prelude.{OnOk};
ghost use Rattle.era_keeper_scripts.specs.Benches.{IsBench, IsOutside};

use crate::benches::{Bench, start};
use crate::commands::{Flags, Said, Task, flags_of, run};
use era_base::{Disk, Memory};
use era_disks::{DiskCall, MemDisk, Tear};
use era_gate::{Gate, Pass, StripeSeat};
use era_keeper::Keeper;
use era_meta::Meta;
use std::alloc::Global;
use std::test::Fail;

/// Which calls of the disk fail: those of a kind from one number up to another, counted from the disk's first one on.
pub type Stop = (DiskCall, u64, u64);

/// What a look finds: the present era, whether a snapshot is held, and which of the first four blocks have ever been marked.
#[derive(Clone, Copy, Debug, PartialEq, Eq)]
pub struct Left {
    pub era: u32,
    pub is_held: bool,
    pub marked: Flags,
}

/// Which calls fail, what is asked and answered, what the crash leaves of pending sectors, and what a look finds then.
#[derive(Clone, Copy, Debug)]
pub struct Row {
    pub stop: Stop,
    pub tasks: [Task; 6],
    pub said: [Said; 6],
    pub tear: Tear,
    pub left: Left,
}

/// A blank disk of 57 metadata blocks of which these calls fail.
fn stopping(alloc: Global, stop: Stop) -> Result<MemDisk, Memory> {
    let mut disk = MemDisk::new(alloc, "meta", 456)?;
    for number in stop.1..stop.2 {
        disk.fail(stop.0, number)?;
    }
    Ok(disk)
}

/// How six tasks are answered.
fn answers_of<D: Disk>(
    alloc: Global,
    gate: &Gate,
    stripe: &mut StripeSeat,
    keeper: &mut Keeper<D>,
    pass: &mut Pass,
    tasks: [Task; 6],
) -> Result<[Said; 6], Memory>
    requires bench { IsBench D.Disk 0 gate.now keeper.old pass.old }
    requires outside { IsOutside gate.now stripe.old }
{
    let first = run(alloc, gate, stripe, keeper, pass, 0, tasks[0])?;
    let second = run(alloc, gate, stripe, keeper, pass, 1, tasks[1])?;
    let third = run(alloc, gate, stripe, keeper, pass, 2, tasks[2])?;
    let fourth = run(alloc, gate, stripe, keeper, pass, 3, tasks[3])?;
    let fifth = run(alloc, gate, stripe, keeper, pass, 4, tasks[4])?;
    let sixth = run(alloc, gate, stripe, keeper, pass, 5, tasks[5])?;
    Ok([first, second, third, fourth, fifth, sixth])
}

/// What a look finds on a disk, if it is not refused.
fn left_on(alloc: Global, disk: MemDisk) -> Result<Option<Left>, Memory> {
    let Ok(meta) = Meta::look(alloc, disk) else {
        return Ok(None);
    };
    let runs = meta.since(alloc, 1)?;
    Ok(Some(Left {
        era: meta.era(),
        is_held: meta.held(),
        marked: flags_of(&runs),
    }))
}

/// How six tasks were answered, and the disk behind them.
#[derive(Drop)]
struct Answered<D> {
    said: [Said; 6],
    disk: D,
}

/// How six tasks were answered, and what a look found then; none where an opening was refused.
pub type Went = Option<([Said; 6], Option<Left>)>;

/// How tasks are answered over a disk, and the disk behind them; none where its opening is refused.
fn answer_all<D: Disk + Drop>(
    alloc: Global,
    disk: D,
    tasks: [Task; 6],
) -> Result<Option<Answered<D>>, Memory> {
    let Some(bench) = start(alloc, disk)? else {
        return Ok(None);
    };
    let Bench {
        gate,
        mut stripe,
        mut keeper,
        mut pass,
    } = bench;
    let said = answers_of(alloc, &gate, &mut stripe, &mut keeper, &mut pass, tasks)?;
    let disk = keeper.meta.into_disk();
    Ok(Some(Answered { said, disk }))
}

/// How the tasks of a row are answered, and what a look finds after the crash behind them.
fn went(alloc: Global, row: Row) -> Result<Went, Memory> {
    let disk = stopping(alloc, row.stop)?;
    let Some(end) = answer_all(alloc, disk, row.tasks)? else {
        return Ok(None);
    };
    let said = end.said;
    let mut disk = end.disk;
    disk.crash(row.tear)?;
    Ok(Some((said, left_on(alloc, disk)?)))
}

/// The first of the rows that goes otherwise than it says, with how it went, or `None`.
pub fn first_unmet(alloc: Global, rows: &[Row]) -> Result<Option<(Stop, Went)>, Fail> {
    for row in rows {
        let how = went(alloc, *row)?;
        if how != Some((row.said, Some(row.left))) {
            return Ok(Some((row.stop, how)));
        }
    }
    Ok(None)
}
