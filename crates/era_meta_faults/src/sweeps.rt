//! Sweeps: a script is stopped at each write and each sync, with each tear, and a look tells what is left.

use crate::images::{BLANK, Seen, look};
use crate::runs::{Job, Script, make_run, serve_before};
use era_base::{Disk, Memory, Name};
use era_disks::{DiskCall, Fuse, MadeCall, MemDisk, Tear};
use std::alloc::Global;

/// What a crash leaves of pending sectors. The byte 1 opens a gate.
const TEARS: [Tear; 4] = [Tear::Keep, Tear::Old, Tear::Fill(1), Tear::Fill(9)];

/// What stops a run: a fuse at the write of this number, of those from a sector; or the write or the sync of this number
/// fails, counted from the disk's first one.
#[derive(Clone, Copy, Debug, PartialEq, Eq)]
pub enum Stop {
    Fuse { sector: u64, number: u32 },
    Write(u64),
    Sync(u64),
    Nothing,
}

/// What was found otherwise than it is to be: the stop, the tear, how many steps were made, and what a look finds.
#[derive(Clone, Copy, Debug, PartialEq, Eq)]
pub struct Miss {
    pub stop: Stop,
    pub tear: Tear,
    pub left: Left,
}

/// How many steps were made before the stop, and what a look finds behind the crash.
#[derive(Clone, Copy, Debug, PartialEq, Eq)]
pub struct Left {
    pub steps: usize,
    pub seen: Seen,
}

/// How many stops were tried, the first one that was found otherwise, and what a look finds where nothing is stopped.
#[derive(Clone, Copy, Debug, PartialEq, Eq)]
pub struct Swept {
    pub stops: usize,
    pub miss: Option<Miss>,
    pub last: Seen,
}

/// A script with the metadata blocks of its disk before the run.
#[derive(Drop)]
struct Stage {
    script: Script,
    image: Vec<[u8; 4_096]>,
}

/// A metadata block, where the disk has it.
pub fn page_of<D: Disk>(disk: &mut D, block: u32) -> [u8; 4_096] {
    let mut page = [0; 4_096];
    let first = u64::from(block) * 8;
    if first + 8 <= disk.sectors() {
        let _answer = disk.read(first, &mut page);
    }
    page
}

/// Writes a metadata block, where the disk has it.
fn put_page<D: Disk>(disk: &mut D, block: u32, page: &[u8; 4_096]) {
    let first = u64::from(block) * 8;
    if first + 8 <= disk.sectors() {
        let _answer = disk.write(first, page);
    }
}

/// So many metadata blocks of a disk.
fn pages_of<D: Disk>(alloc: Global, disk: &mut D, blocks: u32) -> Result<Vec<[u8; 4_096]>, Memory> {
    let mut pages = Vec::new(alloc);
    for block in 0..blocks {
        let page = page_of(disk, block);
        pages.push(page)?;
    }
    Ok(pages)
}

/// Writes metadata blocks from a block on.
fn put_pages<D: Disk>(disk: &mut D, block: u32, pages: &[[u8; 4_096]]) {
    if let Some((page, later)) = pages.split_first() {
        put_page(disk, block, page);
        put_pages(disk, block.saturating_add(1), later);
    }
}

/// A blank disk of the script's size.
fn blank(alloc: Global, script: &Script) -> Result<MemDisk, Memory> {
    MemDisk::new(alloc, "meta", script.sectors)
}

/// A script with the metadata blocks of its disk.
fn stage_of(alloc: Global, script: &Script) -> Result<Stage, Memory> {
    let disk = blank(alloc, script)?;
    let mut before = serve_before(alloc, disk, script, script.times);
    let image = pages_of(alloc, &mut before, 60)?;
    let script = *script;
    Ok(Stage { script, image })
}

/// The disk of a script before its run.
fn prepared(alloc: Global, stage: &Stage) -> Result<MemDisk, Memory> {
    let mut disk = blank(alloc, &stage.script)?;
    put_pages(&mut disk, 0, stage.image.as_slice());
    disk.crash(Tear::Keep)?;
    Ok(disk)
}

/// Makes the disk stop.
fn arm(alloc: Global, disk: &mut MemDisk, stop: Stop) -> Result<(), Memory> {
    match stop {
        Stop::Fuse { sector, number } => {
            let device = Name::from_text(alloc, "meta")?;
            disk.set_fuse(Fuse {
                device,
                sector,
                number,
            })
        }
        Stop::Write(number) => disk.fail(DiskCall::Write, number),
        Stop::Sync(number) => disk.fail(DiskCall::Sync, number),
        Stop::Nothing => Ok(()),
    }
}

/// What so many steps leave where the disk stops.
fn left_by(
    alloc: Global,
    stage: &Stage,
    steps: usize,
    stop: Stop,
    tear: Tear,
    is_mended: bool,
) -> Result<Left, Memory> {
    let mut disk = prepared(alloc, stage)?;
    arm(alloc, &mut disk, stop)?;
    let beside = blank(alloc, &stage.script)?;
    let mut ran = make_run(alloc, disk, beside, &stage.script, steps, is_mended)?;
    ran.disk.crash(tear)?;
    Ok(Left {
        steps: ran.steps,
        seen: look(alloc, ran.disk),
    })
}

/// What a look finds behind so many steps of which none is stopped.
fn state(alloc: Global, stage: &Stage, steps: usize) -> Result<Seen, Memory> {
    let left = left_by(alloc, stage, steps, Stop::Nothing, Tear::Old, false)?;
    Ok(left.seen)
}

/// What a look finds before a run, and behind each of its steps.
fn states_of(alloc: Global, stage: &Stage) -> Result<[Seen; 6], Memory> {
    let before = state(alloc, stage, 0)?;
    let opened = state(alloc, stage, 1)?;
    let first = state(alloc, stage, 2)?;
    let second = state(alloc, stage, 3)?;
    let third = state(alloc, stage, 4)?;
    let fourth = state(alloc, stage, 5)?;
    Ok([before, opened, first, second, third, fourth])
}

/// How many of these calls are writes from a sector.
fn writes_from(made: &[MadeCall], sector: u64) -> u32 {
    let mut count = 0_u32;
    for call in made {
        if let MadeCall::Write { first, .. } = call {
            if *first == sector {
                count = count.saturating_add(1);
            }
        }
    }
    count
}

/// The stops of a run that made these calls, behind so many writes and syncs.
fn stops_in(
    alloc: Global,
    made: &[MadeCall],
    writes: u64,
    syncs: u64,
) -> Result<Vec<Stop>, Memory> {
    let mut stops = Vec::new(alloc);
    let mut writes = writes;
    let mut syncs = syncs;
    for (index, call) in made.iter().enumerate() {
        match call {
            MadeCall::Read { .. } => {}
            MadeCall::Write { first, .. } => {
                let number = writes_from(&made[..index], *first);
                let sector = *first;
                stops.push(Stop::Fuse { sector, number })?;
                stops.push(Stop::Write(writes))?;
                writes = writes.saturating_add(1);
            }
            MadeCall::Sync { .. } => {
                stops.push(Stop::Sync(syncs))?;
                syncs = syncs.saturating_add(1);
            }
        }
    }
    Ok(stops)
}

/// Each stop of a script.
fn stops_of(alloc: Global, stage: &Stage) -> Result<Vec<Stop>, Memory> {
    let disk = prepared(alloc, stage)?;
    let writes = disk.calls.writes.begun();
    let syncs = disk.calls.syncs.begun();
    let beside = blank(alloc, &stage.script)?;
    let ran = make_run(alloc, disk, beside, &stage.script, 5, false)?;
    stops_in(alloc, ran.disk.made(), writes, syncs)
}

/// Whether a look finds the state before the step that was stopped or behind it. A disk on which marks are restored may be
/// blank too.
fn is_one_of(states: &[Seen; 6], stage: &Stage, left: &Left) -> bool {
    let steps = left.steps.min(4);
    left.seen == states[steps]
        || left.seen == states[steps + 1]
        || (matches!(stage.script.job, Job::Restore) && left.seen == BLANK)
}

/// Whether a stop with a tear leaves one of the states.
fn tear_miss(
    alloc: Global,
    stage: &Stage,
    states: &[Seen; 6],
    stop: Stop,
    tear: Tear,
) -> Result<Option<Miss>, Memory> {
    let left = left_by(alloc, stage, 5, stop, tear, false)?;
    if is_one_of(states, stage, &left) {
        return Ok(None);
    }
    Ok(Some(Miss { stop, tear, left }))
}

/// Whether a call of the disk that fails once is mended: all steps behind the opening are made, and the last state is left.
fn mended_miss(
    alloc: Global,
    stage: &Stage,
    states: &[Seen; 6],
    stop: Stop,
) -> Result<Option<Miss>, Memory> {
    let left = left_by(alloc, stage, 5, stop, Tear::Old, true)?;
    if left.steps == 0 || left.seen == states[5] {
        return Ok(None);
    }
    let tear = Tear::Old;
    Ok(Some(Miss { stop, tear, left }))
}

/// The first miss of a stop.
fn stop_miss(
    alloc: Global,
    stage: &Stage,
    states: &[Seen; 6],
    stop: Stop,
) -> Result<Option<Miss>, Memory> {
    for tear in &TEARS {
        let miss = tear_miss(alloc, stage, states, stop, *tear)?;
        if miss.is_some() {
            return Ok(miss);
        }
    }
    match stop {
        Stop::Write(_) | Stop::Sync(_) => mended_miss(alloc, stage, states, stop),
        _ => Ok(None),
    }
}

/// The first miss of the stops.
fn first_miss(
    alloc: Global,
    stage: &Stage,
    states: &[Seen; 6],
    stops: &[Stop],
) -> Result<Option<Miss>, Memory> {
    for stop in stops {
        let miss = stop_miss(alloc, stage, states, *stop)?;
        if miss.is_some() {
            return Ok(miss);
        }
    }
    Ok(None)
}

/// Stops a script at each write and each sync.
pub fn sweep(alloc: Global, script: &Script) -> Result<Swept, Memory> {
    let stage = stage_of(alloc, script)?;
    let states = states_of(alloc, &stage)?;
    let stops = stops_of(alloc, &stage)?;
    let miss = first_miss(alloc, &stage, &states, stops.as_slice())?;
    Ok(Swept {
        stops: stops.len(),
        miss,
        last: states[5],
    })
}
