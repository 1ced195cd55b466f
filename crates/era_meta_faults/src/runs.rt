//! Runs over any disk: an opening and the calls behind it, or a restoring.

ghost use Rattle.std.specs.Prelude.{IfOk, IfSome};
ghost use Rattle.era_model.specs.Validity.{AreValidMarks};

use crate::calls::{Call, make_all};
use era_base::{Disk, Geometry, Memory};
use era_meta::Meta;
use era_model::Marks;
use std::alloc::Global;

/// What a run does with its disk: it serves it, or restores other marks on it.
#[derive(Clone, Copy)]
pub enum Job {
    Serve([Call; 4]),
    Restore,
}

/// A run over a disk of so many sectors, for an origin of so many in blocks of 8. Before it the disk was served so many
/// times: the first session made these calls, and each later one began an era.
#[derive(Clone, Copy)]
pub struct Script {
    pub sectors: u64,
    pub origin: u64,
    pub times: u32,
    pub first: [Call; 4],
    pub job: Job,
}

/// How many steps were made, of which the opening is the first one, and the disk.
#[derive(Drop)]
pub struct Run<D> {
    pub steps: usize,
    pub disk: D,
}

/// Opens a disk, and makes calls until one fails.
pub fn serve<D: Disk>(
    alloc: Global,
    disk: D,
    origin: u64,
    calls: &[Call],
    is_mended: bool,
) -> Run<D> {
    let Ok(asked) = Geometry::new(origin, 8) else {
        return Run { steps: 0, disk };
    };
    let mut meta = match Meta::start(alloc, disk, asked) {
        Ok(meta) => meta,
        Err(refusal) => {
            return Run {
                steps: 0,
                disk: refusal.disk,
            };
        }
    };
    let made = make_all(&mut meta, calls, is_mended);
    Run {
        steps: made.saturating_add(1),
        disk: meta.into_disk(),
    }
}

/// A disk after so many sessions, of which the first one made these calls.
pub fn serve_before<D: Disk>(alloc: Global, disk: D, script: &Script, times: u32) -> D {
    if times == 0 {
        return disk;
    }
    let before = serve_before(alloc, disk, script, times - 1);
    if times == 1 {
        serve(alloc, before, script.origin, script.first.as_slice(), false).disk
    } else {
        serve(alloc, before, script.origin, &[], false).disk
    }
}

/// The marks of a blank disk in era 1 with block 0.
fn other_marks<D: Disk + Drop>(alloc: Global, disk: D, origin: u64) -> Result<Option<Marks>, Memory>
    ensures { IfOk result (λ marks. IfSome marks AreValidMarks) }
{
    let Ok(asked) = Geometry::new(origin, 8) else {
        return Ok(None);
    };
    let Ok(mut meta) = Meta::start(alloc, disk, asked) else {
        return Ok(None);
    };
    let _made = make_all(&mut meta, &[Call::Mark(0)], false);
    meta.marks.are_valid();
    let marks = meta.marks(alloc)?;
    Ok(Some(marks))
}

/// Restores marks on a disk.
fn replace<D: Disk>(alloc: Global, disk: D, marks: &Marks) -> Run<D>
    requires { AreValidMarks marks.now }
{
    match Meta::restore(alloc, disk, marks) {
        Ok(meta) => Run {
            steps: 1,
            disk: meta.into_disk(),
        },
        Err(refusal) => Run {
            steps: 0,
            disk: refusal.disk,
        },
    }
}

/// Restores other marks on a disk, by a blank one.
fn restore<D: Disk + Drop>(
    alloc: Global,
    disk: D,
    blank: D,
    origin: u64,
) -> Result<Run<D>, Memory> {
    match other_marks(alloc, blank, origin)? {
        Some(marks) => Ok(replace(alloc, disk, &marks)),
        None => Ok(Run { steps: 0, disk }),
    }
}

/// So many calls, or all of them.
fn front(calls: &[Call], count: usize) -> &[Call] {
    if count < calls.len() {
        &calls[..count]
    } else {
        calls
    }
}

/// Makes so many steps of a script on its disk, beside a blank one.
pub fn make_run<D: Disk + Drop>(
    alloc: Global,
    disk: D,
    blank: D,
    script: &Script,
    steps: usize,
    is_mended: bool,
) -> Result<Run<D>, Memory> {
    if steps == 0 {
        return Ok(Run { steps: 0, disk });
    }
    match script.job {
        Job::Serve(calls) => {
            let calls = front(calls.as_slice(), steps - 1);
            Ok(serve(alloc, disk, script.origin, calls, is_mended))
        }
        Job::Restore => restore(alloc, disk, blank, script.origin),
    }
}
