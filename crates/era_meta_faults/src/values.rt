//! What digest steps, a status and a list answer.

ghost use Rattle.era_meta.specs.MetaCalls.{IsStanding};

use crate::calls::{Call, make_all};
use era_base::{Disk, Geometry, Memory};
use era_disks::MemDisk;
use era_meta::Meta;
use std::alloc::Global;
use std::test::Fail;

/// The era of a set, and the page that a step transcribed, if it didn't drop the set; nothing where no set is archived.
type Step = Option<(u32, Option<u32>)>;

/// How a status stands: used and all metadata blocks, the era, and the block of the snapshot.
type Status = (u32, u64, u32, Option<u32>);

/// A digest step; `None` where it may not be made, or fails.
fn digest<D: Disk>(meta: &mut Meta<D>) -> Option<Step>
    requires { IsStanding D.Disk meta.old }
    ensures { IsStanding D.Disk meta.new }
{
    if meta.unstored() || meta.sequence() > 999 {
        return None;
    }
    meta.digest_step().ok()
}

/// Four digest steps.
fn four_digests<D: Disk>(meta: &mut Meta<D>) -> [Option<Step>; 4]
    requires { IsStanding D.Disk meta.old }
{
    let first = digest(meta);
    let second = digest(meta);
    let third = digest(meta);
    let fourth = digest(meta);
    [first, second, third, fourth]
}

/// What four digest steps answer behind these calls on a blank disk, for an origin of 65,536 blocks.
fn digested<D: Disk + Drop>(alloc: Global, disk: D, calls: &[Call]) -> [Option<Step>; 4] {
    let Ok(asked) = Geometry::new(524_288, 8) else {
        return [None; 4];
    };
    let Ok(mut meta) = Meta::start(alloc, disk, asked) else {
        return [None; 4];
    };
    let _made = make_all(&mut meta, calls, false);
    four_digests(&mut meta)
}

#[test]
fn four_steps_digest_two_pages(rt: HostRuntime) -> Result<(), Fail> {
    let disk = MemDisk::new(rt.alloc(), "meta", 2_376)?;
    let calls = [Call::Mark(0), Call::Mark(2_000), Call::Roll];
    let wanted = [
        Some(Some((1, Some(0)))),
        Some(Some((1, Some(1)))),
        Some(Some((1, None))),
        Some(None),
    ];
    assert_eq!(rt; digested(rt.alloc(), disk, &calls), wanted);
    Ok(())
}

/// The status; `None` where it may not be asked for.
fn status_of<D: Disk>(meta: &Meta<D>) -> Option<Status>
    requires { IsStanding D.Disk meta.now }
{
    if meta.unstored() {
        None
    } else {
        Some(meta.status())
    }
}

/// What the status is, and the runs since era 1, behind these calls on a blank disk for an origin of 64 blocks.
#[derive(Debug, Drop)]
struct Told {
    status: Option<Status>,
    runs: Vec<(u32, u32)>,
}

/// What is told behind these calls.
fn tell<D: Disk + Drop>(alloc: Global, disk: D, calls: &[Call]) -> Result<Option<Told>, Memory> {
    let Ok(asked) = Geometry::new(512, 8) else {
        return Ok(None);
    };
    let Ok(mut meta) = Meta::start(alloc, disk, asked) else {
        return Ok(None);
    };
    let _made = make_all(&mut meta, calls, false);
    let status = status_of(&meta);
    let since = meta.since(alloc, 1)?;
    let runs = Vec::from_slice(alloc, since.as_slice())?;
    Ok(Some(Told { status, runs }))
}

#[test]
fn a_status_counts_the_blocks_behind_a_fold(rt: HostRuntime) -> Result<(), Fail> {
    let mut calls = [Call::Roll; 18];
    calls[0] = Call::Mark(3);
    let disk = MemDisk::new(rt.alloc(), "meta", 456)?;
    let Some(told) = tell(rt.alloc(), disk, &calls)? else {
        panic!(rt; "a start failed");
    };
    assert_eq!(rt; told.status, Some((20, 57, 18, None)));
    assert_eq!(rt; told.runs.as_slice(), [(3, 3)].as_slice());
    Ok(())
}
