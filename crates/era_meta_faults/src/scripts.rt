//! The scripts that are swept, each with how many stops it has, and what it leaves where nothing stops it. A write is two
//! stops, by a fuse and by a call that fails once, and a sync is one.

use crate::calls::Call;
use crate::images::{Eras, Found, Seen};
use crate::runs::{Job, Script};
use crate::sweeps::{Swept, sweep};
use era_base::Memory;
use std::alloc::Global;
use std::test::Fail;

/// No calls.
const IDLE: [Call; 4] = [Call::Nothing; 4];

/// No eras.
const NONE: Eras = [0; 4];

/// A script, how many stops it has, and what it leaves.
#[derive(Clone, Copy)]
struct Row {
    script: Script,
    stops: usize,
    last: Found,
}

/// A script over 57 metadata blocks for an origin of 64 blocks.
fn small(times: u32, first: [Call; 4], job: Job) -> Script {
    Script {
        sectors: 456,
        origin: 512,
        times,
        first,
        job,
    }
}

/// One call, and then none.
fn only(call: Call) -> [Call; 4] {
    [call, Call::Nothing, Call::Nothing, Call::Nothing]
}

/// A row whose script leaves no snapshot.
fn make_row(
    script: Script,
    stops: usize,
    era: u32,
    sequence: u64,
    sets: usize,
    last: Eras,
    entries: Eras,
) -> Row {
    let snapshot = None;
    Row {
        script,
        stops,
        last: Found {
            era,
            sequence,
            sets,
            last,
            entries,
            snapshot,
        },
    }
}

/// The first of the rows that isn't met, or `None`.
fn first_unmet(alloc: Global, rows: &[Row]) -> Result<Option<Swept>, Memory> {
    for row in rows {
        let swept = sweep(alloc, &row.script)?;
        let wanted = Swept {
            stops: row.stops,
            miss: None,
            last: Seen::Found(row.last),
        };
        if swept != wanted {
            return Ok(Some(swept));
        }
    }
    Ok(None)
}

#[test]
fn a_start_leaves_the_disk_before_or_behind_it(rt: HostRuntime) -> Result<(), Fail> {
    let serve = Job::Serve(IDLE);
    let third = only(Call::Mark(3));
    let rows = [
        make_row(small(0, IDLE, serve), 11, 1, 1, 0, NONE, NONE),
        make_row(small(1, IDLE, serve), 13, 2, 2, 1, NONE, NONE),
        make_row(small(1, third, serve), 16, 2, 3, 1, [0, 0, 1, 0], NONE),
    ];
    assert_eq!(rt; first_unmet(rt.alloc(), &rows)?, None);
    Ok(())
}

#[test]
fn a_mark_and_a_fold_leave_the_marks_before_or_behind(rt: HostRuntime) -> Result<(), Fail> {
    let calls = [Call::Mark(1), Call::Roll, Call::Nothing, Call::Nothing];
    let script = small(16, only(Call::Mark(3)), Job::Serve(calls));
    let rows = [make_row(script, 136, 18, 20, 16, [0, 17, 1, 0], [0, 0, 1, 0])];
    assert_eq!(rt; first_unmet(rt.alloc(), &rows)?, None);
    Ok(())
}

#[test]
fn a_restoring_leaves_the_old_marks_none_or_the_new(rt: HostRuntime) -> Result<(), Fail> {
    let calls = [Call::Mark(3), Call::Mark(1), Call::TakeSnap, Call::Nothing];
    let rows = [
        make_row(
            small(1, IDLE, Job::Restore),
            15,
            1,
            1,
            0,
            [1, 0, 0, 0],
            NONE,
        ),
        make_row(
            small(1, calls, Job::Restore),
            18,
            1,
            1,
            0,
            [1, 0, 0, 0],
            NONE,
        ),
    ];
    assert_eq!(rt; first_unmet(rt.alloc(), &rows)?, None);
    Ok(())
}

#[test]
fn a_digest_leaves_the_marks_before_or_behind_each_step(rt: HostRuntime) -> Result<(), Fail> {
    let first = [
        Call::Mark(0),
        Call::Mark(1_500),
        Call::Nothing,
        Call::Nothing,
    ];
    let calls = [Call::Digest, Call::Digest, Call::Digest, Call::Nothing];
    let script = Script {
        sectors: 480,
        origin: 16_384,
        times: 1,
        first,
        job: Job::Serve(calls),
    };
    let rows = [make_row(script, 67, 2, 7, 0, [1, 0, 0, 1], [1, 0, 0, 1])];
    assert_eq!(rt; first_unmet(rt.alloc(), &rows)?, None);
    Ok(())
}

#[test]
fn a_snapshot_stays_until_it_is_dropped(rt: HostRuntime) -> Result<(), Fail> {
    let calls = [Call::TakeSnap, Call::Mark(1), Call::Roll, Call::Nothing];
    let script = small(1, only(Call::Mark(0)), Job::Serve(calls));
    let mut kept = make_row(script, 59, 3, 6, 2, [1, 2, 0, 0], NONE);
    kept.last.snapshot = Some([1, 0, 0, 0]);
    let calls = [Call::TakeSnap, Call::Mark(1), Call::Roll, Call::DropSnap];
    let script = small(1, only(Call::Mark(0)), Job::Serve(calls));
    let dropped = make_row(script, 68, 3, 7, 2, [1, 2, 0, 0], NONE);
    assert_eq!(rt; first_unmet(rt.alloc(), &[kept, dropped])?, None);
    Ok(())
}
