//! What scripts of six tasks with failing calls of the metadata disk are answered, and what a crash leaves of them.

use crate::commands::{Said, Task};
use crate::scripts::{Left, Row, Stop, first_unmet};
use era_disks::{DiskCall, Tear};
use std::test::Fail;

/// No call fails.
const WHOLE: Stop = (DiskCall::Read, 0, 0);

/// No call fails: what was answered is what a crash leaves.
const FINE: [Row; 2] = [
    Row {
        stop: WHOLE,
        tasks: [
            Task::Mark(0),
            Task::Checkpoint,
            Task::Mark(2),
            Task::Snap,
            Task::Digest,
            Task::Blocks(1, true),
        ],
        said: [
            Said::Done,
            Said::EraIs(2),
            Said::Done,
            Said::Done,
            Said::Digested(1, Some(0)),
            Said::Listed([true, false, true, false]),
        ],
        tear: Tear::Old,
        left: Left {
            era: 2,
            is_held: true,
            marked: [true, false, true, false],
        },
    },
    Row {
        stop: WHOLE,
        tasks: [
            Task::Mark(0),
            Task::Checkpoint,
            Task::Digest,
            Task::Digest,
            Task::Digest,
            Task::Status,
        ],
        said: [
            Said::Done,
            Said::EraIs(2),
            Said::Digested(1, Some(0)),
            Said::Digested(1, None),
            Said::Idle,
            Said::Used(4, 2),
        ],
        tear: Tear::Old,
        left: Left {
            era: 2,
            is_held: false,
            marked: [true, false, false, false],
        },
    },
];

#[test]
fn what_is_answered_fine_is_found(rt: HostRuntime) -> Result<(), Fail> {
    assert_eq!(rt; first_unmet(rt.alloc(), &FINE)?, None);
    Ok(())
}

/// Marks that fail before their gate is written, and with its sync.
const MARKS: [Row; 4] = [
    Row {
        stop: (DiskCall::Write, 4, 5),
        tasks: [
            Task::Mark(0),
            Task::Blocks(1, false),
            Task::Mark(2),
            Task::Nothing,
            Task::Nothing,
            Task::Nothing,
        ],
        said: [
            Said::Fault(1),
            Said::Listed([false, false, false, false]),
            Said::Done,
            Said::Done,
            Said::Done,
            Said::Done,
        ],
        tear: Tear::Fill(7),
        left: Left {
            era: 1,
            is_held: false,
            marked: [false, false, true, false],
        },
    },
    Row {
        stop: (DiskCall::Sync, 4, 5),
        tasks: [
            Task::Mark(0),
            Task::Blocks(1, false),
            Task::Nothing,
            Task::Nothing,
            Task::Nothing,
            Task::Nothing,
        ],
        said: [
            Said::Fault(1),
            Said::Listed([false, false, false, false]),
            Said::Done,
            Said::Done,
            Said::Done,
            Said::Done,
        ],
        tear: Tear::Keep,
        left: Left {
            era: 1,
            is_held: false,
            marked: [true, false, false, false],
        },
    },
    Row {
        stop: (DiskCall::Sync, 4, 5),
        tasks: [
            Task::Mark(0),
            Task::Blocks(1, false),
            Task::Nothing,
            Task::Nothing,
            Task::Nothing,
            Task::Nothing,
        ],
        said: [
            Said::Fault(1),
            Said::Listed([false, false, false, false]),
            Said::Done,
            Said::Done,
            Said::Done,
            Said::Done,
        ],
        tear: Tear::Old,
        left: Left {
            era: 1,
            is_held: false,
            marked: [false, false, false, false],
        },
    },
    Row {
        stop: (DiskCall::Sync, 4, 5),
        tasks: [
            Task::Mark(0),
            Task::Mark(2),
            Task::Nothing,
            Task::Nothing,
            Task::Nothing,
            Task::Nothing,
        ],
        said: [
            Said::Fault(1),
            Said::Done,
            Said::Done,
            Said::Done,
            Said::Done,
            Said::Done,
        ],
        tear: Tear::Keep,
        left: Left {
            era: 1,
            is_held: false,
            marked: [false, false, true, false],
        },
    },
];

#[test]
fn a_failed_mark_is_found_behind_its_gate_alone(rt: HostRuntime) -> Result<(), Fail> {
    assert_eq!(rt; first_unmet(rt.alloc(), &MARKS)?, None);
    Ok(())
}

/// Checkpoints whose commit fails.
const ERAS: [Row; 2] = [
    Row {
        stop: (DiskCall::Sync, 3, 4),
        tasks: [
            Task::Checkpoint,
            Task::Nothing,
            Task::Nothing,
            Task::Nothing,
            Task::Nothing,
            Task::Nothing,
        ],
        said: [
            Said::Fault(1),
            Said::Done,
            Said::Done,
            Said::Done,
            Said::Done,
            Said::Done,
        ],
        tear: Tear::Keep,
        left: Left {
            era: 1,
            is_held: false,
            marked: [false, false, false, false],
        },
    },
    Row {
        stop: (DiskCall::Sync, 3, 5),
        tasks: [
            Task::Checkpoint,
            Task::Blocks(1, false),
            Task::Mark(0),
            Task::Checkpoint,
            Task::Nothing,
            Task::Nothing,
        ],
        said: [
            Said::Fault(1),
            Said::Fault(2),
            Said::Done,
            Said::EraIs(3),
            Said::Done,
            Said::Done,
        ],
        tear: Tear::Old,
        left: Left {
            era: 3,
            is_held: false,
            marked: [true, false, false, false],
        },
    },
];

#[test]
fn a_failed_checkpoint_is_stored_by_a_later_command(rt: HostRuntime) -> Result<(), Fail> {
    assert_eq!(rt; first_unmet(rt.alloc(), &ERAS)?, None);
    Ok(())
}

/// A command behind a checkpoint whose commit failed, how it is answered where the era is stored first, and the era behind it.
const NEXT: [(Task, Said, u32); 7] = [
    (Task::Blocks(1, false), Said::Listed([false; 4]), 2),
    (Task::Status, Said::Used(5, 2), 2),
    (Task::Mark(0), Said::Done, 2),
    (Task::Checkpoint, Said::EraIs(3), 3),
    (Task::Keep, Said::Kept(1), 2),
    (Task::Snap, Said::Done, 2),
    (Task::Digest, Said::Digested(1, None), 2),
];

/// A command behind a checkpoint whose sync failed, and another sync too where the era behind both is the first.
fn behind_failure(task: Task, said: Said, era: u32) -> Row {
    let is_stored = era > 1;
    Row {
        stop: (DiskCall::Sync, 3, if is_stored { 4 } else { 5 }),
        tasks: [
            Task::Checkpoint,
            task,
            Task::Nothing,
            Task::Nothing,
            Task::Nothing,
            Task::Nothing,
        ],
        said: [
            Said::Fault(1),
            said,
            Said::Done,
            Said::Done,
            Said::Done,
            Said::Done,
        ],
        tear: Tear::Old,
        left: Left {
            era,
            is_held: is_stored && task == Task::Snap,
            marked: [is_stored && task == Task::Mark(0), false, false, false],
        },
    }
}

#[test]
fn each_command_stores_the_era_first(rt: HostRuntime) -> Result<(), Fail> {
    for (task, said, era) in NEXT {
        let stored = behind_failure(task, said, era);
        let unstored = behind_failure(task, Said::Fault(2), 1);
        assert_eq!(rt; first_unmet(rt.alloc(), &[stored, unstored])?, None);
    }
    Ok(())
}

/// Eras that a stripe inside keeps: a stored one, and one that a failed checkpoint left unstored.
const KEPT: [Row; 2] = [
    Row {
        stop: WHOLE,
        tasks: [
            Task::Mark(0),
            Task::Keep,
            Task::Mark(1),
            Task::Checkpoint,
            Task::Keep,
            Task::Blocks(2, false),
        ],
        said: [
            Said::Done,
            Said::Kept(1),
            Said::Done,
            Said::EraIs(2),
            Said::Kept(1),
            Said::Listed([false, false, false, false]),
        ],
        tear: Tear::Old,
        left: Left {
            era: 2,
            is_held: false,
            marked: [true, true, false, false],
        },
    },
    Row {
        stop: (DiskCall::Sync, 3, 5),
        tasks: [
            Task::Checkpoint,
            Task::Keep,
            Task::Keep,
            Task::Checkpoint,
            Task::Nothing,
            Task::Nothing,
        ],
        said: [
            Said::Fault(1),
            Said::Fault(2),
            Said::Kept(1),
            Said::EraIs(3),
            Said::Done,
            Said::Done,
        ],
        tear: Tear::Old,
        left: Left {
            era: 3,
            is_held: false,
            marked: [false, false, false, false],
        },
    },
];

#[test]
fn a_stripe_inside_keeps_the_era(rt: HostRuntime) -> Result<(), Fail> {
    assert_eq!(rt; first_unmet(rt.alloc(), &KEPT)?, None);
    Ok(())
}

/// Snapshots and digest steps whose commit fails.
const STEPS: [Row; 3] = [
    Row {
        stop: (DiskCall::Sync, 3, 4),
        tasks: [
            Task::Snap,
            Task::Unsnap,
            Task::Snap,
            Task::Snap,
            Task::Nothing,
            Task::Nothing,
        ],
        said: [
            Said::Fault(1),
            Said::NoSnap,
            Said::Done,
            Said::Held,
            Said::Done,
            Said::Done,
        ],
        tear: Tear::Old,
        left: Left {
            era: 1,
            is_held: true,
            marked: [false, false, false, false],
        },
    },
    Row {
        stop: (DiskCall::Sync, 9, 10),
        tasks: [
            Task::Mark(0),
            Task::Snap,
            Task::Unsnap,
            Task::Blocks(1, true),
            Task::Nothing,
            Task::Nothing,
        ],
        said: [
            Said::Done,
            Said::Done,
            Said::Fault(1),
            Said::Listed([true, false, false, false]),
            Said::Done,
            Said::Done,
        ],
        tear: Tear::Old,
        left: Left {
            era: 1,
            is_held: true,
            marked: [true, false, false, false],
        },
    },
    Row {
        stop: (DiskCall::Sync, 9, 10),
        tasks: [
            Task::Mark(0),
            Task::Checkpoint,
            Task::Digest,
            Task::Digest,
            Task::Nothing,
            Task::Nothing,
        ],
        said: [
            Said::Done,
            Said::EraIs(2),
            Said::Fault(1),
            Said::Digested(1, Some(0)),
            Said::Done,
            Said::Done,
        ],
        tear: Tear::Old,
        left: Left {
            era: 2,
            is_held: false,
            marked: [true, false, false, false],
        },
    },
];

#[test]
fn a_failed_step_leaves_the_marks_and_the_snapshot(rt: HostRuntime) -> Result<(), Fail> {
    assert_eq!(rt; first_unmet(rt.alloc(), &STEPS)?, None);
    Ok(())
}
