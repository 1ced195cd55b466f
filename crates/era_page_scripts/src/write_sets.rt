//! Write sets, and the runs of their blocks.

use era_base::{Memory, RunSource};
use era_sets::BitSet;
use std::alloc::Global;
use std::process::Abort;
use std::test::Fail;

/// The set of so many blocks that has these.
fn set_of(alloc: Global, blocks: u32, marked: &[u32]) -> Result<BitSet, Memory> {
    let mut set = BitSet::new(alloc, blocks)?;
    for block in marked {
        if *block < set.len() {
            set.mark(*block);
        }
    }
    Ok(set)
}

/// The set of 200 blocks that has some beside the ends of words.
fn beside_ends(alloc: Global) -> Result<BitSet, Memory> {
    set_of(alloc, 200, [0, 63, 64, 65, 127, 128, 199].as_slice())
}

/// Stops where the set's blocks aren't those of the runs.
fn expect_runs<R: Abort>(
    rt: &R,
    alloc: Global,
    set: &BitSet,
    runs: &[(u32, u32)],
) -> Result<(), Fail> {
    assert_eq!(rt; set.runs(alloc)?.as_slice(), runs);
    Ok(())
}

#[test]
fn runs_beside_the_ends_of_words(rt: HostRuntime) -> Result<(), Fail> {
    let mut set = beside_ends(rt.alloc())?;
    let runs = [(0, 0), (63, 65), (127, 128), (199, 199)];
    expect_runs(&rt, rt.alloc(), &set, runs.as_slice())?;
    if set.len() == 200 {
        set.unmark(64);
        set.unmark(62);
    }
    let runs = [(0, 0), (63, 63), (65, 65), (127, 128), (199, 199)];
    expect_runs(&rt, rt.alloc(), &set, runs.as_slice())?;
    set.clear();
    expect_runs(&rt, rt.alloc(), &set, [].as_slice())
}

#[test]
fn bits_beside_the_ends_of_words(rt: HostRuntime) -> Result<(), Fail> {
    let set = beside_ends(rt.alloc())?;
    assert_eq!(rt;
        set.words(),
        [1 << 63 | 1, 1 << 63 | 3, 1, 1 << 7].as_slice()
    );
    for (block, has) in [(65, true), (66, false), (199, true), (200, false)] {
        assert_eq!(rt; set.has(block), has);
    }
    Ok(())
}

#[test]
fn next_runs(rt: HostRuntime) -> Result<(), Fail> {
    let set = beside_ends(rt.alloc())?;
    for (from, run) in [
        (0, (0, 0)),
        (1, (63, 65)),
        (66, (127, 128)),
        (129, (199, 199)),
    ] {
        assert_eq!(rt; set.next_run(from), Some(run));
    }
    assert_eq!(rt; set.next_run(200), None);
    Ok(())
}

#[test]
fn sets_of_no_block_and_of_every_block(rt: HostRuntime) -> Result<(), Fail> {
    expect_runs(&rt, rt.alloc(), &BitSet::new(rt.alloc(), 0)?, [].as_slice())?;
    for blocks in [1, 64, 65] {
        let mut set = BitSet::new(rt.alloc(), blocks)?;
        expect_runs(&rt, rt.alloc(), &set, [].as_slice())?;
        for block in 0..blocks {
            if block < set.len() {
                set.mark(block);
            }
        }
        expect_runs(&rt, rt.alloc(), &set, [(0, blocks - 1)].as_slice())?;
    }
    Ok(())
}

#[test]
fn union_of_sets_that_overlap(rt: HostRuntime) -> Result<(), Fail> {
    let mut set = set_of(rt.alloc(), 130, [0, 1, 64, 128].as_slice())?;
    let other = set_of(rt.alloc(), 130, [1, 2, 65, 129].as_slice())?;
    assert_eq!(rt; other.len(), set.len());
    set.union(&other);
    expect_runs(
        &rt,
        rt.alloc(),
        &set,
        [(0, 2), (64, 65), (128, 129)].as_slice(),
    )
}
