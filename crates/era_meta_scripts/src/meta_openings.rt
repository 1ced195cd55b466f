//! Openings by the numbers of blocks, by what the disk holds, and by what is asked for.

use crate::meta_disks::{BLANK, FORMATTED, Seen, blank, look_of, served, small, start_of, stored};
use era_base::{Disk, Memory};
use era_meta::MetaError;
use std::alloc::Global;
use std::test::Fail;

/// What a look finds behind a start on a blank disk of so many metadata blocks.
fn started(
    alloc: Global,
    blocks: u64,
    sectors: u64,
    block_sectors: u64,
) -> Result<[Seen; 2], Memory> {
    let disk = blank(alloc, blocks.min(400))?;
    let (answer, left) = start_of(alloc, disk, sectors, block_sectors);
    match left {
        Some(disk) => Ok([answer, look_of(alloc, disk)]),
        None => Ok([answer, answer]),
    }
}

/// The blocks of the disk, the origin's sectors and those of its blocks, what a start answers, and what a look finds then.
type Row = (u64, u64, u64, Seen, Seen);

/// The first of the rows that isn't met.
fn first_unmet(alloc: Global, rows: &[Row]) -> Result<Option<Row>, Memory> {
    for (blocks, sectors, block_sectors, answer, found) in rows {
        if started(alloc, *blocks, *sectors, *block_sectors)? != [*answer, *found] {
            return Ok(Some((*blocks, *sectors, *block_sectors, *answer, *found)));
        }
    }
    Ok(None)
}

#[test]
fn a_start_formats_a_disk_that_has_the_blocks(rt: HostRuntime) -> Result<(), Fail> {
    let rows = [
        (57, 512, 8, FORMATTED, FORMATTED),
        (57, 1, 8, FORMATTED, FORMATTED),
        (297, 524_288, 8, FORMATTED, FORMATTED),
        (56, 512, 8, small(56, 57), small(56, 57)),
        (0, 512, 8, small(0, 57), small(0, 57)),
        (57, 524_288, 8, small(57, 297), BLANK),
        (296, 524_288, 8, small(296, 297), BLANK),
        (57, 512, 12, Seen::NoGeometry, Seen::NoGeometry),
    ];
    assert_eq!(rt; first_unmet(rt.alloc(), rows.as_slice())?, None);
    Ok(())
}

#[test]
fn each_start_begins_an_era(rt: HostRuntime) -> Result<(), Fail> {
    for times in 1..20_u32 {
        let Some(disk) = served(rt.alloc(), times)? else {
            panic!(rt; "a start failed");
        };
        assert!(rt; look_of(rt.alloc(), disk) == stored(times, u64::from(times)));
    }
    Ok(())
}

#[test]
fn another_geometry_is_refused_and_nothing_changes(rt: HostRuntime) -> Result<(), Fail> {
    let Some(disk) = served(rt.alloc(), 1)? else {
        panic!(rt; "a start failed");
    };
    let (answer, left) = start_of(rt.alloc(), disk, 511, 8);
    let Seen::Refused(MetaError::WrongGeometry { kept, asked }) = answer else {
        panic!(rt; "the disk was served");
    };
    assert!(rt; kept.sectors() == 512 && asked.sectors() == 511);
    let Some(disk) = left else {
        panic!(rt; "no disk");
    };
    assert!(rt; look_of(rt.alloc(), disk) == FORMATTED);
    Ok(())
}

#[test]
fn the_kept_geometry_may_need_more_blocks(rt: HostRuntime) -> Result<(), Fail> {
    let disk = blank(rt.alloc(), 297)?;
    let (_, Some(mut disk)) = start_of(rt.alloc(), disk, 524_288, 8) else {
        panic!(rt; "no disk");
    };
    let mut slot = [0; 4_096];
    disk.read(0, &mut slot)?;
    let mut less = blank(rt.alloc(), 100)?;
    less.write(0, &slot)?;
    assert!(rt; look_of(rt.alloc(), less) == small(100, 297));
    Ok(())
}
