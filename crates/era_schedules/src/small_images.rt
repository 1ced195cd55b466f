//! Images that a crash leaves of a small session, spelled with few arguments.

ghost use Rattle.std.specs.Prelude.{IfOk};
ghost use Rattle.era_model.specs.EraRuns.{EndWithin};
ghost use Rattle.era_model.specs.MarkRuns.{SetEndsWithin, SetsEndWithin};

use era_base::{Bytes, Geometry, Memory, Runs};
use era_model::{Contents, EraRuns, Images, MarkedSet, Marks, SetList};
use std::alloc::Global;
use std::test::Fail;

/// Archived sets, oldest first.
#[derive(Clone, Copy)]
pub enum Archived {
    None,
    /// A set of the blocks from the first to the second one, with its era.
    One(u32, u32, u32),
    /// Two sets of no block, with these eras.
    Two(u32, u32),
    /// So many sets of no block, with the eras 1, 2 and so on.
    Many(u32),
}

/// Marks of 64 blocks. Blocks are a run, the first and the last one.
#[derive(Clone, Copy)]
pub struct Marked {
    pub era: u32,
    /// Blocks with this era in the array.
    pub array: Option<(u32, u32, u32)>,
    pub archived: Archived,
    /// Blocks that are marked in the era.
    pub current: Option<(u32, u32)>,
}

/// What a crash leaves: the bytes of the origin's first two sectors, before zeros, and marks.
#[derive(Clone, Copy)]
pub struct Left {
    pub sectors: [u8; 2],
    pub marks: Marked,
    pub held: Option<Marked>,
}

/// A run of the blocks below 64, if there is one.
fn set_of(alloc: Global, blocks: Option<(u32, u32)>) -> Result<Runs, Memory>
    ensures { IfOk result (λ runs. SetEndsWithin 64 runs) }
{
    let mut runs = Runs::new(alloc);
    if let Some((first, last)) = blocks {
        if first <= last && last < 64 {
            runs.push(first, last)?;
        }
    }
    Ok(runs)
}

/// An array with this run, if there is one.
fn array_of(alloc: Global, run: Option<(u32, u32, u32)>) -> Result<EraRuns, Memory>
    ensures { IfOk result (λ runs. EndWithin 64 runs) }
{
    let mut runs = EraRuns::new(alloc);
    if let Some((first, last, era)) = run {
        if first <= last && last < 64 && 0 < era {
            runs.push(first, last, era)?;
        }
    }
    Ok(runs)
}

/// A set of no block, with the era.
fn empty_set(alloc: Global, era: u32) -> MarkedSet
    ensures { SetEndsWithin 64 result.blocks }
{
    MarkedSet {
        era,
        blocks: Runs::new(alloc),
    }
}

/// So many sets of no block, with the eras 1, 2 and so on.
fn many_sets(alloc: Global, count: u32) -> Result<SetList, Memory>
    ensures { IfOk result (λ sets. SetsEndWithin 64 sets) }
{
    let mut sets = SetList::new(alloc);
    for before in 0..count {
        sets.push(empty_set(alloc, before + 1))?;
    }
    Ok(sets)
}

/// The archive of these sets.
fn archive_of(alloc: Global, archived: Archived) -> Result<SetList, Memory>
    ensures { IfOk result (λ sets. SetsEndWithin 64 sets) }
{
    let mut sets = SetList::new(alloc);
    match archived {
        Archived::None => {}
        Archived::One(first, last, era) => {
            let blocks = set_of(alloc, Some((first, last)))?;
            sets.push(MarkedSet { era, blocks })?;
        }
        Archived::Two(older, newer) => {
            sets.push(empty_set(alloc, older))?;
            sets.push(empty_set(alloc, newer))?;
        }
        Archived::Many(count) => return many_sets(alloc, count),
    }
    Ok(sets)
}

/// The marks that are spelled so.
fn marks_of(alloc: Global, marked: Marked) -> Result<Marks, Fail> {
    let geometry = Geometry::new(512, 8)?;
    let array = array_of(alloc, marked.array)?;
    let archive = archive_of(alloc, marked.archived)?;
    let current = set_of(alloc, marked.current)?;
    Ok(Marks {
        geometry,
        era: marked.era,
        array,
        archive,
        current,
    })
}

/// So many zeros, and marks of no block in era 1, for an origin of so many sectors in blocks of this size.
pub fn blank_images(
    alloc: Global,
    sectors: u64,
    block_sectors: u64,
    count: usize,
) -> Result<Images, Fail> {
    Ok(Images {
        contents: Contents {
            bytes: Some(Bytes::from_vec(vec![in alloc; 0; count]?)),
        },
        marks: Marks {
            geometry: Geometry::new(sectors, block_sectors)?,
            era: 1,
            array: EraRuns::new(alloc),
            archive: SetList::new(alloc),
            current: Runs::new(alloc),
        },
        held: None,
    })
}

/// The images that are spelled so.
pub fn images_of(alloc: Global, left: Left) -> Result<Images, Fail> {
    let mut bytes = vec![in alloc; 0; 0]?;
    for byte in left.sectors {
        bytes.extend_from_slice([byte; 512].as_slice())?;
    }
    bytes.extend_from_slice(vec![in alloc; 0; 261_120]?.as_slice())?;
    let held = match left.held {
        Some(held) => Some(marks_of(alloc, held)?),
        None => None,
    };
    Ok(Images {
        contents: Contents {
            bytes: Some(Bytes::from_vec(bytes)),
        },
        marks: marks_of(alloc, left.marks)?,
        held,
    })
}
