//! Rows of a sparse disk: one list of bytes for each sector, which is empty where nothing was written.

ghost use Rattle.std.specs.Prelude.{◌≡◌, ◌*◌, [], ◌++◌, true, length, replicate, IfOk, OnOk};
ghost use Rattle.era_disks.specs.Rows.{sector_bytes, bytes_of};
ghost use Rattle.era_disks.specs.Tears.{synced_row, synced_rows};

use era_base::{Bytes, Memory};
use std::alloc::Global;
use std::mem;

/// Rows of sectors that were never written.
pub fn empty_rows(alloc: Global, sectors: usize) -> Result<Vec<Bytes>, Memory>
    ensures { IfOk result (λ rows. rows.items ≡ replicate sectors []) }
{
    let mut rows = Vec::with_capacity(alloc, sectors)?;
    for _sector in 0..sectors {
        rows.push(Bytes::new(alloc))?;
    }
    Ok(rows)
}

/// A copy of rows, which reads as they do.
pub fn copy_rows(alloc: Global, rows: &[Bytes]) -> Result<Vec<Bytes>, Memory>
    ensures { IfOk result (λ copy. copy.items ≡ rows.now) }
{
    let mut copy = Vec::with_capacity(alloc, rows.len())?;
    for row in rows {
        copy.push(Bytes::from_slice(alloc, row.as_slice())?)?;
    }
    Ok(copy)
}

/// Reads one sector.
pub fn read_row(row: &Bytes, into: &mut [u8])
    requires { length into.old ≡ 512 }
    ensures { into.new ≡ sector_bytes row.now }
{
    if row.len() == 512 {
        into.copy_from_slice(row.as_slice());
    } else {
        into.fill(0);
    }
}

/// Adds the bytes of one sector to a list.
pub fn append_row(bytes: &mut Vec<u8>, row: &Bytes) -> Result<(), Memory>
    ensures { OnOk result (bytes.new.items ≡ bytes.old.items ++ sector_bytes row.now) }
{
    let mut sector = [0; 512];
    read_row(row, &mut sector);
    bytes.extend_from_slice(&sector)?;
    Ok(())
}

/// Reads sectors.
pub fn read_rows(rows: &[Bytes], into: &mut [u8])
    requires { length into.old ≡ length rows.now * 512 }
    ensures { into.new ≡ bytes_of rows.now }
{
    if let Some((row, rest)) = rows.split_first() {
        let (head, tail) = into.split_at_mut(512);
        read_row(row, head);
        read_rows(rest, tail);
    }
}

/// A copy of what was kept of sectors.
pub fn copy_kept(alloc: Global, kept: &[Option<Bytes>]) -> Result<Vec<Option<Bytes>>, Memory>
    ensures { IfOk result (λ copy. copy.items ≡ kept.now) }
{
    let mut copy = Vec::with_capacity(alloc, kept.len())?;
    for old in kept {
        let one = match old {
            Some(row) => Some(Bytes::from_slice(alloc, row.as_slice())?),
            None => None,
        };
        copy.push(one)?;
    }
    Ok(copy)
}

/// Sectors of which nothing is kept.
pub fn none_kept(alloc: Global, sectors: usize) -> Result<Vec<Option<Bytes>>, Memory>
    ensures { IfOk result (λ kept. length kept.items ≡ sectors) }
{
    let mut kept = Vec::with_capacity(alloc, sectors)?;
    for _sector in 0..sectors {
        kept.push(None)?;
    }
    Ok(kept)
}

/// Writes one pending sector, and keeps what it was before its first write since the last sync.
fn write_row(
    alloc: Global,
    kept: &mut Option<Bytes>,
    row: &mut Bytes,
    bytes: &[u8],
) -> Result<(), Memory>
    requires { length bytes.now ≡ 512 }
    ensures written { OnOk result (sector_bytes row.new ≡ bytes.now) }
    ensures synced { synced_row true kept.new row.new ≡ synced_row true kept.old row.old }
{
    let new = Bytes::from_slice(alloc, bytes)?;
    let old = mem::replace(row, new);
    if kept.is_none() {
        *kept = Some(old);
    }
    Ok(())
}

/// Writes pending sectors, and keeps what they were before. Where memory is refused, a front of them may be written.
pub fn write_rows(
    alloc: Global,
    kept: &mut [Option<Bytes>],
    rows: &mut [Bytes],
    bytes: &[u8],
) -> Result<(), Memory>
    requires kept { length kept.old ≡ length rows.old }
    requires bytes { length bytes.now ≡ length rows.old * 512 }
    ensures written { OnOk result (bytes_of rows.new ≡ bytes.now) }
    ensures synced { synced_rows (replicate (length rows.old) true) kept.new rows.new
        ≡ synced_rows (replicate (length rows.old) true) kept.old rows.old }
{
    if let Some((row, rest)) = rows.split_first_mut() {
        if let Some((old, others)) = kept.split_first_mut() {
            let (head, tail) = bytes.split_at(512);
            write_row(alloc, old, row, head)?;
            write_rows(alloc, others, rest, tail)?;
        }
    }
    Ok(())
}
