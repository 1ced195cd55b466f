//! What a crash leaves of sectors in memory.

ghost use Rattle.std.specs.Prelude.{◌≡◌, ℕ, List, true, false, ◌<◌, length, replicate, OnOk, OnErr};
ghost use Rattle.era_disks.specs.Tears.{torn_row, torn_rows, synced_rows, KeepsClean, TakesMemory};

use era_base::{Bytes, Memory};
use std::alloc::Global;

/// Which of its crash images a disk in memory becomes: what is left of its pending sectors.
#[derive(Clone, Copy, Debug, PartialEq, Eq)]
pub enum Tear {
    /// What a read gives.
    Keep,
    /// What they were at the last sync that answered Ok.
    Old,
    /// This byte, all over.
    Fill(u8),
}

/// Forgets what was kept of sectors that aren't pending.
pub fn forget_rows(pending: &[bool], kept: &mut [Option<Bytes>])
    requires { length kept.old ≡ length pending.now }
    ensures { (rows : List (List ℕ))
        → synced_rows (replicate (length pending.now) true) kept.new rows
        ≡ synced_rows pending.now kept.old rows }
{
    if let Some((flag, flags)) = pending.split_first() {
        if let Some((old, others)) = kept.split_first_mut() {
            if !*flag {
                *old = None;
            }
            forget_rows(flags, others);
        }
    }
}

/// Makes of a sector what a crash leaves of it.
fn tear_row(
    alloc: Global,
    tear: Tear,
    pending: bool,
    kept: &mut Option<Bytes>,
    row: &mut Bytes,
) -> Result<(), Memory>
    ensures torn { OnOk result (row.new ≡ torn_row tear pending kept.old row.old) }
    ensures clean { pending ≡ false → row.new ≡ row.old }
    ensures full { OnErr result (TakesMemory tear) }
{
    if !pending {
        return Ok(());
    }
    match tear {
        Tear::Keep => {}
        Tear::Old => {
            if let Some(old) = kept.take() {
                *row = old;
            }
        }
        Tear::Fill(byte) => {
            let bytes = [byte; 512];
            *row = Bytes::from_slice(alloc, &bytes)?;
        }
    }
    Ok(())
}

/// Makes of at most one sector what a crash leaves of it.
fn tear_first(
    alloc: Global,
    tear: Tear,
    pending: &[bool],
    kept: &mut [Option<Bytes>],
    rows: &mut [Bytes],
) -> Result<(), Memory>
    requires few { length pending.now < 2 }
    requires kept { length kept.old ≡ length pending.now }
    requires rows { length rows.old ≡ length pending.now }
    ensures torn { OnOk result (rows.new ≡ torn_rows tear pending.now kept.old rows.old) }
    ensures clean { KeepsClean pending.now rows.old rows.new }
    ensures full { OnErr result (TakesMemory tear) }
{
    if let Some(flag) = pending.first() {
        if let Some(old) = kept.first_mut() {
            if let Some(row) = rows.first_mut() {
                tear_row(alloc, tear, *flag, old, row)?;
            }
        }
    }
    Ok(())
}

/// Makes of sectors what a crash leaves of them. Where memory is refused, a front of them is done. It goes by halves,
/// so that a large disk takes little of the stack.
pub fn tear_rows(
    alloc: Global,
    tear: Tear,
    pending: &[bool],
    kept: &mut [Option<Bytes>],
    rows: &mut [Bytes],
) -> Result<(), Memory>
    requires kept { length kept.old ≡ length pending.now }
    requires rows { length rows.old ≡ length pending.now }
    ensures torn { OnOk result (rows.new ≡ torn_rows tear pending.now kept.old rows.old) }
    ensures clean { KeepsClean pending.now rows.old rows.new }
    ensures full { OnErr result (TakesMemory tear) }
{
    if pending.len() < 2 {
        return tear_first(alloc, tear, pending, kept, rows);
    }
    let mid = pending.len() / 2;
    let (flags, later_flags) = pending.split_at(mid);
    let (old, later_old) = kept.split_at_mut(mid);
    let (front, back) = rows.split_at_mut(mid);
    tear_rows(alloc, tear, flags, old, front)?;
    tear_rows(alloc, tear, later_flags, later_old, back)
}
