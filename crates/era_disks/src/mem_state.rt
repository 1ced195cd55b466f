//! The sectors of a disk in memory.

ghost use Rattle.std.specs.Prelude.{◌≡◌, length};

use crate::rows::{empty_rows, none_kept, read_rows, write_rows};
use crate::tear::{Tear, forget_rows, tear_rows};
use era_base::{Bytes, Memory};
use std::alloc::Global;

/// The rows of the sectors, of which an empty one reads as zeros, which sectors are pending, and what was kept of
/// pending ones: their rows at the last sync, where they were written since.
#[derive(Drop)]
pub struct MemState {
    pub rows: Vec<Bytes>,
    pub pending: Vec<bool>,
    pub kept: Vec<Option<Bytes>>,
    pub ghost same: { length pending.items ≡ length rows.items },
    pub ghost each: { length kept.items ≡ length rows.items },
}

impl MemState {
    ghost use Rattle.std.specs.Prelude.{ℕ, ◌+◌, ◌*◌, ◌/◌, ◌≤◌, true, take, drop, replicate, IfOk, OnOk, OnErr};
    ghost use Rattle.era_base.specs.Bytes.{part, splice};
    ghost use Rattle.era_base.specs.CrashModel.{LiesOn, SameBut, Synced, IsClean, IsCrashImage};
    ghost use Rattle.era_disks.specs.Tears.{IsFilled, TakesMemory};
    ghost use Rattle.era_disks.specs.MemDisk.{state_of, synced_of, blank_state, IsMarked, OnlyMarks};

    /// Sectors that are zero, of which none is pending.
    pub fn new(alloc: Global, sectors: usize) -> Result<MemState, Memory>
        ensures state { IfOk result (λ state. state_of state ≡ blank_state sectors) }
        ensures synced { IfOk result (λ state. synced_of state ≡ (state_of state).seen) }
        ensures size { IfOk result (λ state. length state.rows.items ≡ sectors) }
    {
        let rows = empty_rows(alloc, sectors)?;
        let pending = vec![in alloc; false; sectors]?;
        let kept = none_kept(alloc, sectors)?;
        Ok(MemState {
            rows,
            pending,
            kept,
        })
    }

    /// Reads whole sectors.
    pub fn read(&self, first: usize, into: &mut [u8])
        requires { LiesOn (length self.now.rows.items) first (length into.old) }
        ensures { into.new ≡ part (first * 512) (length into.old) (state_of self.now).seen }
    {
        let sectors = into.len() / 512;
        read_rows(&self.rows[first..first + sectors], into);
    }

    /// Marks sectors as pending.
    pub fn mark(&mut self, first: usize, sectors: usize)
        requires { first + sectors ≤ length self.old.rows.items }
        ensures rows { self.new.rows.items ≡ self.old.rows.items }
        ensures same { SameBut (first * 512) (first * 512 + sectors * 512)
            (state_of self.old) (state_of self.new) }
        ensures marked { IsMarked first (sectors * 512) (state_of self.new) }
        ensures marks { OnlyMarks first (sectors * 512) (state_of self.old) (state_of self.new) }
        ensures flags { take sectors (drop first self.new.pending.items) ≡ replicate sectors true }
        ensures synced { synced_of self.new ≡ synced_of self.old }
    {
        forget_rows(
            &self.pending[first..first + sectors],
            &mut self.kept[first..first + sectors],
        );
        self.pending[first..first + sectors].fill(true);
    }

    /// Writes whole sectors, and marks none. Where memory is refused, a front of them may be written.
    pub fn put(&mut self, alloc: Global, first: usize, bytes: &[u8]) -> Result<(), Memory>
        requires lies { LiesOn (length self.old.rows.items) first (length bytes.now) }
        requires marked { take (length bytes.now / 512) (drop first self.old.pending.items)
            ≡ replicate (length bytes.now / 512) true }
        ensures pending { self.new.pending.items ≡ self.old.pending.items }
        ensures size { length self.new.rows.items ≡ length self.old.rows.items }
        ensures written { OnOk result ((state_of self.new).seen
            ≡ splice (state_of self.old).seen (first * 512) bytes.now) }
        ensures same { SameBut (first * 512) (first * 512 + length bytes.now)
            (state_of self.old) (state_of self.new) }
        ensures synced { synced_of self.new ≡ synced_of self.old }
    {
        let sectors = bytes.len() / 512;
        let kept = &mut self.kept[first..first + sectors];
        write_rows(alloc, kept, &mut self.rows[first..first + sectors], bytes)
    }

    /// Leaves no sector pending.
    pub fn clean(&mut self)
        ensures rows { self.new.rows.items ≡ self.old.rows.items }
        ensures synced { Synced (state_of self.old) (state_of self.new) }
        ensures kept { synced_of self.new ≡ (state_of self.new).seen }
    {
        self.pending.as_mut_slice().fill(false);
    }

    /// Becomes one of its crash images. Where memory is refused, which may be so for `Fill` alone, a front of the
    /// sectors is torn, and those that were pending still are.
    pub fn crash(&mut self, alloc: Global, tear: Tear) -> Result<(), Memory>
        ensures image { IsCrashImage (state_of self.old) (state_of self.new).seen }
        ensures size { length self.new.rows.items ≡ length self.old.rows.items }
        ensures clean { OnOk result (IsClean (state_of self.new)
            × (synced_of self.new ≡ (state_of self.new).seen)) }
        ensures keep { tear ≡ Tear.Keep
            → OnOk result ((state_of self.new).seen ≡ (state_of self.old).seen) }
        ensures old { tear ≡ Tear.Old → OnOk result ((state_of self.new).seen
            ≡ synced_of self.old) }
        ensures fill { (byte : ℕ) → tear ≡ Tear.Fill byte
            → OnOk result (IsFilled byte (state_of self.old) (state_of self.new).seen) }
        ensures full { OnErr result (TakesMemory tear) }
    {
        tear_rows(
            alloc,
            tear,
            self.pending.as_slice(),
            self.kept.as_mut_slice(),
            self.rows.as_mut_slice(),
        )?;
        self.clean();
        Ok(())
    }
}
