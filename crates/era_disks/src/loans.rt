//! The loans of a bay. Their disks take no bytes here; their places do.

ghost use Rattle.std.specs.Prelude.{◌≡◌, Some, ◌<◌, ◌++◌, [], ◌∷◌, ℕ, vec_len, vec_capacity, IsTrue, OnOk, IfSome, IfNone, slice_get};
ghost use Rattle.std.specs.Bool.{OnTrue, OnFalse};
ghost use Rattle.era_base.specs.Disk.{Place};
ghost use Rattle.era_base.specs.Bay.{new_loan, IsOut, IsFree, EndsLoan};
ghost use Rattle.era_disks.specs.declared.loan_entry.LoanEntry.{LoanEntry};
ghost use Rattle.era_disks.specs.Loans.{loans_of, IsEntryPlaced, IsOutAt, IsLastOut, Blocks};

use crate::loan_entry::LoanEntry;
use era_base::{Disk, Memory, Name};
use std::alloc::Global;
use std::snapshot::Snapshot;

/// All loans of a bay, in the order in which they began.
#[derive(Drop)]
pub struct Loans<D: Disk> {
    pub entries: Vec<LoanEntry<D>>,
    pub ghost placed: { (index : ℕ) (entry : LoanEntry D) → slice_get entries.items index ≡ Some entry
        → IsEntryPlaced D.place D.sectors entry },
}

impl<D: Disk> Loans<D> {
    /// No loans. It takes no memory.
    pub fn new(alloc: Global) -> Loans<D>
        ensures { loans_of result.entries.items ≡ [] }
    {
        Loans {
            entries: Vec::new(alloc),
        }
    }

    /// Makes room for one more loan.
    pub fn reserve(&mut self) -> Result<(), Memory>
        ensures room { OnOk result (vec_len self.new.entries < vec_capacity self.new.entries) }
        ensures same { self.new.entries.items ≡ self.old.entries.items }
    {
        self.entries.reserve(1)?;
        Ok(())
    }

    /// Begins the loan of a disk. It takes no memory.
    pub fn begin(&mut self, device: Name, first: u64, disk: &D)
        requires room { vec_len self.old.entries < vec_capacity self.old.entries }
        requires place { D.place disk.now ≡ record { device = device; first = first } }
        ensures { loans_of self.new.entries.items ≡ loans_of self.old.entries.items
            ++ new_loan disk.now ∷ [] }
    {
        let entry = LoanEntry {
            device,
            first,
            sectors: disk.sectors(),
            lent: Snapshot::of(disk),
            back: None,
        };
        match self.entries.push(entry) {
            Ok(()) => {}
            Err(_) => unreachable!(),
        }
    }

    /// Whether no disk that is out has one of `count` sectors from `first` on of the device.
    pub fn is_free(&self, device: &str, first: u64, count: u64) -> bool
        ensures free { OnTrue result
            (IsFree D.place D.sectors (loans_of self.now.entries.items) device.now first count) }
        ensures lent { OnFalse result (IsFree D.place D.sectors
            (loans_of self.now.entries.items) device.now first count → ⊥) }
    {
        match first_blocking(self.entries.as_slice(), device, first, count) {
            Some(_) => false,
            None => true,
        }
    }

    /// Ends the last loan that is out at the disk's place. It takes no memory.
    pub fn end(&mut self, device: &str, first: u64, disk: &D)
        requires place { D.place disk.now ≡ record { device = device.now; first = first } }
        requires out { (index : ℕ) × IsOut D.place D.sectors (loans_of self.old.entries.items)
            (D.place disk.now) (D.sectors disk.now) index }
        ensures { EndsLoan D.place D.sectors disk.now
            (loans_of self.old.entries.items) (loans_of self.new.entries.items) }
    {
        match last_out(self.entries.as_slice(), device, first, disk.sectors()) {
            Some(index) => {
                self.entries[index].back = Some(Snapshot::of(disk));
            }
            None => unreachable!(),
        }
    }
}

/// The index of the first entry whose disk is out and has a sector of the range.
fn first_blocking<D>(
    entries: &[LoanEntry<D>],
    device: &str,
    first: u64,
    count: u64,
) -> Option<usize>
    ensures some { IfSome result (λ index. (entry : LoanEntry D)
        × (slice_get entries.now index ≡ Some entry)
        × Blocks device.now first count entry) }
    ensures none { IfNone result ((index : ℕ) (entry : LoanEntry D)
        → slice_get entries.now index ≡ Some entry
        → Blocks device.now first count entry → ⊥) }
{
    for index in 0..entries.len() {
        if entries[index].blocks(device, first, count) {
            return Some(index);
        }
    }
    None
}

/// The index of the last entry whose disk is out and has this place and so many sectors.
fn last_out<D>(entries: &[LoanEntry<D>], device: &str, first: u64, sectors: u64) -> Option<usize>
    ensures some { IfSome result (λ index. IsLastOut entries.now device.now first sectors index) }
    ensures none { IfNone result ((index : ℕ) (entry : LoanEntry D)
        → slice_get entries.now index ≡ Some entry
        → IsOutAt device.now first sectors entry → ⊥) }
{
    for index in (0..entries.len()).rev() {
        if entries[index].is_out_at(device, first, sectors) {
            return Some(index);
        }
    }
    None
}
