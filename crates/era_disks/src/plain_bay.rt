//! A bay in memory whose disks never fail. A lent disk has a copy of its sectors, and `put_back` writes them into the
//! device.

ghost use Rattle.std.specs.Prelude.{◌≡◌, ◌+◌, ◌*◌, ◌≤◌, IfOk};
ghost use Rattle.era_base.specs.Bytes.{part, splice};
ghost use Rattle.era_disks.specs.Loans.{loans_of};
ghost use Rattle.era_disks.specs.PlainDisk.{plain_place, plain_sectors, plain_history, IsUnused};
ghost use Rattle.era_disks.specs.PlainPast.{plain_state};
ghost use Rattle.era_disks.specs.PlainDevices.{LieOnPlain};

use crate::loans::Loans;
use crate::plain_disk::PlainDisk;
use era_base::{Bay, BayError, Bytes, Disk, Memory, Name};
use std::alloc::Global;
use std::collections::BTreeMap;

/// Devices in memory, by name, and the loans of them. Each device is a plain disk of all its sectors. A call fails only
/// for a name that the bay doesn't hold, and for sectors that are lent.
#[derive(Drop)]
pub struct PlainBay {
    alloc: Global,
    devices: BTreeMap<String, PlainDisk>,
    loans: Loans<PlainDisk>,
    faults: u64,
    ghost within: { LieOnPlain devices (loans_of loans.entries.items) },
}

impl PlainBay {
    ghost use Rattle.std.specs.Prelude.{◌≡◌, ℕ, List, ◌+◌, ◌*◌, ◌≤◌, [], ◌∷◌, ◌++◌, replicate, Some, None, IfOk, IfSome, IfNone, OnOk, OnErr, IsErrOf, ◌↔◌};
    ghost use Rattle.std.specs.BTreeMap.{get_by_text};
    ghost use Rattle.era_base.specs.Bay.{new_loan, HasContent, EndsLoan};
    ghost use Rattle.era_disks.specs.Calls.{one_more};
    ghost use Rattle.era_disks.specs.PlainDisk.{plain_place, plain_sectors};
    ghost use Rattle.era_disks.specs.PlainDevices.{plain_length};
    ghost use Rattle.era_disks.specs.PlainBay.{plain_sizes, plain_reads, plain_loans, plain_faults, SameDevices, HoldsPart, IsFreeIn, IsPlainPart, IsOutOf, TakesIn, CountsRefusal};

    /// A bay that holds no device. It takes no memory.
    pub fn new(alloc: Global) -> PlainBay
        ensures none { (name : List ℕ) → plain_sizes result name ≡ None }
        ensures loans { plain_loans result ≡ [] }
        ensures faults { plain_faults result ≡ 0 }
    {
        PlainBay {
            alloc,
            devices: BTreeMap::new(alloc),
            loans: Loans::new(alloc),
            faults: 0,
        }
    }

    /// Adds a device of `sectors` sectors of zeros. Where memory is refused, the bay holds what it held before.
    pub fn add(&mut self, name: &str, sectors: u64) -> Result<(), Memory>
        requires { plain_sizes self.old name.now ≡ None }
        ensures size { OnOk result (plain_sizes self.new name.now ≡ Some sectors) }
        ensures zeros { OnOk result
            (HasContent (plain_reads self.new) name.now sectors (replicate (sectors * 512) 0)) }
        ensures others { (other : List ℕ) → (other ≡ name.now → ⊥)
            → get_by_text self.new.devices other ≡ get_by_text self.old.devices other }
        ensures err { OnErr result (SameDevices self.old self.new) }
        ensures rest { (plain_loans self.new ≡ plain_loans self.old)
            × (plain_faults self.new ≡ plain_faults self.old) }
    {
        let key = String::from_str(self.alloc, name)?;
        let device = PlainDisk::new(self.alloc, name, sectors)?;
        match self.devices.insert(key, device) {
            Ok(_) => Ok(()),
            Err(_) => Err(Memory),
        }
    }

    /// The bytes of a device that the bay holds, and `None` for any other name.
    pub fn content(&self, alloc: Global, name: &str) -> Result<Option<Bytes>, Memory>
        ensures held { IfOk result (λ held. IfSome held (λ bytes.
            (sectors : ℕ) × (plain_sizes self.now name.now ≡ Some sectors)
            × HasContent (plain_reads self.now) name.now sectors bytes)) }
        ensures none { IfOk result (λ held. IfNone held (plain_sizes self.now name.now ≡ None)) }
    {
        match self.devices.get(name) {
            Some(device) => Ok(Some(Bytes::from_slice(alloc, device.bytes())?)),
            None => Ok(None),
        }
    }

    /// The number of sectors of a device.
    fn size_of(&self, name: &str) -> Option<u64>
        ensures { result ≡ plain_sizes self.now name.now }
    {
        match self.devices.get(name) {
            Some(device) => Some(device.sectors()),
            None => None,
        }
    }

    /// One more failure.
    fn refuse<T>(&mut self) -> Result<T, BayError>
        ensures failed { IsErrOf result BayError.Failed }
        ensures cause { CountsRefusal self.old self.new result }
        ensures counted { self.new ≡ record self.old { faults = one_more self.old.faults } }
    {
        self.faults = self.faults.saturating_add(1);
        Err(BayError::Failed)
    }

    /// Lends a part of a device.
    fn lend(&mut self, name: &str, first: u64, sectors: u64) -> Result<PlainDisk, Memory>
        requires { HoldsPart self.old name.now first sectors }
        ensures lent { IfOk result (λ disk. IsPlainPart self.old name.now first sectors disk) }
        ensures loans { IfOk result (λ disk.
            plain_loans self.new ≡ plain_loans self.old ++ new_loan disk ∷ []) }
        ensures err { OnErr result (plain_loans self.new ≡ plain_loans self.old) }
        ensures rest { (self.new.devices ≡ self.old.devices)
            × (plain_faults self.new ≡ plain_faults self.old) }
    {
        self.loans.reserve()?;
        let device = Name::from_text(self.alloc, name)?;
        let Some(whole) = self.devices.get(name) else {
            unreachable!();
        };
        let disk = copy_part(self.alloc, whole, name, first, sectors)?;
        self.loans.begin(device, first, &disk);
        Ok(disk)
    }

    /// Lends a part of a device, where no sector of it is lent.
    fn open_at(&mut self, name: &str, first: u64, sectors: u64) -> Result<PlainDisk, BayError>
        requires { HoldsPart self.old name.now first sectors }
        ensures lent { IfOk result (λ disk. IsPlainPart self.old name.now first sectors disk) }
        ensures free { OnOk result (IsFreeIn self.old name.now first sectors) }
        ensures loans { IfOk result (λ disk.
            plain_loans self.new ≡ plain_loans self.old ++ new_loan disk ∷ []) }
        ensures refused { OnErr result (plain_loans self.new ≡ plain_loans self.old)
            × (IsErrOf result BayError.Failed ↔ (IsFreeIn self.old name.now first sectors → ⊥)) }
        ensures cause { CountsRefusal self.old self.new result }
        ensures same { self.new.devices ≡ self.old.devices }
    {
        if self.loans.is_free(name, first, sectors) {
            match self.lend(name, first, sectors) {
                Ok(disk) => Ok(disk),
                Err(Memory) => Err(BayError::Memory),
            }
        } else {
            self.refuse()
        }
    }

    /// Ends the last loan that is out at the disk's place.
    fn end_loan(&mut self, disk: &PlainDisk)
        requires { IsOutOf self.old disk.now }
        ensures loans { EndsLoan plain_place plain_sectors disk.now
            (plain_loans self.old) (plain_loans self.new) }
        ensures rest { (self.new.devices ≡ self.old.devices)
            × (plain_faults self.new ≡ plain_faults self.old) }
    {
        self.loans.end(disk.device(), disk.first(), disk);
    }

    /// Writes the sectors of a disk into its device.
    fn take_in(&mut self, disk: &PlainDisk)
        requires { (plain_place disk.now).first + plain_sectors disk.now
            ≤ plain_length (get_by_text self.old.devices (plain_place disk.now).device) }
        ensures taken { TakesIn self.old self.new disk.now }
        ensures rest { (plain_loans self.new ≡ plain_loans self.old)
            × (plain_faults self.new ≡ plain_faults self.old) }
    {
        match self.devices.get_mut(disk.device()) {
            Some(device) => write_part(device, disk),
            None => {}
        }
    }
}

impl Bay for PlainBay {
    ghost use Rattle.std.specs.Prelude.{◌≡◌, ◌↔◌, ℕ, ◌+◌, ◌≤◌, [], ◌∷◌, ◌++◌, Some, None, IfOk, OnOk, OnErr, IsErrOf};
    ghost use Rattle.era_base.specs.Bay.{new_loan, EndsLoan};
    ghost use Rattle.era_disks.specs.PlainDisk.{plain_place, plain_sectors};
    ghost use Rattle.era_disks.specs.PlainBay.{plain_sizes, plain_reads, plain_loans, plain_faults, SameDevices, IsFreeIn, IsPlainPart, IsOutOf, TakesIn, IsKeptBack, CountsRefusal};

    type D = PlainDisk;

    ghost sizes = { plain_sizes };

    ghost reads = { plain_reads };

    ghost loans = { plain_loans };

    ghost faults = { plain_faults };

    fn size(&mut self, name: &str) -> Result<u64, BayError>
        ensures told { IfOk result (λ size. plain_sizes self.new name.now ≡ Some size) }
        ensures same { SameDevices self.old self.new }
        ensures loans { plain_loans self.new ≡ plain_loans self.old }
        ensures cause { CountsRefusal self.old self.new result }
        ensures refused { IsErrOf result BayError.Failed ↔ (plain_sizes self.old name.now ≡ None) }
        ensures never { IsErrOf result BayError.Memory → ⊥ }
    {
        match self.size_of(name) {
            Some(size) => Ok(size),
            None => self.refuse(),
        }
    }

    fn open_meta(&mut self, name: &str) -> Result<PlainDisk, BayError>
        ensures lent { IfOk result (λ disk.
            IsPlainPart self.old name.now 0 (plain_sectors disk) disk) }
        ensures whole { IfOk result (λ disk.
            plain_sizes self.new name.now ≡ Some (plain_sectors disk)) }
        ensures free { IfOk result (λ disk. IsFreeIn self.old name.now 0 (plain_sectors disk)) }
        ensures loans { IfOk result (λ disk.
            plain_loans self.new ≡ plain_loans self.old ++ new_loan disk ∷ []) }
        ensures refused { OnErr result (plain_loans self.new ≡ plain_loans self.old)
            × (IsErrOf result BayError.Failed ↔ IsKeptBack self.old name.now 0 (λ size. size)) }
        ensures same { SameDevices self.old self.new }
        ensures cause { CountsRefusal self.old self.new result }
    {
        match self.size_of(name) {
            Some(sectors) => self.open_at(name, 0, sectors),
            None => self.refuse(),
        }
    }

    fn open_part(&mut self, name: &str, first: u64, sectors: u64) -> Result<PlainDisk, BayError>
        requires { (size : ℕ) → plain_sizes self.old name.now ≡ Some size → first + sectors ≤ size }
        ensures lent { IfOk result (λ disk. IsPlainPart self.old name.now first sectors disk) }
        ensures free { OnOk result (IsFreeIn self.old name.now first sectors) }
        ensures loans { IfOk result (λ disk.
            plain_loans self.new ≡ plain_loans self.old ++ new_loan disk ∷ []) }
        ensures refused { OnErr result (plain_loans self.new ≡ plain_loans self.old)
            × (IsErrOf result BayError.Failed ↔ IsKeptBack self.old name.now first (λ _. sectors)) }
        ensures same { SameDevices self.old self.new }
        ensures cause { CountsRefusal self.old self.new result }
    {
        match self.size_of(name) {
            Some(_) => self.open_at(name, first, sectors),
            None => self.refuse(),
        }
    }

    fn put_back(&mut self, disk: PlainDisk)
        requires { IsOutOf self.old disk }
        ensures loans { EndsLoan plain_place plain_sectors disk
            (plain_loans self.old) (plain_loans self.new) }
        ensures taken { TakesIn self.old self.new disk }
        ensures same { plain_faults self.new ≡ plain_faults self.old }
    {
        self.end_loan(&disk);
        self.take_in(&disk);
    }

    fn faults(&self) -> u64 {
        self.faults
    }
}

/// A copy of a part of a whole device, at its place in it.
fn copy_part(
    alloc: Global,
    whole: &PlainDisk,
    name: &str,
    first: u64,
    sectors: u64,
) -> Result<PlainDisk, Memory>
    requires { first + sectors ≤ plain_sectors whole.now }
    ensures place { IfOk result (λ disk.
        plain_place disk ≡ record { device = name.now; first = first }) }
    ensures size { IfOk result (λ disk. (plain_sectors disk ≡ sectors) × IsUnused disk) }
    ensures content { IfOk result (λ disk. (plain_history disk).now
        ≡ plain_state (part (first * 512) (sectors * 512) (plain_history whole.now).now.seen)) }
{
    let device = Name::from_text(alloc, name)?;
    let from = first as usize * 512;
    let size = sectors as usize * 512;
    let bytes = Vec::from_slice(alloc, &whole.bytes()[from..from + size])?;
    Ok(PlainDisk::of(device, first, sectors, bytes))
}

/// Writes a part at its place in a whole device. It takes no memory.
fn write_part(whole: &mut PlainDisk, disk: &PlainDisk)
    requires { (plain_place disk.now).first + plain_sectors disk.now ≤ plain_sectors whole.old }
    ensures size { plain_sectors whole.new ≡ plain_sectors whole.old }
    ensures written { (plain_history whole.new).now.seen
        ≡ splice (plain_history whole.old).now.seen ((plain_place disk.now).first * 512)
        (plain_history disk.now).now.seen }
{
    if disk.sectors() == 0 {
        return;
    }
    match whole.write(disk.first(), disk.bytes()) {
        Ok(()) => {}
        Err(_) => unreachable!(),
    }
}
