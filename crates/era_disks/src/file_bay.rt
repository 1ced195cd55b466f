//! A bay over files: a device is an image file or a block device, by its path. Each one is locked once, as long as the bay
//! lives, so that no other program serves it, and is opened anew for each part, so that each part is told of a lost write.

ghost use Rattle.std.specs.Prelude.{◌≡◌, ◌+◌, ◌≤◌, ℕ, List, [], None, Some, IfOk, IsTrue, OnOk, OnErr, ◌++◌, ◌∷◌};
ghost use Rattle.std.specs.List.{find};
ghost use Rattle.std.specs.Option.{option_copied};
ghost use Rattle.era_base.specs.Bay.{IsFree, IsOut, EndsLoan, KeepsSizes, HasBayCause, new_loan};
ghost use Rattle.era_base.specs.Faults.{Rose};
ghost use Rattle.era_disks.specs.ImageFiles.{is_named, size_in, failed_in, KeepsKnown};
ghost use Rattle.era_disks.specs.SyncFlags.{has_failed};
ghost use Rattle.era_disks.specs.FileDisk.{place_of, sectors_of, is_stopped};
ghost use Rattle.era_disks.specs.Loans.{loans_of};

use crate::file_disk::FileDisk;
use crate::file_refusal::FileRefusal;
use crate::image_file::ImageFile;
use crate::loans::Loans;
use crate::sync_flag::SyncFlag;
use era_base::{Bay, BayError, Disk, Memory, Name};
use std::alloc::Global;
use std::fs::{File, Files};
use std::io;

/// Images by their paths. The bay outlives the disks that it lends.
#[derive(Drop)]
pub struct FileBay<R: Files<File = File> + Drop> {
    rt: R,
    alloc: Global,
    devices: Vec<ImageFile>,
    loans: Loans<FileDisk>,
    faults: u64,
    first: Option<(Name, io::Error)>,
}

impl<R: Files<File = File> + Drop> FileBay<R> {
    /// A bay that has looked at no device yet. It takes no memory.
    pub fn new(rt: R, alloc: Global) -> FileBay<R>
        ensures faults { result.faults ≡ 0 }
        ensures sizes { (name : List ℕ) → size_in result.devices.items name ≡ None }
        ensures loans { loans_of result.loans.entries.items ≡ [] }
    {
        FileBay {
            rt,
            alloc,
            devices: Vec::new(alloc),
            loans: Loans::new(alloc),
            faults: 0,
            first: None,
        }
    }

    /// The device that failed first, or whose disk came back with a failure, and the system's reason.
    pub fn first_failure(&self) -> Option<&(Name, io::Error)>
        ensures { option_copied result ≡ self.now.first }
    {
        self.first.as_ref()
    }

    /// Lends a range of a device that no disk which is out has a sector of.
    fn lend(&mut self, name: &str, first: u64, sectors: u64) -> Result<FileDisk, FileRefusal>
        ensures place { IfOk result (λ disk. (place_of disk
            ≡ record { device = name.now; first = first }) × (sectors_of disk ≡ sectors)) }
        ensures stopped { IfOk result (λ disk. IsTrue (failed_in self.old.devices.items name.now)
            → IsTrue (is_stopped disk)) }
        ensures free { OnOk result (IsFree place_of sectors_of
            (loans_of self.old.loans.entries.items) name.now first sectors) }
        ensures loans { IfOk result (λ disk. loans_of self.new.loans.entries.items
            ≡ loans_of self.old.loans.entries.items ++ new_loan disk ∷ []) }
        ensures refused { OnErr result (loans_of self.new.loans.entries.items
            ≡ loans_of self.old.loans.entries.items) }
        ensures known { KeepsKnown self.old.devices.items self.new.devices.items }
        ensures faults { self.new.faults ≡ self.old.faults }
    {
        let device = Name::from_text(self.alloc, name)?;
        let loan_device = Name::from_text(self.alloc, name)?;
        self.loans.reserve()?;
        look(&self.rt, self.alloc, &mut self.devices, name)?;
        if !self.loans.is_free(name, first, sectors) {
            let reason = io::Error::new(io::ErrorKind::ResourceBusy, "lent already");
            return Err(FileRefusal::System(device, reason));
        }
        let disk = part_of(&self.rt, self.devices.as_slice(), device, first, sectors)?;
        self.loans.begin(loan_device, first, &disk);
        Ok(disk)
    }

    /// What the bay answers where it can't open a device. The first failure is kept.
    fn refuse(&mut self, refusal: FileRefusal) -> BayError
        ensures later { self.old.faults ≤ self.new.faults }
        ensures memory { result ≡ BayError.Memory → self.new.faults ≡ self.old.faults }
        ensures failed { result ≡ BayError.Failed → Rose self.old.faults self.new.faults }
        ensures devices { self.new.devices ≡ self.old.devices }
        ensures loans { self.new.loans ≡ self.old.loans }
    {
        match refusal {
            FileRefusal::Memory => BayError::Memory,
            FileRefusal::System(name, reason) => {
                self.faults = self.faults.saturating_add(1);
                if self.first.is_none() {
                    self.first = Some((name, reason));
                }
                BayError::Failed
            }
        }
    }
}

impl<R: Files<File = File> + Drop> Bay for FileBay<R> {
    type D = FileDisk;

    ghost sizes = { λ b. size_in b.devices.items };

    ghost reads = { λ _ _ _. None };

    ghost loans = { λ b. loans_of b.loans.entries.items };

    ghost faults = { λ b. b.faults };

    fn size(&mut self, name: &str) -> Result<u64, BayError>
        ensures told { IfOk result (λ size. size_in self.new.devices.items name.now ≡ Some size) }
        ensures known { KeepsKnown self.old.devices.items self.new.devices.items }
        ensures loans { loans_of self.new.loans.entries.items
            ≡ loans_of self.old.loans.entries.items }
        ensures cause { HasBayCause self.old.faults self.new.faults result }
    {
        match look(&self.rt, self.alloc, &mut self.devices, name) {
            Ok(size) => Ok(size),
            Err(refusal) => Err(self.refuse(refusal)),
        }
    }

    fn open_meta(&mut self, name: &str) -> Result<FileDisk, BayError>
        ensures lent { IfOk result (λ disk. place_of disk
            ≡ record { device = name.now; first = 0 }) }
        ensures whole { IfOk result (λ disk. size_in self.new.devices.items name.now
            ≡ Some (sectors_of disk)) }
        ensures stopped { IfOk result (λ disk. IsTrue (failed_in self.old.devices.items name.now)
            → IsTrue (is_stopped disk)) }
        ensures free { IfOk result (λ disk. IsFree place_of sectors_of
            (loans_of self.old.loans.entries.items) name.now 0 (sectors_of disk)) }
        ensures loans { IfOk result (λ disk. loans_of self.new.loans.entries.items
            ≡ loans_of self.old.loans.entries.items ++ new_loan disk ∷ []) }
        ensures refused { OnErr result (loans_of self.new.loans.entries.items
            ≡ loans_of self.old.loans.entries.items) }
        ensures known { KeepsKnown self.old.devices.items self.new.devices.items }
        ensures cause { HasBayCause self.old.faults self.new.faults result }
    {
        let size = self.size(name)?;
        self.open_part(name, 0, size)
    }

    fn open_part(&mut self, name: &str, first: u64, sectors: u64) -> Result<FileDisk, BayError>
        ensures lent { IfOk result (λ disk. (place_of disk
            ≡ record { device = name.now; first = first }) × (sectors_of disk ≡ sectors)) }
        ensures stopped { IfOk result (λ disk. IsTrue (failed_in self.old.devices.items name.now)
            → IsTrue (is_stopped disk)) }
        ensures free { OnOk result (IsFree place_of sectors_of
            (loans_of self.old.loans.entries.items) name.now first sectors) }
        ensures loans { IfOk result (λ disk. loans_of self.new.loans.entries.items
            ≡ loans_of self.old.loans.entries.items ++ new_loan disk ∷ []) }
        ensures refused { OnErr result (loans_of self.new.loans.entries.items
            ≡ loans_of self.old.loans.entries.items) }
        ensures known { KeepsKnown self.old.devices.items self.new.devices.items }
        ensures cause { HasBayCause self.old.faults self.new.faults result }
    {
        match self.lend(name, first, sectors) {
            Ok(disk) => Ok(disk),
            Err(refusal) => Err(self.refuse(refusal)),
        }
    }

    fn put_back(&mut self, disk: FileDisk)
        requires { (index : ℕ) × IsOut place_of sectors_of (loans_of self.old.loans.entries.items)
            (place_of disk) (sectors_of disk) index }
        ensures loans { EndsLoan place_of sectors_of disk
            (loans_of self.old.loans.entries.items) (loans_of self.new.loans.entries.items) }
        ensures learned { (size : ℕ) → size_in self.old.devices.items disk.device ≡ Some size
            → IsTrue (is_stopped disk) → IsTrue (failed_in self.new.devices.items disk.device) }
        ensures known { KeepsKnown self.old.devices.items self.new.devices.items }
        ensures same { self.new.faults ≡ self.old.faults }
    {
        self.loans.end(disk.device(), disk.first(), &disk);
        learn(self.devices.as_mut_slice(), disk.device(), disk.syncs());
        let failure = disk.into_failure();
        if self.first.is_none() {
            self.first = failure;
        }
    }

    fn faults(&self) -> u64 {
        self.faults
    }
}

/// The first device of a name that the bay has looked at.
fn device_of<'a>(devices: &'a [ImageFile], name: &str) -> Option<&'a ImageFile>
    ensures { option_copied result ≡ find (is_named name.now) devices.now }
{
    devices.iter().find(|device| device.name.as_str() == name)
}

/// The size of a device that the bay has looked at.
fn size_of(devices: &[ImageFile], name: &str) -> Option<u64>
    ensures { result ≡ size_in devices.now name.now }
{
    match device_of(devices, name) {
        Some(device) => Some(device.sectors),
        None => None,
    }
}

/// The size of a device, which is opened and locked where the bay hasn't looked at it yet.
fn look<R: Files<File = File>>(
    rt: &R,
    alloc: Global,
    devices: &mut Vec<ImageFile>,
    name: &str,
) -> Result<u64, FileRefusal>
    ensures told { IfOk result (λ size. size_in devices.new.items name.now ≡ Some size) }
    ensures known { KeepsKnown devices.old.items devices.new.items }
{
    if let Some(sectors) = size_of(devices, name) {
        return Ok(sectors);
    }
    let device = ImageFile::open(rt, alloc, Name::from_text(alloc, name)?)?;
    let sectors = device.sectors;
    add(devices, device)?;
    Ok(sectors)
}

/// Adds a device behind the others.
fn add(devices: &mut Vec<ImageFile>, device: ImageFile) -> Result<(), Memory>
    ensures ok { OnOk result (devices.new.items ≡ devices.old.items ++ device ∷ []) }
    ensures err { OnErr result (devices.new.items ≡ devices.old.items) }
{
    devices.push(device)?;
    Ok(())
}

/// A part of a device that the bay has looked at, opened anew.
fn part_of<R: Files<File = File>>(
    rt: &R,
    devices: &[ImageFile],
    name: Name,
    first: u64,
    sectors: u64,
) -> Result<FileDisk, FileRefusal>
    ensures place { IfOk result (λ disk. (place_of disk
        ≡ record { device = name; first = first }) × (sectors_of disk ≡ sectors)) }
    ensures stopped { IfOk result (λ disk. is_stopped disk ≡ failed_in devices.now name) }
{
    let Some(device) = device_of(devices, name.as_str()) else {
        return Err(FileRefusal::System(name, io::ErrorKind::NotFound.into()));
    };
    let syncs = device.syncs.share()?;
    match device.open_part(rt, first, sectors) {
        Ok(file) => Ok(FileDisk::new(name, first, sectors, file, device.writable, syncs)),
        Err(reason) => Err(FileRefusal::System(name, reason)),
    }
}

/// Learns what a disk of a device knows of its syncs.
fn learn(devices: &mut [ImageFile], name: &str, syncs: &SyncFlag)
    ensures learned { (size : ℕ) → size_in devices.old name.now ≡ Some size
        → IsTrue (has_failed syncs.now) → IsTrue (failed_in devices.new name.now) }
    ensures known { KeepsKnown devices.old devices.new }
{
    if let Some((device, rest)) = devices.split_first_mut() {
        if device.name.as_str() == name {
            device.syncs.learn(syncs);
        } else {
            learn(rest, name, syncs);
        }
    }
}
