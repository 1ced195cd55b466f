//! A device of a bay over files: an image file or a block device that is open and locked.

ghost use Rattle.std.specs.Prelude.{◌≡◌, ◌+◌, ◌*◌, ◌<◌, ◌^◌, IfOk, OnOk};

use crate::file_refusal::FileRefusal;
use crate::sync_flag::SyncFlag;
use era_base::{Memory, Name};
use std::alloc::Global;
use std::fs::{File, Files, Metadata, OpenOptions, TryLockError};
use std::io::{Seek, SeekFrom};
use std::os::fd::AsRawFd;
use std::os::unix::fs::FileTypeExt;
use std::{fs, io};

/// An image that the bay has looked at, and what is known of its syncs. It is locked as long as the bay lives. Where it
/// may not be written, it is open for reading.
#[derive(Drop)]
pub struct ImageFile {
    pub name: Name,
    pub file: File,
    pub path: String,
    pub writable: bool,
    pub sectors: u64,
    pub syncs: SyncFlag,
    pub ghost limited: { sectors * 512 < 2 ^ 64 },
}

impl ImageFile {
    ghost use Rattle.era_disks.specs.SyncFlags.{has_failed};

    /// Opens an image, and locks it without waiting.
    pub fn open<R: Files<File = File>>(
        rt: &R,
        alloc: Global,
        name: Name,
    ) -> Result<ImageFile, FileRefusal>
        ensures named { IfOk result (λ device. device.name ≡ name) }
    {
        let syncs = SyncFlag::new(alloc)?;
        let (file, writable) = match open_locked(rt, name.as_str()) {
            Ok(opened) => opened,
            Err(reason) => return Err(FileRefusal::System(name, reason)),
        };
        let sectors = match sectors_of(&file) {
            Ok(sectors) => sectors,
            Err(reason) => return Err(FileRefusal::System(name, reason)),
        };
        let path = path_of(alloc, &file)?;
        Ok(ImageFile {
            name,
            file,
            path,
            writable,
            sectors,
            syncs,
        })
    }

    /// Opens the locked image anew, whatever its name is by now, and tells whether it still has all the sectors of a range:
    /// each opening is told once by the system that a write was lost, and so each part needs its own.
    pub fn open_part<R: Files<File = File>>(
        &self,
        rt: &R,
        first: u64,
        sectors: u64,
    ) -> io::Result<File>
        ensures { OnOk result ((first + sectors) * 512 < 2 ^ 64) }
    {
        let file = OpenOptions::new()
            .read(true)
            .write(self.writable)
            .open(rt, self.path.as_str())?;
        let file = beside_streams(file)?;
        let held = self.sectors.min(sectors_of(&file)?);
        if first > held || sectors > held - first {
            let message = "shorter than the range";
            return Err(io::Error::new(io::ErrorKind::UnexpectedEof, message));
        }
        Ok(file)
    }
}

/// The file, locked, and whether it is open for writing.
fn open_locked<R: Files<File = File>>(rt: &R, path: &str) -> io::Result<(File, bool)> {
    let (file, writable) = open_either(rt, path)?;
    let file = beside_streams(file)?;
    if !is_image(&file.metadata()?) {
        return Err(no_image());
    }
    match file.try_lock() {
        Ok(()) => Ok((file, writable)),
        Err(TryLockError::WouldBlock) => {
            let message = "another program has it locked";
            Err(io::Error::new(io::ErrorKind::WouldBlock, message))
        }
        Err(TryLockError::Error(reason)) => Err(reason),
    }
}

/// Opens a file for reading and writing or, where it may not be written, for reading, and tells whether for writing.
fn open_either<R: Files<File = File>>(rt: &R, path: &str) -> io::Result<(File, bool)> {
    match OpenOptions::new().read(true).write(true).open(rt, path) {
        Ok(file) => Ok((file, true)),
        Err(reason) if forbids_writing(reason.kind()) => {
            // A pipe would keep the call waiting.
            if !is_image(&fs::metadata(rt, path)?) {
                return Err(no_image());
            }
            Ok((File::open(rt, path)?, false))
        }
        Err(reason) => Err(reason),
    }
}

/// Whether a file can't be opened for writing, but maybe for reading.
fn forbids_writing(kind: io::ErrorKind) -> bool {
    kind == io::ErrorKind::PermissionDenied || kind == io::ErrorKind::ReadOnlyFilesystem
}

/// Whether a file is one that the bay serves.
fn is_image(metadata: &Metadata) -> bool {
    metadata.is_file() || metadata.file_type().is_block_device()
}

/// Why a file that isn't an image is refused.
fn no_image() -> io::Error {
    let message = "neither a regular file nor a block device";
    io::Error::new(io::ErrorKind::Unsupported, message)
}

/// The file, at none of the numbers of the standard streams: what is meant for one that was closed must not land in an
/// image, nor come from it.
fn beside_streams(file: File) -> io::Result<File> {
    if file.as_raw_fd() <= 2 {
        file.try_clone()
    } else {
        Ok(file)
    }
}

/// The whole sectors of a file or a block device.
fn sectors_of(mut file: &File) -> io::Result<u64>
    ensures { IfOk result (λ sectors. sectors * 512 < 2 ^ 64) }
{
    Ok(file.seek(SeekFrom::End(0))? / 512)
}

/// Where this process opens the same file anew, as long as it is open.
fn path_of(alloc: Global, file: &File) -> Result<String, Memory> {
    let number = file.as_raw_fd();
    Ok(format!(in alloc; "/proc/self/fd/{number}")?)
}
