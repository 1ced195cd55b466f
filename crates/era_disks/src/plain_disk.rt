//! A disk in memory that never fails.

ghost use Rattle.std.specs.Prelude.{◌≡◌, ◌*◌, length};

use crate::plain_past::PlainPast;
use era_base::{Disk, Failed, Memory, Name};
use std::alloc::Global;

/// Sectors in one vector, and the place that they have. No sector is ever pending.
#[derive(Drop)]
pub struct PlainDisk {
    device: Name,
    first: u64,
    sectors: u64,
    bytes: Vec<u8>,
    past: PlainPast,
    ghost whole: { length bytes.items ≡ sectors * 512 },
}

impl PlainDisk {
    ghost use Rattle.std.specs.Prelude.{◌≡◌, ◌*◌, [], length, replicate, vec_capacity, IfOk};
    ghost use Rattle.era_disks.specs.PlainDisk.{plain_place, plain_sectors, plain_history, plain_room, IsUnused};
    ghost use Rattle.era_disks.specs.PlainPast.{plain_state};

    /// A whole device of zeros. No later call of it takes memory.
    pub fn new(alloc: Global, name: &str, sectors: u64) -> Result<PlainDisk, Memory>
        ensures place { IfOk result (λ disk. plain_place disk
            ≡ record { device = name.now; first = 0 }) }
        ensures size { IfOk result (λ disk. plain_sectors disk ≡ sectors) }
        ensures zeros { IfOk result (λ disk. (plain_history disk).now.seen
            ≡ replicate (sectors * 512) 0) }
        ensures fresh { IfOk result IsUnused }
    {
        let Some(size) = sectors.checked_mul(512) else {
            return Err(Memory);
        };
        let device = Name::from_text(alloc, name)?;
        let bytes = vec![in alloc; 0; size as usize]?;
        Ok(PlainDisk::of(device, 0, sectors, bytes))
    }

    /// A disk of these bytes at a place. It takes no memory.
    pub fn of(device: Name, first: u64, sectors: u64, bytes: Vec<u8>) -> PlainDisk
        requires { length bytes.items ≡ sectors * 512 }
        ensures place { plain_place result ≡ record { device = device; first = first } }
        ensures size { plain_sectors result ≡ sectors }
        ensures content { plain_history result
            ≡ record { past = []; now = plain_state bytes.items } }
        ensures fresh { IsUnused result }
        ensures room { plain_room result ≡ vec_capacity bytes }
    {
        PlainDisk {
            device,
            first,
            sectors,
            bytes,
            past: PlainPast::Start,
        }
    }

    /// The name of the device that the disk is a part of.
    pub fn device(&self) -> &str
        ensures { result.now ≡ (plain_place self.now).device }
    {
        self.device.as_str()
    }

    /// The first sector of the device that is the disk's.
    pub fn first(&self) -> u64
        ensures { result ≡ (plain_place self.now).first }
    {
        self.first
    }

    /// All bytes of the disk.
    pub fn bytes(&self) -> &[u8]
        ensures { result.now ≡ (plain_history self.now).now.seen }
    {
        self.bytes.as_slice()
    }
}

impl Disk for PlainDisk {
    ghost use Rattle.std.specs.Prelude.{◌≡◌, true, length, IsOk};
    ghost use Rattle.era_base.specs.CrashModel.{LiesOn, IsClean};
    ghost use Rattle.era_base.specs.Disk.{Reads, Writes, Syncs};
    ghost use Rattle.era_base.specs.Faults.{HasCause};
    ghost use Rattle.era_disks.specs.PlainDisk.{plain_place, plain_sectors, plain_history, plain_room};
    ghost use Rattle.era_disks.specs.PlainPast.{plain-whole};

    ghost tells = { true };

    ghost place = { plain_place };

    ghost sectors = { plain_sectors };

    ghost history = { plain_history };

    ghost faults = { λ _. 0 };

    fn sectors(&self) -> u64 {
        self.sectors
    }

    fn read(&mut self, first: u64, into: &mut [u8]) -> Result<(), Failed>
        requires { LiesOn (plain_sectors self.old) first (length into.old) }
        ensures told { Reads first into.new result
            (plain_history self.old) (plain_history self.new) }
        ensures size { plain_sectors self.new ≡ plain_sectors self.old }
        ensures place { plain_place self.new ≡ plain_place self.old }
        ensures cause { HasCause 0 0 result }
        ensures never { IsOk result × (plain_room self.new ≡ plain_room self.old) }
    {
        self.past.pass(&self.bytes);
        let from = first as usize * 512;
        into.copy_from_slice(&self.bytes[from..from + into.len()]);
        Ok(())
    }

    fn write(&mut self, first: u64, bytes: &[u8]) -> Result<(), Failed>
        requires { LiesOn (plain_sectors self.old) first (length bytes.now) }
        ensures told { Writes first bytes.now result
            (plain_history self.old) (plain_history self.new) }
        ensures size { plain_sectors self.new ≡ plain_sectors self.old }
        ensures place { plain_place self.new ≡ plain_place self.old }
        ensures cause { HasCause 0 0 result }
        ensures never { IsOk result × (plain_room self.new ≡ plain_room self.old) }
        ensures clean { IsClean (plain_history self.new).now }
    {
        self.past.pass(&self.bytes);
        let from = first as usize * 512;
        self.bytes[from..from + bytes.len()].copy_from_slice(bytes);
        Ok(())
    }

    fn sync(&mut self) -> Result<(), Failed>
        ensures told { Syncs result (plain_history self.old) (plain_history self.new) }
        ensures size { plain_sectors self.new ≡ plain_sectors self.old }
        ensures place { plain_place self.new ≡ plain_place self.old }
        ensures cause { HasCause 0 0 result }
        ensures never { IsOk result × (plain_room self.new ≡ plain_room self.old) }
    {
        self.past.pass(&self.bytes);
        Ok(())
    }

    fn faults(&self) -> u64 {
        0
    }

    ghost whole = { λ disk told. plain-whole disk.sectors disk.bytes.items disk.whole };
}
