//! A fuse: the write at which all disks of a bay stop. That it has burnt goes from a disk to the others through a flag
//! that they share, of which contracts know nothing, and through the bay with each disk that is put back.

ghost use Rattle.std.specs.Prelude.{◌≡◌, ◌↔◌, ◌+◌, true, IfOk};
ghost use Rattle.era_disks.specs.Calls.{one_more};
ghost use Rattle.era_disks.specs.Fuses.{IsAtFuse, IsFuseWrite, IsUnburnt, KnowsAlike, IsBurnt, KeepsFuse, PassesFuse, Learns, SameFuse, LearnsFuse};

use era_base::{Memory, Name};
use std::alloc::Global;
use std::sync::Arc;
use std::sync::atomic::{AtomicBool, Ordering};

/// Which write burns: the one with this number, from 0, of those that begin at this sector of this device.
#[derive(Debug, Drop)]
pub struct Fuse {
    pub device: Name,
    pub sector: u64,
    pub number: u32,
}

/// The end of a fuse that a disk or a bay has: how many writes have begun at the fuse's sector, and whether it is known
/// here that it has burnt.
#[derive(Drop)]
pub struct FuseEnd {
    pub fuse: Fuse,
    pub flag: Arc<AtomicBool, Global>,
    pub writes: u64,
    pub burnt: bool,
}

impl FuseEnd {
    /// The first end of a fuse.
    pub fn new(alloc: Global, fuse: Fuse) -> Result<FuseEnd, Memory>
        ensures { IfOk result (IsUnburnt fuse) }
    {
        let flag = Arc::new(alloc, AtomicBool::new(false))?;
        Ok(FuseEnd {
            fuse,
            flag,
            writes: 0,
            burnt: false,
        })
    }

    /// One more end of the fuse, which knows what this one knows.
    pub fn share(&self, alloc: Global) -> Result<FuseEnd, Memory>
        ensures { IfOk result (KnowsAlike self.now) }
    {
        let fuse = Fuse {
            device: Name::from_text(alloc, self.fuse.device.as_str())?,
            sector: self.fuse.sector,
            number: self.fuse.number,
        };
        let flag = Arc::try_clone(&self.flag)?;
        Ok(FuseEnd {
            fuse,
            flag,
            writes: self.writes,
            burnt: self.burnt,
        })
    }

    /// Whether the fuse has burnt, as it is known here or as the flag tells.
    pub fn has_burnt(&mut self) -> bool
        ensures told { result ≡ self.new.burnt }
        ensures stays { self.old.burnt ≡ true → self.new.burnt ≡ true }
        ensures same { (self.new.fuse ≡ self.old.fuse) × (self.new.writes ≡ self.old.writes) }
    {
        if self.flag.load(Ordering::SeqCst) {
            self.burnt = true;
        }
        self.burnt
    }

    /// Begins a write from the sector `first + offset` of a device. It is counted where that is the fuse's sector, and
    /// the fuse burns where the write is the fuse's.
    pub fn begin_write(&mut self, device: &str, first: u64, offset: u64)
        ensures burns { IsFuseWrite device.now (first + offset) self.old → self.new.burnt ≡ true }
        ensures only { (IsFuseWrite device.now (first + offset) self.old → ⊥)
            → self.new.burnt ≡ self.old.burnt }
        ensures stays { self.old.burnt ≡ true → self.new.burnt ≡ true }
        ensures here { IsAtFuse device.now (first + offset) self.old
            → self.new.writes ≡ one_more self.old.writes }
        ensures elsewhere { (IsAtFuse device.now (first + offset) self.old → ⊥)
            → self.new ≡ self.old }
        ensures same { self.new.fuse ≡ self.old.fuse }
    {
        if !self.is_at(device, first, offset) {
            return;
        }
        if self.writes == u64::from(self.fuse.number) {
            self.flag.store(true, Ordering::SeqCst);
            self.burnt = true;
        }
        self.writes = self.writes.saturating_add(1);
    }

    /// Whether the sector `first + offset` of a device is the fuse's.
    fn is_at(&self, device: &str, first: u64, offset: u64) -> bool
        ensures { (result ≡ true) ↔ IsAtFuse device.now (first + offset) self.now }
    {
        u128::from(self.fuse.sector) == u128::from(first) + u128::from(offset)
            && self.fuse.device.as_str() == device
    }

    /// Learns what another end of the fuse knows.
    pub fn learn(&mut self, other: &FuseEnd)
        ensures { Learns other.now self.old self.new }
    {
        self.writes = self.writes.max(other.writes);
        self.burnt |= other.burnt;
    }
}

/// Whether the fuse has burnt, if there is one.
pub fn has_burnt(fuse: &mut Option<FuseEnd>) -> bool
    ensures told { (result ≡ true) ↔ IsBurnt fuse.new }
    ensures kept { KeepsFuse fuse.old fuse.new }
{
    match fuse {
        Some(end) => end.has_burnt(),
        None => false,
    }
}

/// Begins a write from the sector `first + offset` of a device at the fuse, if there is one, and tells whether the fuse
/// has burnt.
pub fn begin_write(fuse: &mut Option<FuseEnd>, device: &str, first: u64, offset: u64) -> bool
    ensures told { (result ≡ true) ↔ IsBurnt fuse.new }
    ensures passed { PassesFuse device.now (first + offset) fuse.old fuse.new }
{
    match fuse {
        Some(end) => {
            end.begin_write(device, first, offset);
            end.has_burnt()
        }
        None => false,
    }
}

/// One more end of the fuse, if there is one, which knows what this one knows.
pub fn share(fuse: &Option<FuseEnd>, alloc: Global) -> Result<Option<FuseEnd>, Memory>
    ensures { IfOk result (SameFuse fuse.now) }
{
    match fuse {
        Some(end) => Ok(Some(end.share(alloc)?)),
        None => Ok(None),
    }
}

/// Learns what the end of a disk knows, if there are both.
pub fn learn(fuse: &mut Option<FuseEnd>, other: &Option<FuseEnd>)
    ensures { LearnsFuse other.now fuse.old fuse.new }
{
    if let Some(other) = other {
        if let Some(end) = fuse {
            end.learn(other);
        }
    }
}
