//! One loan of a bay.

ghost use Rattle.std.specs.Prelude.{◌↔◌, IsTrue};
ghost use Rattle.era_disks.specs.Loans.{IsOutAt, Blocks};

use era_base::Name;
use std::snapshot::Snapshot;

/// The place of a lent disk, and the disk as it was lent and as it was put back, which take no bytes.
#[derive(Drop)]
pub struct LoanEntry<D> {
    pub device: Name,
    pub first: u64,
    pub sectors: u64,
    pub lent: Snapshot<D>,
    pub back: Option<Snapshot<D>>,
}

impl<D> LoanEntry<D> {
    /// Whether the disk is out and has this place and so many sectors.
    pub fn is_out_at(&self, device: &str, first: u64, sectors: u64) -> bool
        ensures { IsTrue result ↔ IsOutAt device.now first sectors self.now }
    {
        self.back.is_none()
            && self.first == first
            && self.sectors == sectors
            && self.device.as_str() == device
    }

    /// Whether the disk is out and has a sector of `count` sectors from `first` on of the device.
    pub fn blocks(&self, device: &str, first: u64, count: u64) -> bool
        ensures { IsTrue result ↔ Blocks device.now first count self.now }
    {
        self.back.is_none()
            && u128::from(first) < u128::from(self.first) + u128::from(self.sectors)
            && u128::from(self.first) < u128::from(first) + u128::from(count)
            && self.device.as_str() == device
    }
}
