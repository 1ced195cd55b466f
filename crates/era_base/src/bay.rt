//! A bay: devices by name, which it lends as disks and takes back.

ghost use Rattle.std.specs.Prelude.{◌≡◌, ℕ, ◌+◌, ◌≤◌, List, [], ◌∷◌, ◌++◌, Option, Some, true, IfOk, OnOk, OnErr};
ghost use Rattle.era_base.specs.Disk.{Place};
ghost use Rattle.era_base.specs.Bay.{HasBayCause, Loan, new_loan, IsOut, EndsLoan, IsFree, ReadsAs, NowReadsAs, SameReads, SameReadsBut, KeepsSizes};

use crate::bay_error::BayError;
use crate::disk::Disk;
use std::marker::Send;

/// Devices by name. A device or a range of it that is lent is lent again only once it was put back.
pub trait Bay {
    type D: Disk + Send + Drop;

    /// The size of a device in whole sectors, told at the latest once `size` has answered it.
    ghost sizes: { Self → List ℕ → Option ℕ };

    /// What a sector of a device that isn't lent reads as, where the bay tells it: 512 bytes.
    ghost reads: { Self → List ℕ → ℕ → Option (List ℕ) };

    /// All loans, in the order in which they began.
    ghost loans: { Self → List (Loan Self.D) };

    /// How often the bay has failed.
    ghost faults: { Self → ℕ };

    /// The number of whole sectors of 512 bytes of a device.
    fn size(&mut self, name: &str) -> Result<u64, BayError>
        ensures told { IfOk result (λ size. sizes self.new name.now ≡ Some size) }
        ensures sizes { KeepsSizes (sizes self.old) (sizes self.new) }
        ensures reads { SameReads (reads self.old) (reads self.new) }
        ensures loans { loans self.new ≡ loans self.old }
        ensures cause { HasBayCause (faults self.old) (faults self.new) result };

    /// Lends a whole device.
    fn open_meta(&mut self, name: &str) -> Result<Self::D, BayError>
        ensures lent { IfOk result (λ disk.
            Self.D.place disk ≡ record { device = name.now; first = 0 }) }
        ensures whole { IfOk result (λ disk. sizes self.new name.now ≡ Some (Self.D.sectors disk)) }
        ensures content { IfOk result (λ disk. Self.D.tells ≡ true
            → ReadsAs (reads self.old) name.now 0 (Self.D.sectors disk) (Self.D.history disk).now) }
        ensures free { IfOk result (λ disk. IsFree Self.D.place Self.D.sectors
            (loans self.old) name.now 0 (Self.D.sectors disk)) }
        ensures loans { IfOk result (λ disk.
            loans self.new ≡ loans self.old ++ new_loan disk ∷ []) }
        ensures refused { OnErr result (loans self.new ≡ loans self.old) }
        ensures same { KeepsSizes (sizes self.old) (sizes self.new)
            × SameReads (reads self.old) (reads self.new) }
        ensures cause { HasBayCause (faults self.old) (faults self.new) result };

    /// Lends `sectors` sectors of a device from sector `first` on.
    fn open_part(&mut self, name: &str, first: u64, sectors: u64) -> Result<Self::D, BayError>
        requires { (size : ℕ) → sizes self.old name.now ≡ Some size → first + sectors ≤ size }
        ensures lent { IfOk result (λ disk.
            (Self.D.place disk ≡ record { device = name.now; first = first })
            × (Self.D.sectors disk ≡ sectors)) }
        ensures content { IfOk result (λ disk. Self.D.tells ≡ true
            → ReadsAs (reads self.old) name.now first sectors (Self.D.history disk).now) }
        ensures free { OnOk result (IsFree Self.D.place Self.D.sectors
            (loans self.old) name.now first sectors) }
        ensures loans { IfOk result (λ disk.
            loans self.new ≡ loans self.old ++ new_loan disk ∷ []) }
        ensures refused { OnErr result (loans self.new ≡ loans self.old) }
        ensures same { KeepsSizes (sizes self.old) (sizes self.new)
            × SameReads (reads self.old) (reads self.new) }
        ensures cause { HasBayCause (faults self.old) (faults self.new) result };

    /// Takes a lent disk back. The device then reads there as the disk does.
    fn put_back(&mut self, disk: Self::D)
        requires { (index : ℕ) × IsOut Self.D.place Self.D.sectors
            (loans self.old) (Self.D.place disk) (Self.D.sectors disk) index }
        ensures loans { EndsLoan Self.D.place Self.D.sectors disk
            (loans self.old) (loans self.new) }
        ensures content { Self.D.tells ≡ true
            → NowReadsAs (reads self.new) (Self.D.place disk).device (Self.D.place disk).first
            (Self.D.sectors disk) (Self.D.history disk).now }
        ensures others { SameReadsBut (Self.D.place disk).device (Self.D.place disk).first
            (Self.D.sectors disk) (reads self.old) (reads self.new) }
        ensures sizes { KeepsSizes (sizes self.old) (sizes self.new) }
        ensures same { faults self.new ≡ faults self.old };

    /// How often the bay has failed, up to the greatest value of a `u64`.
    fn faults(&self) -> u64
        ensures { result ≡ faults self.now };
}
