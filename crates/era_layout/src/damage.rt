//! How a metadata disk can be damaged.

ghost use Rattle.std.specs.Prelude.{◌≡◌};
ghost use Rattle.era_layout.specs.Kinds.{damage_of_root, damage_of_page};

/// Why bytes are no root, in the order of the tests, and want of memory.
#[derive(Clone, Copy, Debug, PartialEq, Eq)]
pub enum RootError {
    /// The magic differs.
    BadMagic,
    /// The version isn't 1.
    BadVersion,
    /// The origin's length and block size are no geometry.
    BadGeometry,
    /// The current era is 0.
    BadEra,
    /// The held field is neither 0 nor 2.
    BadHeld,
    /// There are more than 16 archived sets, or their eras aren't strictly ascending from 1 up and below the current era.
    ArchiveOrder,
    /// A page number isn't that of a page of the geometry's image.
    PageRange,
    /// A page number stands twice.
    PageTwice,
    /// A byte that no field has isn't 0.
    TailNotZero,
    /// Memory was refused. Then none of the others applies.
    Memory,
}

/// Why bytes are no page, in the order of the tests.
#[derive(Clone, Copy, Debug, PartialEq, Eq)]
pub enum PageError {
    /// An entry of the era array past the last block isn't 0.
    EntryPastEnd,
    /// An entry of the era array is greater than the limit.
    EraFuture,
    /// A bit of a write set past the last block is set.
    BitPastEnd,
}

/// Each way in which a metadata disk can be damaged, in the order in which each can first be told.
#[derive(Clone, Copy, Debug, PartialEq, Eq)]
pub enum DamageKind {
    /// The sequence number of an open slot is 0 or at least 2^63.
    BadSequence,
    /// Both slots are open with equal sequence numbers.
    SequenceTie,
    /// The magic of a root differs.
    BadMagic,
    /// The version of a root isn't 1.
    BadVersion,
    /// The origin's length and block size in a root are no geometry.
    BadGeometry,
    /// The current era of a root is 0.
    BadEra,
    /// The held field of a root is neither 0 nor 2, or that of the held root isn't 0.
    BadHeld,
    /// A root has more than 16 archived sets, or their eras are out of order.
    ArchiveOrder,
    /// A page number of a root is out of range.
    PageRange,
    /// A page number stands twice in a root.
    PageTwice,
    /// A byte of a root that no field has isn't 0.
    TailNotZero,
    /// An entry of the era array past the last block isn't 0.
    EntryPastEnd,
    /// An entry of the era array is greater than any that could have been written.
    EraFuture,
    /// A bit of a write set past the last block is set.
    BitPastEnd,
    /// The held root has another geometry than the active one.
    HeldGeometry,
}

impl DamageKind {
    /// The damage of a root. Want of memory is none.
    pub fn of_root(error: RootError) -> Option<DamageKind>
        ensures { result ≡ damage_of_root error }
    {
        match error {
            RootError::BadMagic => Some(DamageKind::BadMagic),
            RootError::BadVersion => Some(DamageKind::BadVersion),
            RootError::BadGeometry => Some(DamageKind::BadGeometry),
            RootError::BadEra => Some(DamageKind::BadEra),
            RootError::BadHeld => Some(DamageKind::BadHeld),
            RootError::ArchiveOrder => Some(DamageKind::ArchiveOrder),
            RootError::PageRange => Some(DamageKind::PageRange),
            RootError::PageTwice => Some(DamageKind::PageTwice),
            RootError::TailNotZero => Some(DamageKind::TailNotZero),
            RootError::Memory => None,
        }
    }

    /// The damage of a page.
    pub fn of_page(error: PageError) -> DamageKind
        ensures { result ≡ damage_of_page error }
    {
        match error {
            PageError::EntryPastEnd => DamageKind::EntryPastEnd,
            PageError::EraFuture => DamageKind::EraFuture,
            PageError::BitPastEnd => DamageKind::BitPastEnd,
        }
    }
}
