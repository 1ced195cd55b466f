//! What ends a reading of the metadata.

use era_layout::DamageKind;

/// Why what is read of a disk can't be taken over into memory.
#[derive(Clone, Copy, Debug, PartialEq, Eq)]
pub enum Finding {
    /// A read failed. It has the disk's count of faults, which rose.
    Fault(u64),
    /// The first damage, and the metadata block where it stands.
    Damage { kind: DamageKind, block: u32 },
    /// Memory was refused.
    Memory,
}
