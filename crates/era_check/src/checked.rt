//! What a check of a metadata image finds.

use era_layout::DamageKind;

/// What a check of a metadata image finds. A metadata block has 4,096 bytes.
#[derive(Clone, Copy, Debug, PartialEq, Eq)]
pub enum Checked {
    /// It has no damage. It is in this era, and so many metadata blocks are used.
    Clean { era: u32, used: u32 },
    /// The first damage, and the metadata block where it stands.
    Damage { kind: DamageKind, block: u32 },
    /// Neither gate is open: it holds no metadata.
    Unformatted,
    /// It has `have` whole metadata blocks, fewer than the `need` of a geometry.
    MetaSmall { have: u64, need: u64 },
    /// A call on the disk failed. It has the disk's count of faults, which rose.
    Fault(u64),
    /// Memory was refused.
    Memory,
}
