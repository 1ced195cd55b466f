//! Why a metadata disk isn't opened.

ghost use Rattle.std.specs.Prelude.{◌≡◌};
ghost use Rattle.era_meta.specs.Trials.{error_of_finding, error_of_slots};

use crate::finding::Finding;
use era_base::Geometry;
use era_layout::DamageKind;
use era_slots::SlotError;

/// Why a metadata disk isn't opened. A metadata block has 4,096 bytes.
#[derive(Clone, Copy, Debug, PartialEq, Eq)]
pub enum MetaError {
    /// The disk has `have` whole metadata blocks, fewer than the `need` of a geometry.
    MetaSmall { have: u64, need: u64 },
    /// A call on the disk failed. It has the disk's count of faults, which rose.
    Fault(u64),
    /// Neither gate is open: the disk holds no metadata.
    Unformatted,
    /// The first damage, and the metadata block where it stands.
    Damaged { kind: DamageKind, block: u32 },
    /// The metadata is of another geometry than the one that was asked for.
    WrongGeometry { kept: Geometry, asked: Geometry },
    /// The last era stands on the disk, so no era can begin.
    EraEnd,
    /// The number of the last commit is at least 2^62, so too few numbers are left.
    SequenceEnd(u64),
    /// Memory was refused.
    Memory,
}

/// A refusal, with the disk.
#[derive(Drop)]
pub struct MetaRefusal<D> {
    pub error: MetaError,
    pub disk: D,
}

impl MetaError {
    /// The refusal for what was found in a reading.
    pub(crate) fn of_finding(finding: Finding) -> MetaError
        ensures { result ≡ error_of_finding finding }
    {
        match finding {
            Finding::Fault(count) => MetaError::Fault(count),
            Finding::Damage { kind, block } => MetaError::Damaged { kind, block },
            Finding::Memory => MetaError::Memory,
        }
    }

    /// The refusal where the slots weren't opened.
    pub(crate) fn of_slots(error: SlotError) -> MetaError
        ensures { result ≡ error_of_slots error }
    {
        match error {
            SlotError::Fault(count) => MetaError::Fault(count),
            SlotError::BadSequence(slot) => MetaError::Damaged {
                kind: DamageKind::BadSequence,
                block: slot,
            },
            SlotError::SequenceTie => MetaError::Damaged {
                kind: DamageKind::SequenceTie,
                block: 1,
            },
            SlotError::Memory => MetaError::Memory,
        }
    }
}
