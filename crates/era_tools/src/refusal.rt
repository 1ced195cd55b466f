//! Why a tool does nothing more.

use era_base::GeomError;
use era_meta::MetaError;

/// Why a tool does nothing more.
#[derive(Clone, Copy, Debug, PartialEq, Eq)]
pub enum Refusal {
    /// The length and this block size are no geometry.
    NoGeometry { error: GeomError, size: u64 },
    /// The names of the metadata device and of the origin are one.
    SameDevice,
    /// The origin has this many sectors, and needs that many.
    OriginSmall { have: u64, need: u64 },
    /// The metadata isn't opened.
    Metadata(MetaError),
    /// No snapshot is held.
    NoSnap,
    /// The bay failed, and this is its count of faults.
    BayFault(u64),
    /// The origin failed, and this is its count of faults.
    DataFault(u64),
    /// Memory was refused.
    NoRoom,
}
