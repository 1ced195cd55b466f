//! Why a copying of blocks ended early.

/// Why a copying of blocks ended early.
#[derive(Clone, Copy, Debug, PartialEq, Eq)]
pub enum CopyError {
    /// The origin failed, and this is its count of faults.
    Origin(u64),
    /// The sink failed.
    Output,
}
