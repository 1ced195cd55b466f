//! Why a bay didn't answer.

use thiserror::Error;

/// Why a bay didn't answer.
#[derive(Clone, Copy, Debug, PartialEq, Eq, Error)]
pub enum BayError {
    /// The bay doesn't hold the device, or has lent it already, or the device failed. The count of faults rose.
    #[error("the device can't be opened")]
    Failed,
    /// Memory was refused.
    #[error("out of memory")]
    Memory,
}
