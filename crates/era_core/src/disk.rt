//! Disks whose counts of faults events tell.

/// The metadata disk, or the part of the origin that is a stripe.
#[derive(Clone, Copy, Debug, PartialEq, Eq)]
pub enum FailedDisk {
    Metadata,
    Part(u32),
}
