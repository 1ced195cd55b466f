//! Why a line of a dump text is refused.

/// Why a line is refused, in the order of the tests: a line has the first kind that applies to it.
#[derive(Clone, Copy, Debug, PartialEq, Eq)]
pub enum DumpKind {
    /// The input ends where this line must stand.
    Truncated,
    /// It has more than 128 bytes.
    LongLine,
    /// Its words fit no form that may stand here.
    Unknown,
    /// One of its numbers isn't a decimal below 2^32, or below 2^64 for the first line's sectors and block size.
    BadNumber,
    /// The first line's numbers are no geometry.
    BadGeometry,
    /// The run's last block isn't a block of the geometry.
    PastEnd,
    /// The run has no block, or doesn't stand behind the one before it, or touches it where it may not; or the set's era
    /// isn't above that of the set before.
    Order,
    /// The era is 0 or isn't below the present one, or is below an entry of the array where it is the first set's; or the
    /// present era is 0.
    BadEra,
    /// Sixteen sets stand before this one.
    TooManySets,
    /// The line stands behind `end`.
    Trailing,
}
