//! Where in a dump text a line stands.

/// The part of a dump text to which the next line belongs.
#[derive(Clone, Copy, Debug, PartialEq, Eq)]
pub enum Section {
    /// Behind the first line: the line `array`.
    Heading,
    /// The runs of the era array, up to the first `set` line or the line `current`.
    Array,
    /// The runs of an archived set, up to the next `set` line or the line `current`.
    Set,
    /// The runs of the current set, up to the line `end`.
    Current,
    /// Behind the line `end`, where no line may stand.
    Done,
}
