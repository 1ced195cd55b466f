//! How a run ended, and the number that the program ends with.

ghost use Rattle.std.specs.Prelude.{◌≡◌};
ghost use Rattle.era_tools.specs.Printing.{number_of};

/// How a run ended.
#[derive(Clone, Copy, Debug, PartialEq, Eq)]
pub enum Status {
    /// The input was read to its end, and the whole text was given.
    Done,
    /// A check found a damage.
    Damage,
    /// The words are no command.
    Usage,
    /// A line of the input was refused.
    Line,
    /// The bay or a disk failed.
    Fault,
    /// Memory was refused.
    Memory,
    /// The metadata, a geometry or a size was refused.
    Refused,
    /// The source failed.
    Source,
    /// The sink failed.
    Sink,
}

/// The number of a status.
pub fn number(status: Status) -> u8
    ensures { result ≡ number_of status }
{
    match status {
        Status::Done => 0,
        Status::Damage => 1,
        Status::Usage => 2,
        Status::Line => 3,
        Status::Fault => 4,
        Status::Memory => 5,
        Status::Refused => 6,
        Status::Source => 7,
        Status::Sink => 8,
    }
}
