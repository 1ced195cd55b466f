//! The reader of a stream between its rounds.

ghost use Rattle.std.specs.Prelude.{◌≤◌, length, vec_len};

use crate::counts::Counts;
use era_line::LineReader;
use std::alloc::Global;

/// A reader of the rounds of one stream. Once it has refused a line, or couldn't read one, it has failed and gives no
/// round any more. Once its input has ended, it asks the source no more.
#[derive(Drop)]
pub struct Lines {
    pub(crate) reader: LineReader,
    pub(crate) line: Vec<u8>,
    pub(crate) counts: Counts,
    pub(crate) failed: bool,
    pub(crate) ended: bool,
    // Its buffers are of a fixed size.
    pub(crate) ghost few_taken: { length reader ≤ 65536 },
    pub(crate) ghost short_line: { vec_len line ≤ 131200 },
}

impl Lines {
    ghost use Rattle.std.specs.Prelude.{◌≡◌, [], false};
    ghost use Rattle.era_plan.specs.Reading.{StandsAt, has_ended, has_failed, taken_by};
    ghost use Rattle.era_plan.specs.Stream.{at_beginning};

    /// A reader that has read nothing. It takes no memory.
    pub fn new(alloc: Global) -> Lines
        ensures stands { StandsAt result at_beginning }
        ensures taken { taken_by result ≡ [] }
        ensures failed { has_failed result ≡ false }
        ensures ended { has_ended result ≡ false }
    {
        Lines {
            reader: LineReader::new(alloc),
            line: Vec::new(alloc),
            counts: Counts::new(),
            failed: false,
            ended: false,
        }
    }

    /// Whether a line was refused, or one couldn't be read.
    pub fn failed(&self) -> bool
        ensures { result ≡ has_failed self.now }
    {
        self.failed
    }

    /// Whether the input has ended. The source isn't asked any more.
    pub fn ended(&self) -> bool
        ensures { result ≡ has_ended self.now }
    {
        self.ended
    }
}
