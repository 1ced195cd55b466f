//! The standard streams as a source and a sink: nothing is kept back between two calls.

ghost use Rattle.std.specs.Prelude.{◌≡◌, ◌≤◌, None, length, IfOk, OnOk};
ghost use Rattle.era_base.specs.Faults.{HasCause};
ghost use Rattle.era_disks.specs.LastLines.{TextEnd, KeepsEnd, end_after, no_text};

use crate::fault_count::FaultCount;
use crate::last_lines::LastLines;
use era_base::{Failed, Sink, Source};
use std::io;
use std::io::{ErrorKind, Read, Write};

/// A source over a reader, as standard input.
#[derive(Drop)]
pub struct StdSource<I: Read + Drop> {
    input: I,
    faults: FaultCount,
}

impl<I: Read + Drop> StdSource<I> {
    /// The bytes that the reader gives.
    pub fn new(input: I) -> StdSource<I>
        ensures { (result.input ≡ input) × (result.faults.count ≡ 0)
            × (result.faults.first ≡ None) }
    {
        StdSource {
            input,
            faults: FaultCount::new(),
        }
    }

    /// The system's reason of the first failure.
    pub fn first_failure(&self) -> Option<io::Error>
        ensures { result ≡ self.now.faults.first }
    {
        self.faults.first
    }
}

impl<I: Read + Drop> Source for StdSource<I> {
    ghost left = { λ _. None };

    ghost faults = { λ s. s.faults.count };

    fn take(&mut self, into: &mut [u8]) -> Result<usize, Failed> {
        match read_some(&mut self.input, into) {
            Ok(count) => Ok(count),
            Err(reason) => {
                self.faults.rise(reason);
                Err(Failed)
            }
        }
    }

    fn faults(&self) -> u64 {
        self.faults.count
    }
}

/// One read, which no signal cuts short.
fn read_some<I: Read>(input: &mut I, into: &mut [u8]) -> io::Result<usize>
    ensures { IfOk result (λ count. count ≤ length into.old) }
{
    for _ in 0..u64::MAX {
        match input.read(into) {
            Err(reason) if reason.kind() == ErrorKind::Interrupted => {}
            answer => return answer,
        }
    }
    Err(ErrorKind::Interrupted.into())
}

/// A sink over a writer, as standard output. Each give writes through. The last lines are kept as far as they are short.
#[derive(Drop)]
pub struct StdSink<O: Write + Drop> {
    output: O,
    faults: FaultCount,
    lines: LastLines,
}

impl<O: Write + Drop> StdSink<O> {
    /// What is given goes to the writer.
    pub fn new(output: O) -> StdSink<O>
        ensures fresh { (result.output ≡ output) × (result.faults.count ≡ 0)
            × (result.faults.first ≡ None) }
        ensures lines { KeepsEnd no_text result.lines }
    {
        StdSink {
            output,
            faults: FaultCount::new(),
            lines: LastLines::new(),
        }
    }

    /// The last lines of what was given.
    pub fn lines(&self) -> &LastLines
        ensures { result.now ≡ self.now.lines }
    {
        &self.lines
    }

    /// The system's reason of the first failure.
    pub fn first_failure(&self) -> Option<io::Error>
        ensures { result ≡ self.now.faults.first }
    {
        self.faults.first
    }
}

impl<O: Write + Drop> Sink for StdSink<O> {
    ghost given = { λ _. None };

    ghost faults = { λ s. s.faults.count };

    fn give(&mut self, bytes: &[u8]) -> Result<(), Failed>
        ensures cause { HasCause self.old.faults.count self.new.faults.count result }
        ensures lines { (end : TextEnd) → KeepsEnd end self.old.lines
            → OnOk result (KeepsEnd (end_after end bytes.now) self.new.lines) }
    {
        match write_through(&mut self.output, bytes) {
            Ok(()) => {
                self.lines.add(bytes);
                Ok(())
            }
            Err(reason) => {
                self.faults.rise(reason);
                Err(Failed)
            }
        }
    }

    fn faults(&self) -> u64 {
        self.faults.count
    }
}

/// Writes all the bytes, and leaves none of them in the writer.
fn write_through<O: Write>(output: &mut O, bytes: &[u8]) -> io::Result<()> {
    output.write_all(bytes)?;
    output.flush()
}
