//! The reader: it gives the lines of a source one after another. It takes the source's bytes in pieces, and asks for
//! more of them only while they tell no line.

ghost use Rattle.std.specs.Prelude.{◌≡◌, ◌<◌, ◌≤◌, ◌↔◌, ℕ, List, [], Some, length, vec_len, IsTrue, IfOk, MatchResult, OnErr};
ghost use Rattle.era_line.specs.Lines.{HasNo};
ghost use Rattle.era_line.specs.Moving.{Fills, IsLast, Moves};
ghost use Rattle.era_line.specs.Reading.{FailsInside, Gives, HasReadCause, IsAhead, IsEnough, LeavesRest};

use crate::moved::Moved;
use crate::next::{Next, ReadError};
use crate::words::cut_at;
use era_base::{Memory, Source};
use std::alloc::Global;
use std::marker::Model;

/// The greatest number of bytes that are taken at once.
const PIECE: usize = 65_536;

/// Bytes that were taken of a source and aren't read yet, at most 64 KiB. A contract sees them as their list.
#[derive(Drop)]
pub struct LineReader {
    alloc: Global,
    buffer: Vec<u8>,
    start: usize,
    end: usize,
}

impl Model for LineReader {
    ghost use Rattle.std.specs.Prelude.{◌≤◌, ℕ, List, slice_range, vec_len};

    ghost Value = { List ℕ };

    ghost view = { λ r. slice_range r.buffer.items r.start r.end };

    ghost invariant = { λ r. (r.start ≤ r.end) × (r.end ≤ vec_len r.buffer)
        × (vec_len r.buffer ≤ 65536) };
}

impl LineReader {
    /// Nothing is taken yet. It takes no memory.
    pub fn new(alloc: Global) -> LineReader
        ensures { result ≡ [] }
    {
        LineReader {
            alloc,
            buffer: Vec::new(alloc),
            start: 0,
            end: 0,
        }
    }

    /// Reads the next line, without its LF, into `line`, whose bytes of before are gone. A line has at most `most` bytes.
    /// The source is asked only while what was taken holds no whole line. It takes memory for a buffer of 64 KiB, once,
    /// and for the line. After `Long` and after an error the line isn't read to its end, and what `line` holds of it and
    /// what was taken are of no more use.
    pub fn next<S: Source>(
        &mut self,
        source: &mut S,
        line: &mut Vec<u8>,
        most: usize,
    ) -> Result<Next, ReadError>
        ensures told { (text : List ℕ) → IsAhead self.old (S.left source.old) text
            → MatchResult result
            (Gives most text line.new.items self.new (S.left source.new))
            (FailsInside most text (S.left source.new)) }
        ensures short { vec_len line.new ≤ most }
        ensures leaves { LeavesRest (S.left source.old) (S.left source.new) }
        ensures asks { IsEnough most self.old → source.new ≡ source.old }
        ensures held { length self.new ≤ 65536 }
        ensures cause { HasReadCause (S.faults source.old) (S.faults source.new) result }
    {
        line.clear();
        loop {
            match self.move_to(line, most)? {
                Moved::Ended => return Ok(Next::Line),
                Moved::TooLong => return Ok(Next::Long),
                Moved::All => {}
            }
            if !self.fill(source)? {
                return Ok(last(line));
            }
        }
    }

    // The bytes that were taken.
    fn taken(&self) -> &[u8]
        ensures { result.now ≡ self.now }
    {
        &self.buffer[self.start..self.end]
    }

    // Moves what was taken into the line, up to an LF and as far as the line may have it.
    fn move_to(&mut self, line: &mut Vec<u8>, most: usize) -> Result<Moved, Memory>
        requires { vec_len line.old ≤ most }
        ensures moved { IfOk result
            (Moves most line.old.items self.old line.new.items self.new) }
        ensures short { vec_len line.new ≤ most }
        ensures held { length self.new ≤ 65536 }
    {
        let Some((part, _)) = cut_at(b'\n', self.taken()) else {
            return self.move_all(line, most);
        };
        let count = part.len();
        if count > most - line.len() {
            return Ok(Moved::TooLong);
        }
        line.extend_from_slice(part)?;
        self.start += count + 1;
        Ok(Moved::Ended)
    }

    // Moves all that was taken into the line, as far as the line may have it.
    fn move_all(&mut self, line: &mut Vec<u8>, most: usize) -> Result<Moved, Memory>
        requires short { vec_len line.old ≤ most }
        requires inside { HasNo 10 self.old }
        ensures moved { IfOk result
            (Moves most line.old.items self.old line.new.items self.new) }
        ensures short { vec_len line.new ≤ most }
        ensures held { length self.new ≤ 65536 }
    {
        let taken = self.taken();
        if taken.len() > most - line.len() {
            return Ok(Moved::TooLong);
        }
        line.extend_from_slice(taken)?;
        self.start = self.end;
        Ok(Moved::All)
    }

    // Takes the next bytes of the source, where none are held. Whether there were any: there are none exactly at its end.
    fn fill<S: Source>(&mut self, source: &mut S) -> Result<bool, ReadError>
        requires { self.old ≡ [] }
        ensures told { (text : List ℕ) → S.left source.old ≡ Some text
            → MatchResult result
            (λ _. Fills text self.new (S.left source.new))
            (λ _. S.left source.new ≡ Some text) }
        ensures some { IfOk result (λ some. IsTrue some ↔ (0 < length self.new)) }
        ensures none { OnErr result (self.new ≡ []) }
        ensures held { length self.new ≤ 65536 }
        ensures cause { HasReadCause (S.faults source.old) (S.faults source.new) result }
    {
        if self.buffer.is_empty() {
            self.buffer = new_buffer(self.alloc)?;
        }
        self.start = 0;
        self.end = 0;
        let Ok(count) = source.take(self.buffer.as_mut_slice()) else {
            return Err(ReadError::Source(source.faults()));
        };
        self.end = count;
        Ok(count > 0)
    }
}

// A buffer for a piece of the source.
fn new_buffer(alloc: Global) -> Result<Vec<u8>, Memory>
    ensures { IfOk result (λ buffer. vec_len buffer ≡ 65536) }
{
    Ok(vec![in alloc; 0; PIECE]?)
}

// What a text ends with: a line without an LF, or nothing behind the last LF.
fn last(line: &[u8]) -> Next
    ensures { IsLast line.now result }
{
    if line.is_empty() {
        Next::End
    } else {
        Next::Line
    }
}
