//! Reads a whole dump text, one line after another, up to the end of the input or the first line that is refused.

ghost use Rattle.std.specs.Prelude.{◌≡◌, ℕ, List, Some, IfOk, MatchResult};
ghost use Rattle.era_line.specs.Reading.{IsAhead, LeavesRest};
ghost use Rattle.era_text.specs.Dumps.{marks_read};
ghost use Rattle.era_text.specs.DumpLaws.{AreReadable};
ghost use Rattle.era_text.specs.FirstLine.{start};
ghost use Rattle.era_text.specs.ReadDumps.{FailsDump, FailsRest, HasTextCause, IsHead, ReadsDump, ReadsRest, RunsAreWithin};
ghost use Rattle.era_text.specs.Taking.{head_of};

use crate::dump_head::DumpHead;
use crate::dump_reader::{LONGEST_LINE, read_head, read_next};
use crate::reading::Reading;
use crate::text_end::TextEnd;
use era_base::{Memory, Source};
use era_line::LineReader;
use era_model::Marks;
use std::alloc::Global;

/// Reads the marks that a dump text spells, from where the source stands to its end. It takes memory for one line of
/// 128 bytes, for the reader's buffer of 64 KiB, and for the marks. A text without an end is refused too: runs ascend,
/// and sets are few.
///
/// # Errors
/// `Line` with the number and the kind of the first line that is refused, `Source` where the source failed before one
/// was, `Memory` where memory was refused. Bytes behind the line may have been taken from the source then.
pub fn read_dump<S: Source>(alloc: Global, source: &mut S) -> Result<Marks, TextEnd>
    ensures told { (text : List ℕ) → S.left source.old ≡ Some text
        → MatchResult result
        (ReadsDump text (S.left source.new))
        (FailsDump text (S.left source.new)) }
    ensures valid { IfOk result AreReadable }
    ensures leaves { LeavesRest (S.left source.old) (S.left source.new) }
    ensures cause { HasTextCause (S.faults source.old) (S.faults source.new) result }
{
    let mut line = room_for_line(alloc)?;
    let mut lines = LineReader::new(alloc);
    let head = read_head(&mut lines, source, &mut line)?;
    let reading = read_rest(alloc, &head, &mut lines, source, &mut line)?;
    Ok(Marks {
        geometry: head.geometry,
        era: head.era,
        array: reading.array,
        archive: reading.archive,
        current: reading.blocks,
    })
}

// Room for the longest line, so that lines never take more.
fn room_for_line(alloc: Global) -> Result<Vec<u8>, Memory> {
    Ok(Vec::with_capacity(alloc, LONGEST_LINE)?)
}

// Reads the lines behind the first one, up to the end of the text.
fn read_rest<S: Source>(
    alloc: Global,
    head: &DumpHead,
    lines: &mut LineReader,
    source: &mut S,
    line: &mut Vec<u8>,
) -> Result<Reading, TextEnd>
    requires { IsHead (head_of head.now) }
    ensures told { (text : List ℕ) → IsAhead lines.old (S.left source.old) text
        → MatchResult result
        (λ reading. ReadsRest (head_of head.now) 1 text start reading (S.left source.new))
        (FailsRest (head_of head.now) 1 text start (S.left source.new)) }
    ensures within { IfOk result (RunsAreWithin (head_of head.now)) }
    ensures valid { IfOk result (λ reading. AreReadable (marks_read (head_of head.now) reading)) }
    ensures leaves { LeavesRest (S.left source.old) (S.left source.new) }
    ensures cause { HasTextCause (S.faults source.old) (S.faults source.new) result }
{
    let mut reading = Reading::new(alloc);
    let mut count = 1;
    while read_next(alloc, head, &mut reading, lines, source, line, count)? {
        count += 1;
    }
    Ok(reading)
}
