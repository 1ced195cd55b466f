//! Reads the next line of a dump text, and takes what it says. A line has at most 128 bytes.

ghost use Rattle.std.specs.Prelude.{◌≡◌, ◌<◌, ◌≤◌, ℕ, List, IfOk, MatchResult, vec_len};
ghost use Rattle.era_line.specs.Reading.{IsAhead, LeavesRest};
ghost use Rattle.era_text.specs.Taking.{head_of};
ghost use Rattle.era_text.specs.ReadDumps.{FailsDump, FailsLine, FailsRest, Finishes, GivesLine, GoesOn, HasTaken, HasTextCause, IsHead, ReadsHead, end_of};

use crate::dump_head::DumpHead;
use crate::dump_kind::DumpKind;
use crate::first_line::take_first_line;
use crate::line_fault::LineFault;
use crate::reading::Reading;
use crate::section::Section;
use crate::text_end::TextEnd;
use era_base::Source;
use era_line::{LineReader, Next, ReadError};
use std::alloc::Global;

/// The greatest number of bytes of a line.
pub const LONGEST_LINE: usize = 128;

// Reads the next line, which has this number. Whether there is one.
fn next_line<S: Source>(
    lines: &mut LineReader,
    source: &mut S,
    line: &mut Vec<u8>,
    number: u32,
) -> Result<bool, TextEnd>
    ensures told { (text : List ℕ) → IsAhead lines.old (S.left source.old) text
        → MatchResult result
        (GivesLine text line.new.items lines.new (S.left source.new))
        (FailsLine number text (S.left source.new)) }
    ensures short { vec_len line.new ≤ 128 }
    ensures leaves { LeavesRest (S.left source.old) (S.left source.new) }
    ensures cause { HasTextCause (S.faults source.old) (S.faults source.new) result }
{
    match lines.next(source, line, LONGEST_LINE) {
        Ok(Next::Line) => Ok(true),
        Ok(Next::Long) => Err(TextEnd::Line {
            line: number,
            kind: DumpKind::LongLine,
        }),
        Ok(Next::End) => Ok(false),
        Err(ReadError::Source(count)) => Err(TextEnd::Source(count)),
        Err(ReadError::Memory) => Err(TextEnd::Memory),
    }
}

// The end of a text whose line with this number wasn't taken.
fn end_at(number: u32, fault: LineFault) -> TextEnd
    ensures { result ≡ end_of number fault }
{
    match fault {
        LineFault::Refused(kind) => TextEnd::Line { line: number, kind },
        LineFault::NoMemory => TextEnd::Memory,
    }
}

/// Reads the first line.
pub fn read_head<S: Source>(
    lines: &mut LineReader,
    source: &mut S,
    line: &mut Vec<u8>,
) -> Result<DumpHead, TextEnd>
    ensures told { (text : List ℕ) → IsAhead lines.old (S.left source.old) text
        → MatchResult result
        (λ head. ReadsHead text (head_of head) lines.new (S.left source.new))
        (FailsDump text (S.left source.new)) }
    ensures fit { IfOk result (λ head. IsHead (head_of head)) }
    ensures leaves { LeavesRest (S.left source.old) (S.left source.new) }
    ensures cause { HasTextCause (S.faults source.old) (S.faults source.new) result }
{
    if !next_line(lines, source, line, 1)? {
        return Err(TextEnd::Line {
            line: 1,
            kind: DumpKind::Truncated,
        });
    }
    match take_first_line(line) {
        Ok(head) => Ok(head),
        Err(fault) => Err(end_at(1, fault)),
    }
}

// What the end of the input makes of what was read, where the line with this number would stand.
fn finish(section: Section, number: u32) -> Result<bool, TextEnd>
    ensures { Finishes section number result }
{
    match section {
        Section::Done => Ok(false),
        _ => Err(TextEnd::Line {
            line: number,
            kind: DumpKind::Truncated,
        }),
    }
}

/// Takes the next line, where so many were read before it. Whether there was one: without it the dump is whole.
pub fn read_next<S: Source>(
    alloc: Global,
    head: &DumpHead,
    reading: &mut Reading,
    lines: &mut LineReader,
    source: &mut S,
    line: &mut Vec<u8>,
    count: u32,
) -> Result<bool, TextEnd>
    requires { count < 2000000 }
    ensures told { (text : List ℕ) → IsAhead lines.old (S.left source.old) text
        → MatchResult result
        (GoesOn (head_of head.now) count text reading.old reading.new lines.new
        (S.left source.new))
        (FailsRest (head_of head.now) count text reading.old (S.left source.new)) }
    ensures taken { IfOk result (HasTaken (head_of head.now) reading.old reading.new) }
    ensures leaves { LeavesRest (S.left source.old) (S.left source.new) }
    ensures cause { HasTextCause (S.faults source.old) (S.faults source.new) result }
{
    let number = count + 1;
    if !next_line(lines, source, line, number)? {
        return finish(reading.section, number);
    }
    match reading.take_line(alloc, head, line) {
        Ok(()) => Ok(true),
        Err(fault) => Err(end_at(number, fault)),
    }
}
