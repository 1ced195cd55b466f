//! Dump texts that are read, and written again.

use crate::memory::{Kept, Text};
use era_text::{DumpKind, TextEnd, read_dump, write_dump};
use std::alloc::{AllocError, Global};
use std::test::Fail;

/// Writes anew what a text spells, which is taken in pieces of seven bytes.
pub fn rewrite(alloc: Global, text: &str, logical: bool) -> Result<Kept, Fail> {
    let mut source = Text::new(alloc, text.as_bytes(), 7)?;
    let marks = read_dump(alloc, &mut source)?;
    let mut sink = Kept::new(alloc, text.len());
    write_dump(alloc, &marks, logical, &mut sink)?;
    Ok(sink)
}

/// A text of a front, a line and zeros behind it. The line has no LF.
pub fn text_of(
    alloc: Global,
    front: &str,
    line: &str,
    zeros: usize,
) -> Result<Vec<u8>, AllocError> {
    let mut text = Vec::new(alloc);
    text.extend_from_slice(front.as_bytes())?;
    text.extend_from_slice(line.as_bytes())?;
    for _ in 0..zeros {
        text.push(b'0')?;
    }
    Ok(text)
}

/// Whether a text is refused at this line, for this kind.
pub fn is_refused(alloc: Global, text: &[u8], line: u32, kind: DumpKind) -> Result<bool, Fail> {
    let mut source = Text::new(alloc, text, 7)?;
    Ok(match read_dump(alloc, &mut source) {
        Err(end) => end == TextEnd::Line { line, kind },
        Ok(_) => false,
    })
}

/// The first line of a table that isn't refused for its kind behind a front, where it has this number.
pub fn first_unmet<'a>(
    alloc: Global,
    front: &str,
    number: u32,
    rows: &[(&'a str, DumpKind)],
) -> Result<Option<&'a str>, Fail> {
    for (line, kind) in rows {
        let mut text = text_of(alloc, front, line, 0)?;
        text.push(b'\n')?;
        if !is_refused(alloc, text.as_slice(), number, *kind)? {
            return Ok(Some(*line));
        }
    }
    Ok(None)
}
