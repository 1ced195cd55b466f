//! Streams that fail, and texts of several pieces.

use crate::fronts::{ARRAY, ENDED};
use crate::memory::{Kept, Text};
use era_text::{DumpKind, TextEnd, read_dump, write_dump};
use std::alloc::{AllocError, Global};
use std::test::*;

/// A text of 1,200 runs of a set, each of one block, in over 12,000 bytes.
fn long_text(alloc: Global) -> Result<String, AllocError> {
    let mut text = String::from_str(alloc, "eradump 1 524288 8 5\narray\nset 3\n")?;
    for run in 0..1_200u32 {
        let block = 4 * run;
        let line = format!(in alloc; "{block} {block}\n")?;
        text.push_str(line.as_str())?;
    }
    text.push_str("current\nend\n")?;
    Ok(text)
}

/// Why a text isn't read, where a take with this number fails.
fn end_of(alloc: Global, text: &[u8], take: u64) -> Result<Option<TextEnd>, Fail> {
    let mut source = Text::new(alloc, text, 4_096)?;
    source.fails = Some(take);
    Ok(read_dump(alloc, &mut source).err())
}

#[test]
fn failing_source_is_a_fault(rt: HostRuntime) -> Result<(), Fail> {
    let text = long_text(rt.alloc())?;
    for take in 0..3 {
        let end = end_of(rt.alloc(), text.as_bytes(), take)?;
        assert_eq!(rt; end, Some(TextEnd::Source(1)), "at take {take}");
    }
    assert_eq!(rt; end_of(rt.alloc(), text.as_bytes(), 9)?, None);
    Ok(())
}

#[test]
fn refusal_comes_before_a_later_fault(rt: HostRuntime) -> Result<(), Fail> {
    let trailing = TextEnd::Line {
        line: 5,
        kind: DumpKind::Trailing,
    };
    let mut text = String::from_str(rt.alloc(), ENDED)?;
    text.push('\n')?;
    assert_eq!(rt; end_of(rt.alloc(), text.as_bytes(), 1)?, Some(trailing));
    let end = end_of(rt.alloc(), ARRAY.as_bytes(), 1)?;
    assert_eq!(rt; end, Some(TextEnd::Source(1)));
    Ok(())
}

#[test]
fn failing_sink_is_given_a_front(rt: HostRuntime) -> Result<(), Fail> {
    let text = long_text(rt.alloc())?;
    let mut source = Text::new(rt.alloc(), text.as_bytes(), 4_096)?;
    let marks = read_dump(rt.alloc(), &mut source)?;
    for room in [0, 10, 10_000, text.len().saturating_sub(1)] {
        let mut sink = Kept::new(rt.alloc(), room);
        let end = write_dump(rt.alloc(), &marks, false, &mut sink);
        assert_eq!(rt; end, Err(TextEnd::Sink(1)));
        assert!(rt; text.as_bytes().starts_with(sink.given()), "at {room}");
    }
    Ok(())
}
