//! The reader over a source that gives its text in pieces.

use era_base::{Failed, Source};
use era_line::{LineReader, Next, ReadError};
use std::alloc::Global;
use std::test::*;

// A source that gives at most so many bytes of a text at each take, and fails at one of them. It counts the takes, and
// keeps how many bytes were asked for.
#[derive(Drop)]
struct Pieces {
    text: &'static [u8],
    piece: usize,
    takes: usize,
    room: usize,
    fails_at: usize,
    faults: u64,
}

impl Source for Pieces {
    ghost use Rattle.std.specs.Prelude.{None};

    ghost left = { λ _. None };

    ghost faults = { λ s. s.faults };

    fn take(&mut self, into: &mut [u8]) -> Result<usize, Failed> {
        self.takes = self.takes.saturating_add(1);
        self.room = into.len();
        if self.takes == self.fails_at {
            self.faults = self.faults.saturating_add(1);
            return Err(Failed);
        }
        let count = self.piece.min(into.len()).min(self.text.len());
        let (now, later) = self.text.split_at(count);
        into[..count].copy_from_slice(now);
        self.text = later;
        Ok(count)
    }

    fn faults(&self) -> u64 {
        self.faults
    }
}

fn source_of(text: &'static [u8], piece: usize, fails_at: usize) -> Pieces {
    Pieces {
        text,
        piece,
        takes: 0,
        room: 0,
        fails_at,
        faults: 0,
    }
}

// The lines of a source, each with a bar behind it, and how the last call answered.
fn barred(
    alloc: Global,
    source: &mut Pieces,
    most: usize,
) -> Result<(Vec<u8>, Result<Next, ReadError>), Fail> {
    let mut lines = LineReader::new(alloc);
    let mut line = Vec::new(alloc);
    let mut text = Vec::new(alloc);
    let mut answer = Ok(Next::End);
    for _ in 0..9 {
        answer = lines.next(source, &mut line, most);
        if answer != Ok(Next::Line) {
            break;
        }
        text.extend_from_slice(&line)?;
        text.push(b'|')?;
    }
    Ok((text, answer))
}

static TEXTS: [(&[u8], &[u8]); 6] = [
    (b"", b""),
    (b"\n", b"|"),
    (b"ab\n\ncd", b"ab||cd|"),
    (b"ab\n\ncd\n", b"ab||cd|"),
    (b"\xff\x00\r\n\xc3\n", b"\xff\x00\r|\xc3|"),
    (b"abcde\nabcde", b"abcde|abcde|"),
];

#[test]
fn reads_lines_in_pieces_of_any_size(rt: HostRuntime) -> Result<(), Fail> {
    for (text, lines) in &TEXTS {
        for piece in [1, 2, 3, 100] {
            let read = barred(rt.alloc(), &mut source_of(text, piece, 0), 5)?;
            assert_eq!(rt; read.0.as_slice(), *lines, "in pieces of {piece}");
            assert_eq!(rt; read.1, Ok(Next::End));
        }
    }
    Ok(())
}

#[test]
fn tells_a_long_line_before_its_end(rt: HostRuntime) -> Result<(), Fail> {
    for piece in [1, 2, 100] {
        let read = barred(rt.alloc(), &mut source_of(b"ab\nabcdef\n", piece, 0), 5)?;
        assert_eq!(rt; read.0.as_slice(), b"ab|".as_slice());
        assert_eq!(rt; read.1, Ok(Next::Long));
    }
    Ok(())
}

#[test]
fn tells_a_failure_inside_a_line(rt: HostRuntime) -> Result<(), Fail> {
    let read = barred(rt.alloc(), &mut source_of(b"ab\ncd\nef\n", 4, 2), 5)?;
    assert_eq!(rt; read.0.as_slice(), b"ab|".as_slice());
    assert_eq!(rt; read.1, Err(ReadError::Source(1)));
    Ok(())
}

#[test]
fn asks_for_no_more_than_a_line_needs(rt: HostRuntime) -> Result<(), Fail> {
    let mut source = source_of(b"ab\ncd\nef", 7, 0);
    let mut lines = LineReader::new(rt.alloc());
    let mut line = Vec::new(rt.alloc());
    for takes in [1, 1, 3] {
        assert_eq!(rt; lines.next(&mut source, &mut line, 5), Ok(Next::Line));
        assert_eq!(rt; source.takes, takes);
    }
    assert_eq!(rt; source.room, 65_536);
    Ok(())
}
