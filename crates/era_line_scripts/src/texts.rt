//! Texts that are read and written, and texts that aren't.

use era_base::{Failed, Name, Sink};
use era_line::{
    LineFault, Message, Part, TableLine, TextBuffer, give_parts, message_text, read_message,
    read_status, read_table, split_number, split_u32, split_word, status_text, write_table,
};
use std::test::*;

#[test]
fn reads_a_table_line(rt: HostRuntime) -> Result<(), Fail> {
    let line = read_table(rt.alloc(), "0 2048 era meta.img origin.img 8")
        .ok()
        .ok_or("it is a table line")?;
    assert_eq!(rt; line.length, 2048);
    assert_eq!(rt; line.meta.as_str(), "meta.img");
    assert_eq!(rt; line.origin.as_str(), "origin.img");
    assert_eq!(rt; line.block_sectors, 8);
    Ok(())
}

#[test]
fn refuses_other_texts(rt: HostRuntime) {
    for text in [
        "",
        "8 2048 era meta.img origin.img 8",
        "0 02048 era meta.img origin.img 8",
        "0 18446744073709551616 era meta.img origin.img 8",
        "0 2048 linear meta.img origin.img 8",
        "0 2048 era  meta.img origin.img 8",
        "0 2048 era meta.img origin.img 8 ",
        "0 2048 era meta.img origin.img 8 0",
        "0 2048 era meta.img origin.img",
    ] {
        assert!(rt;
            matches!(read_table(rt.alloc(), text), Err(LineFault::NotATable)),
            "at {text}"
        );
    }
}

#[test]
fn writes_a_table_line(rt: HostRuntime) -> Result<(), Fail> {
    let line = TableLine {
        length: 2_048,
        meta: Name::from_text(rt.alloc(), "meta.img")?,
        origin: Name::from_text(rt.alloc(), "origin.img")?,
        block_sectors: 8,
    };
    let text = write_table(rt.alloc(), &line)?;
    assert_eq!(rt; text.as_str(), "0 2048 era meta.img origin.img 8");
    Ok(())
}

#[test]
fn reads_and_writes_messages(rt: HostRuntime) {
    for (message, word) in [
        (Message::Checkpoint, "checkpoint"),
        (Message::TakeSnap, "take_metadata_snap"),
        (Message::DropSnap, "drop_metadata_snap"),
    ] {
        assert_eq!(rt; read_message(word), Some(message));
        assert_eq!(rt; message_text(message), word);
    }
    for word in ["", "Checkpoint", "checkpoint ", "take_metadata_snap\0"] {
        assert_eq!(rt; read_message(word), None, "at {word}");
    }
}

static STATES: [(&str, Option<u32>); 3] = [
    ("8 5/57 2 -", None),
    ("8 5/57 2 0", Some(0)),
    ("8 5/57 2 4294967295", Some(4_294_967_295)),
];

#[test]
fn reads_and_writes_status_lines(rt: HostRuntime) -> Result<(), Fail> {
    for (line, held) in &STATES {
        let text = status_text(rt.alloc(), 5, 57, 2, *held)?;
        assert_eq!(rt; text.as_str(), *line);
        assert_eq!(rt; read_status(line), Some((5, 57, 2, *held)));
    }
    Ok(())
}

#[test]
fn refuses_other_states(rt: HostRuntime) {
    for text in [
        "",
        "8 5/57 2",
        "8 5/57 2 --",
        "8 05/57 2 -",
        "8 5/57  2 -",
        "8 5/57 2 - ",
        "9 5/57 2 -",
        "8 5 57 2 -",
        "8 4294967296/57 2 -",
        "8 5/57 2 4294967296",
    ] {
        assert_eq!(rt; read_status(text), None, "at {text}");
    }
}

// A sink that holds 64 bytes.
#[derive(Drop)]
struct Shelf {
    bytes: [u8; 64],
    held: usize,
    faults: u64,
}

impl Sink for Shelf {
    ghost use Rattle.std.specs.Prelude.{None};

    ghost given = { λ _. None };

    ghost faults = { λ s. s.faults };

    fn give(&mut self, bytes: &[u8]) -> Result<(), Failed> {
        if self.held > 64 || bytes.len() > 64 - self.held {
            self.faults = self.faults.saturating_add(1);
            return Err(Failed);
        }
        let end = self.held + bytes.len();
        self.bytes[self.held..end].copy_from_slice(bytes);
        self.held = end;
        Ok(())
    }

    fn faults(&self) -> u64 {
        self.faults
    }
}

#[test]
fn gives_parts_of_each_kind(rt: HostRuntime) {
    let mut shelf = Shelf {
        bytes: [0; 64],
        held: 0,
        faults: 0,
    };
    let mut text = TextBuffer::new();
    let parts = [
        Part::Text(b"data "),
        Part::Hex(&[0, 255, 16]),
        Part::Text(b" r"),
        Part::Number(7),
        Part::OrDash(None),
        Part::OrDash(Some(3)),
    ];
    assert_eq!(rt; give_parts(&mut text, &mut shelf, &parts), Ok(()));
    assert_eq!(rt; text.flush(&mut shelf), Ok(()));
    assert_eq!(rt;
        shelf.bytes.strip_prefix(b"data 00ff10 r7-3\0").is_some(),
        true
    );
}

#[test]
fn splits_words_at_single_spaces(rt: HostRuntime) -> Result<(), Fail> {
    let (first, rest) = split_word(b"0  list").ok_or("it has three words")?;
    assert_eq!(rt; first, b"0".as_slice());
    let (second, third) = split_word(rest).ok_or("it has two words")?;
    assert_eq!(rt; second, b"".as_slice());
    assert_eq!(rt; third, b"list".as_slice());
    assert_eq!(rt; split_word(third), None);
    assert_eq!(rt; split_number(b'/', b"12/3"), Some((12, b"3".as_slice())));
    assert_eq!(rt; split_u32(b' ', b"07 3"), None);
    Ok(())
}
