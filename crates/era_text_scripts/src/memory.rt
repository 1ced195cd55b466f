//! A source and a sink in memory, which can fail.

ghost use Rattle.std.specs.Prelude.{◌≤◌, vec_len};

use era_base::{Failed, Sink, Source};
use std::alloc::{AllocError, Global};

/// A text that is taken in pieces of at most so many bytes.
#[derive(Drop)]
pub struct Text {
    bytes: Vec<u8>,
    taken: usize,
    piece: usize,
    takes: u64,
    /// The number, counted from 0, of the take that fails.
    pub fails: Option<u64>,
    faults: u64,
    ghost within: { taken ≤ vec_len bytes },
}

impl Text {
    /// A text of which no take fails.
    pub fn new(alloc: Global, text: &[u8], piece: usize) -> Result<Text, AllocError> {
        let mut bytes = Vec::new(alloc);
        bytes.extend_from_slice(text)?;
        Ok(Text {
            bytes,
            taken: 0,
            piece,
            takes: 0,
            fails: None,
            faults: 0,
        })
    }
}

impl Source for Text {
    ghost use Rattle.std.specs.Prelude.{None};

    ghost left = { λ _. None };

    ghost faults = { λ text. text.faults };

    fn take(&mut self, into: &mut [u8]) -> Result<usize, Failed> {
        let number = self.takes;
        self.takes = number.saturating_add(1);
        if self.fails == Some(number) {
            self.faults = self.faults.saturating_add(1);
            return Err(Failed);
        }
        let rest = self.bytes.as_slice().split_at(self.taken).1;
        let count = rest.len().min(into.len()).min(self.piece);
        into[..count].copy_from_slice(rest.split_at(count).0);
        self.taken += count;
        Ok(count)
    }

    fn faults(&self) -> u64 {
        self.faults
    }
}

/// A sink that has room for so many bytes, and keeps what it was given.
#[derive(Drop)]
pub struct Kept {
    text: Vec<u8>,
    room: usize,
    faults: u64,
}

impl Kept {
    /// A sink that was given nothing.
    pub fn new(alloc: Global, room: usize) -> Kept {
        Kept {
            text: Vec::new(alloc),
            room,
            faults: 0,
        }
    }

    /// What it was given.
    pub fn given(&self) -> &[u8] {
        self.text.as_slice()
    }
}

impl Sink for Kept {
    ghost use Rattle.std.specs.Prelude.{None};

    ghost given = { λ _. None };

    ghost faults = { λ sink. sink.faults };

    fn give(&mut self, bytes: &[u8]) -> Result<(), Failed> {
        if bytes.len() > self.room || self.text.extend_from_slice(bytes).is_err() {
            self.faults = self.faults.saturating_add(1);
            return Err(Failed);
        }
        self.room -= bytes.len();
        Ok(())
    }

    fn faults(&self) -> u64 {
        self.faults
    }
}
