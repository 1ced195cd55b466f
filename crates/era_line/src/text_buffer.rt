//! A buffer of fixed size between a text and the sink that it is given to, so that the sink gets pieces and not words.
//! The text so far is what the sink was given and then what the buffer holds.

ghost use Rattle.std.specs.Prelude.{◌≡◌, ◌<◌, length};

use era_base::{Failed, Sink};

/// The size of the pieces, in bytes.
const PIECE: usize = 4_096;

/// Text that was gathered and isn't given yet. It takes no memory.
#[derive(Clone, Copy)]
pub struct TextBuffer {
    pub bytes: [u8; PIECE],
    pub held: usize,
    pub ghost sized: { length bytes ≡ 4096 },
    pub ghost within: { held < 4096 },
}

impl TextBuffer {
    ghost use Rattle.std.specs.Prelude.{◌+◌, ◌≤◌, OnOk};
    ghost use Rattle.era_base.specs.Faults.{HasCause};
    ghost use Rattle.era_line.specs.TextBuffer.{IsEmpty, Adds, Flushes};

    /// A buffer that holds nothing.
    pub fn new() -> TextBuffer
        ensures { IsEmpty result }
    {
        TextBuffer {
            bytes: [0; PIECE],
            held: 0,
        }
    }

    /// The text goes on by these bytes. Each full piece is given. Once that has failed the text ends.
    pub fn add<K: Sink>(&mut self, sink: &mut K, bytes: &[u8]) -> Result<(), Failed>
        ensures added { Adds (K.given sink.old) self.old (K.given sink.new) self.new
            bytes.now result }
        ensures cause { HasCause (K.faults sink.old) (K.faults sink.new) result }
    {
        let mut rest = bytes;
        while !rest.is_empty() {
            let count = rest.len().min(PIECE - self.held);
            let (now, later) = rest.split_at(count);
            let Ok(()) = self.add_within(sink, now) else {
                return Err(Failed);
            };
            rest = later;
        }
        Ok(())
    }

    /// The text goes on by at least one byte, and by no more than the buffer has room for.
    fn add_within<K: Sink>(&mut self, sink: &mut K, bytes: &[u8]) -> Result<(), Failed>
        requires { self.old.held + length bytes.now ≤ 4096 }
        ensures added { Adds (K.given sink.old) self.old (K.given sink.new) self.new
            bytes.now result }
        ensures cause { HasCause (K.faults sink.old) (K.faults sink.new) result }
    {
        let end = self.held + bytes.len();
        self.bytes[self.held..end].copy_from_slice(bytes);
        if end < PIECE {
            self.held = end;
            return Ok(());
        }
        self.held = 0;
        sink.give(self.bytes.as_slice())
    }

    /// Gives what is held.
    pub fn flush<K: Sink>(&mut self, sink: &mut K) -> Result<(), Failed>
        ensures flushed { Flushes (K.given sink.old) self.old (K.given sink.new) result }
        ensures empty { OnOk result (IsEmpty self.new) }
        ensures cause { HasCause (K.faults sink.old) (K.faults sink.new) result }
    {
        let held = self.held;
        self.held = 0;
        if held == 0 {
            return Ok(());
        }
        sink.give(self.bytes.split_at(held).0)
    }
}
