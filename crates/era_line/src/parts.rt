//! Lines of output as their parts, which are given one after another. It takes no memory.

ghost use Rattle.std.specs.Prelude.{◌≡◌, ◌≤◌, length, decimal};
ghost use Rattle.hex.specs.Hex.{encode_lower};
ghost use Rattle.era_base.specs.Faults.{HasCause};
ghost use Rattle.era_line.specs.Parts.{part_text, parts_text};
ghost use Rattle.era_line.specs.TextBuffer.{Adds};

use crate::text_buffer::TextBuffer;
use era_base::{Failed, Sink};
use itoa::Buffer;

/// How many bytes are spelled at once.
const PIECE: usize = 512;

/// A part of a line: a text, or a value that is written as one.
#[derive(Clone, Copy)]
pub enum Part<'a> {
    /// A text as it stands.
    Text(&'a [u8]),
    /// A number in decimal digits.
    Number(u64),
    /// A number in decimal digits, or a dash in its place.
    OrDash(Option<u64>),
    /// Bytes as hexadecimal digits in lower case, two for each.
    Hex(&'a [u8]),
}

/// Gives parts one after another, up to the first that the sink refuses.
pub fn give_parts<K: Sink>(
    text: &mut TextBuffer,
    sink: &mut K,
    parts: &[Part],
) -> Result<(), Failed>
    ensures added { Adds (K.given sink.old) text.old (K.given sink.new) text.new
        (parts_text parts.now) result }
    ensures cause { HasCause (K.faults sink.old) (K.faults sink.new) result }
{
    for part in parts {
        let Ok(()) = give_part(text, sink, *part) else {
            return Err(Failed);
        };
    }
    Ok(())
}

// Gives one part.
fn give_part<K: Sink>(text: &mut TextBuffer, sink: &mut K, part: Part) -> Result<(), Failed>
    ensures added { Adds (K.given sink.old) text.old (K.given sink.new) text.new
        (part_text part.entry) result }
    ensures cause { HasCause (K.faults sink.old) (K.faults sink.new) result }
{
    match part {
        Part::Text(bytes) => text.add(sink, bytes),
        Part::Number(number) | Part::OrDash(Some(number)) => give_number(text, sink, number),
        Part::OrDash(None) => text.add(sink, b"-"),
        Part::Hex(bytes) => give_hex(text, sink, bytes),
    }
}

// Gives a number in decimal digits.
fn give_number<K: Sink>(text: &mut TextBuffer, sink: &mut K, number: u64) -> Result<(), Failed>
    ensures added { Adds (K.given sink.old) text.old (K.given sink.new) text.new
        (decimal number) result }
    ensures cause { HasCause (K.faults sink.old) (K.faults sink.new) result }
{
    let mut buffer = Buffer::new();
    text.add(sink, buffer.format(number).as_bytes())
}

// Gives bytes as hexadecimal digits, two for each.
fn give_hex<K: Sink>(text: &mut TextBuffer, sink: &mut K, bytes: &[u8]) -> Result<(), Failed>
    ensures added { Adds (K.given sink.old) text.old (K.given sink.new) text.new
        (encode_lower bytes.now) result }
    ensures cause { HasCause (K.faults sink.old) (K.faults sink.new) result }
{
    let mut rest = bytes;
    while !rest.is_empty() {
        let (now, later) = rest.split_at(rest.len().min(PIECE));
        let Ok(()) = give_piece(text, sink, now) else {
            return Err(Failed);
        };
        rest = later;
    }
    Ok(())
}

// Gives the digits of at most 512 bytes.
fn give_piece<K: Sink>(text: &mut TextBuffer, sink: &mut K, bytes: &[u8]) -> Result<(), Failed>
    requires { length bytes.now ≤ 512 }
    ensures added { Adds (K.given sink.old) text.old (K.given sink.new) text.new
        (encode_lower bytes.now) result }
    ensures cause { HasCause (K.faults sink.old) (K.faults sink.new) result }
{
    let mut digits = [0; 2 * PIECE];
    let count = 2 * bytes.len();
    let Ok(()) = hex::encode_to_slice(bytes, &mut digits[..count]) else {
        unreachable!()
    };
    text.add(sink, &digits[..count])
}
