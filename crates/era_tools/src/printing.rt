//! Gives a line of output, and tells how the run ended.

ghost use Rattle.std.specs.Prelude.{◌≡◌};
ghost use Rattle.era_line.specs.Parts.{parts_text};
ghost use Rattle.era_tools.specs.Printing.{HasSinkCause, Prints};
ghost use Rattle.era_tools.specs.ToolLines.{damage_word, kind_line, number_line, numbers_line};

use crate::kinds::damage_text;
use crate::status::Status;
use era_base::Sink;
use era_layout::DamageKind;
use era_line::Part::{Number, Text};
use era_line::{Part, TextBuffer, give_parts};

/// Gives parts, and tells how the run ended: so, or by the sink's failure after a front of them. It takes no memory.
pub fn print<K: Sink>(sink: &mut K, parts: &[Part], ended: Status) -> Status
    requires { ended ≡ Status.Sink → ⊥ }
    ensures printed { Prints (K.given sink.old) (K.given sink.new)
        (parts_text parts.now) ended result }
    ensures sink { HasSinkCause (K.faults sink.old) (K.faults sink.new) result }
{
    let mut text = TextBuffer::new();
    let Ok(()) = give_parts(&mut text, sink, parts) else {
        return Status::Sink;
    };
    let Ok(()) = text.flush(sink) else {
        return Status::Sink;
    };
    ended
}

/// Gives a line of a word and a number behind it.
pub fn print_number<K: Sink>(sink: &mut K, word: &[u8], number: u64, ended: Status) -> Status
    requires { ended ≡ Status.Sink → ⊥ }
    ensures printed { Prints (K.given sink.old) (K.given sink.new)
        (number_line word.now number) ended result }
    ensures sink { HasSinkCause (K.faults sink.old) (K.faults sink.new) result }
{
    print(sink, &[Text(word), Number(number), Text(b"\n")], ended)
}

/// Gives a line of a word and two numbers behind it.
pub fn print_numbers<K: Sink>(
    sink: &mut K,
    word: &[u8],
    first: u64,
    second: u64,
    ended: Status,
) -> Status
    requires { ended ≡ Status.Sink → ⊥ }
    ensures printed { Prints (K.given sink.old) (K.given sink.new)
        (numbers_line word.now first second) ended result }
    ensures sink { HasSinkCause (K.faults sink.old) (K.faults sink.new) result }
{
    let parts = [
        Text(word),
        Number(first),
        Text(b" "),
        Number(second),
        Text(b"\n"),
    ];
    print(sink, &parts, ended)
}

/// Gives a line of a word and a damage behind it, with the metadata block where it stands.
pub fn print_damage<K: Sink>(
    sink: &mut K,
    word: &[u8],
    kind: DamageKind,
    block: u32,
    ended: Status,
) -> Status
    requires { ended ≡ Status.Sink → ⊥ }
    ensures printed { Prints (K.given sink.old) (K.given sink.new)
        (kind_line word.now (damage_word kind) block) ended result }
    ensures sink { HasSinkCause (K.faults sink.old) (K.faults sink.new) result }
{
    let parts = [
        Text(word),
        Text(damage_text(kind).as_bytes()),
        Text(b" "),
        Number(u64::from(block)),
        Text(b"\n"),
    ];
    print(sink, &parts, ended)
}
