//! The first line of a dump text is taken, or refused by its first kind.

ghost use Rattle.std.specs.Prelude.{◌≡◌, ◌≢◌, ◌≤◌, [], ◌∷◌, length, IfSome, IfNone};
ghost use Rattle.era_line.specs.Words.{words_of};
ghost use Rattle.era_text.specs.FirstLine.{first_step, head_step, head_words_step};
ghost use Rattle.era_text.specs.Taking.{TakesHead};

use crate::dump_head::DumpHead;
use crate::dump_kind::DumpKind;
use crate::line_fault::LineFault;
use crate::line_words::{double_of_word, number_of_word, three_words};
use era_base::Geometry;
use era_line::split_word;

// The words of a line of five words, as the first two and the other three.
fn five_words(line: &[u8]) -> Option<((&[u8], &[u8]), (&[u8], &[u8], &[u8]))>
    ensures some { IfSome result (λ words. words_of line.now ≡ words.0.0.now ∷ words.0.1.now
        ∷ words.1.0.now ∷ words.1.1.now ∷ words.1.2.now ∷ []) }
    ensures none { IfNone result (length (words_of line.now) ≢ 5) }
{
    let (first, rest) = split_word(line)?;
    let (second, rest) = split_word(rest)?;
    let numbers = three_words(rest)?;
    Some(((first, second), numbers))
}

// Takes the numbers of the first line.
fn take_numbers(sectors: u64, size: u64, era: u32) -> Result<DumpHead, LineFault>
    ensures { TakesHead (head_step sectors size era) result }
{
    let Ok(geometry) = Geometry::new(sectors, size) else {
        return Err(LineFault::Refused(DumpKind::BadGeometry));
    };
    if era == 0 {
        return Err(LineFault::Refused(DumpKind::BadEra));
    }
    Ok(DumpHead { geometry, era })
}

/// Takes the first line, which isn't too long, or refuses it.
pub fn take_first_line(line: &[u8]) -> Result<DumpHead, LineFault>
    requires { length line.now ≤ 128 }
    ensures { TakesHead (first_step line.now) result }
{
    let Some((names, numbers)) = five_words(line) else {
        return Err(LineFault::Refused(DumpKind::Unknown));
    };
    if names.0 != b"eradump".as_slice() || names.1 != b"1".as_slice() {
        return Err(LineFault::Refused(DumpKind::Unknown));
    }
    let sectors = double_of_word(numbers.0)?;
    let size = double_of_word(numbers.1)?;
    let era = number_of_word(numbers.2)?;
    take_numbers(sectors, size, era)
}
