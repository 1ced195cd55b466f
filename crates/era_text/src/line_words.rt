//! Lines of a fixed number of words, and the numbers that words are. Nothing here takes memory.

ghost use Rattle.std.specs.Prelude.{◌≡◌, ◌≢◌, ◌^◌, [], ◌∷◌, length, Some, None, IfSome, IfNone, IfOk, IfErr};
ghost use Rattle.era_line.specs.Words.{words_of};
ghost use Rattle.era_text.specs.Numbers.{number_of};
ghost use Rattle.era_text.specs.Taking.{IsNoNumber};

use crate::dump_kind::DumpKind;
use crate::line_fault::LineFault;
use era_line::{read_decimal, read_u32, split_word};

/// The words of a line of two words.
pub fn two_words(line: &[u8]) -> Option<(&[u8], &[u8])>
    ensures some { IfSome result (λ words. words_of line.now ≡ words.0.now ∷ words.1.now ∷ []) }
    ensures none { IfNone result (length (words_of line.now) ≢ 2) }
{
    let (first, rest) = split_word(line)?;
    match split_word(rest) {
        Some((_second, _more)) => None,
        None => Some((first, rest)),
    }
}

/// The words of a line of three words.
pub fn three_words(line: &[u8]) -> Option<(&[u8], &[u8], &[u8])>
    ensures some { IfSome result (λ words.
        words_of line.now ≡ words.0.now ∷ words.1.now ∷ words.2.now ∷ []) }
    ensures none { IfNone result (length (words_of line.now) ≢ 3) }
{
    let (first, rest) = split_word(line)?;
    let (second, third) = two_words(rest)?;
    Some((first, second, third))
}

/// The block or era that a word is the decimal of.
pub fn number_of_word(word: &[u8]) -> Result<u32, LineFault>
    ensures some { IfOk result (λ number. number_of (2 ^ 32) word.now ≡ Some number) }
    ensures none { IfErr result (IsNoNumber (2 ^ 32) word.now) }
{
    match read_u32(word) {
        Some(number) => Ok(number),
        None => Err(LineFault::Refused(DumpKind::BadNumber)),
    }
}

/// The number below 2^64 that a word is the decimal of.
pub fn double_of_word(word: &[u8]) -> Result<u64, LineFault>
    ensures some { IfOk result (λ number. number_of (2 ^ 64) word.now ≡ Some number) }
    ensures none { IfErr result (IsNoNumber (2 ^ 64) word.now) }
{
    match read_decimal(word) {
        Some(number) => Ok(number),
        None => Err(LineFault::Refused(DumpKind::BadNumber)),
    }
}
