//! Words as the arguments of a `clap` command, and the values of arguments.

ghost use Rattle.std.specs.Prelude.{◌≡◌, ◌≢◌, ℕ, ◌≤◌, [], true, IfOk, IsErrOf, IfSome, IfNone, codes};
ghost use Rattle.clap.specs.Words.{app_of, fault_of, found_of, is_simple_and_free, matches_of, rows_of, Text};
ghost use Rattle.era_words.specs.Jobs.{HasText, HasNumber, HasEra, HasStripes, HasFlag, HasTable};
ghost use Rattle.era_words.specs.Words.{texts_of};
ghost use Rattle.era_line.specs.declared.table_line.TableLine.{TableLine as table_line};

use crate::errors::WordsError;
use clap::error::ErrorKind;
use clap::{ArgMatches, Command};
use era_base::{LAST_ERA, MOST_STRIPES, Name};
use era_line::{LineFault, TableLine, read_decimal, read_table};
use std::alloc::Global;

/// What `clap` makes of the words behind the first one.
pub fn read_arguments<'a>(
    command: Command<'a>,
    words: &'a [String],
) -> Result<ArgMatches<'a>, WordsError>
    requires { is_simple_and_free (app_of command) ≡ true }
    ensures given { IfOk result (λ matches. rows_of (found_of matches)
        ≡ matches_of (app_of command.entry) (texts_of words.entry.now)) }
    ensures taken { IfOk result (λ _.
        fault_of (app_of command.entry) (texts_of words.entry.now) ≡ []) }
    ensures usage { IsErrOf result WordsError.Usage
        → fault_of (app_of command.entry) (texts_of words.entry.now) ≢ [] }
{
    match command.try_get_matches_from(words) {
        Ok(matches) => Ok(matches),
        Err(error) => match error.kind() {
            ErrorKind::OutOfMemory => Err(WordsError::Memory),
            _ => Err(WordsError::Usage),
        },
    }
}

/// The value of an argument, if it has one.
fn value_of<'a>(matches: &ArgMatches<'a>, id: &str) -> Option<&'a str>
    ensures some { IfSome result (λ text.
        HasText (rows_of (found_of matches.now)) id.now text.now) }
    ensures none { IfNone result ((text : Text)
        → HasText (rows_of (found_of matches.now)) id.now text → ⊥) }
{
    matches.get_str(id)
}

/// The value of an argument that has one.
fn text_of<'a>(matches: &ArgMatches<'a>, id: &str) -> Result<&'a str, WordsError>
    ensures ok { IfOk result (λ text. HasText (rows_of (found_of matches.now)) id.now text.now) }
    ensures usage { IsErrOf result WordsError.Usage
        → (text : Text) → HasText (rows_of (found_of matches.now)) id.now text → ⊥ }
{
    match value_of(matches, id) {
        Some(text) => Ok(text),
        None => Err(WordsError::Usage),
    }
}

/// The name of a device.
pub fn name_of(alloc: Global, matches: &ArgMatches<'_>, id: &str) -> Result<Name, WordsError>
    ensures ok { IfOk result (HasText (rows_of (found_of matches.now)) id.now) }
    ensures usage { IsErrOf result WordsError.Usage
        → (text : Text) → HasText (rows_of (found_of matches.now)) id.now text → ⊥ }
{
    let text = text_of(matches, id)?;
    Ok(Name::from_text(alloc, text)?)
}

/// A number from `least` to `most`.
pub fn number_of(
    matches: &ArgMatches<'_>,
    id: &str,
    least: u64,
    most: u64,
) -> Result<u64, WordsError>
    ensures ok { IfOk result (HasNumber (rows_of (found_of matches.now)) id.now least most) }
    ensures usage { IsErrOf result WordsError.Usage
        → (number : ℕ) → HasNumber (rows_of (found_of matches.now)) id.now least most number → ⊥ }
{
    let text = text_of(matches, id)?;
    match read_decimal(text.as_bytes()) {
        Some(number) if least <= number && number <= most => Ok(number),
        _ => Err(WordsError::Usage),
    }
}

/// The era since which blocks are asked for.
pub fn era_of(matches: &ArgMatches<'_>) -> Result<u32, WordsError>
    ensures ok { IfOk result (HasEra (rows_of (found_of matches.now)) (codes "written-since")) }
    ensures usage { IsErrOf result WordsError.Usage
        → (era : ℕ) → HasEra (rows_of (found_of matches.now)) (codes "written-since") era → ⊥ }
{
    let era = number_of(matches, "written-since", 0, u64::from(LAST_ERA))?;
    Ok(era as u32)
}

/// The number of stripes.
pub fn stripes_of(matches: &ArgMatches<'_>) -> Result<u32, WordsError>
    ensures ok { IfOk result (HasStripes (rows_of (found_of matches.now))) }
    ensures usage { IsErrOf result WordsError.Usage
        → (stripes : ℕ) → HasStripes (rows_of (found_of matches.now)) stripes → ⊥ }
{
    let stripes = number_of(matches, "stripes", 1, u64::from(MOST_STRIPES))?;
    Ok(stripes as u32)
}

/// Whether a flag was given.
pub fn has_flag(matches: &ArgMatches<'_>, id: &str) -> bool
    ensures { HasFlag (rows_of (found_of matches.now)) id.now result }
{
    match value_of(matches, id) {
        Some("true") => true,
        _ => false,
    }
}

/// A table line.
pub fn table_of(alloc: Global, matches: &ArgMatches<'_>, id: &str) -> Result<TableLine, WordsError>
    ensures ok { IfOk result (HasTable (rows_of (found_of matches.now)) id.now) }
    ensures usage { IsErrOf result WordsError.Usage
        → (line : table_line) → HasTable (rows_of (found_of matches.now)) id.now line → ⊥ }
{
    let text = text_of(matches, id)?;
    match read_table(alloc, text) {
        Ok(line) => Ok(line),
        Err(LineFault::NotATable) => Err(WordsError::Usage),
        Err(LineFault::Memory) => Err(WordsError::Memory),
    }
}
