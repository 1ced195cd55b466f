//! The reading of the words.

ghost use Rattle.std.specs.Prelude.{IfOk, IsErrOf};
ghost use Rattle.era_words.specs.Names.{word_of};
ghost use Rattle.era_words.specs.Words.{texts_of, BeginWith, NameNoCommand, IsJob, IsNoJob};

use crate::arguments::read_arguments;
use crate::command_name::{CommandName, name_of_word};
use crate::commands::command_for;
use crate::errors::WordsError;
use crate::job::Job;
use crate::jobs::job_of;
use std::alloc::Global;

/// The command that the first word names.
fn named_command(words: &[String]) -> Result<CommandName, WordsError>
    ensures ok { IfOk result (λ name. BeginWith (texts_of words.now) (word_of name)) }
    ensures usage { IsErrOf result WordsError.Usage → NameNoCommand (texts_of words.now) }
{
    let Some(first) = words.first() else {
        return Err(WordsError::Usage);
    };
    match name_of_word(first.as_str()) {
        Some(name) => Ok(name),
        None => Err(WordsError::Usage),
    }
}

/// What the words behind the program's name ask for. The first one names a command, and the others are its arguments.
pub fn read_words(alloc: Global, words: &[String]) -> Result<Job, WordsError>
    ensures ok { IfOk result (IsJob (texts_of words.now)) }
    ensures usage { IsErrOf result WordsError.Usage → IsNoJob (texts_of words.now) }
{
    let name = named_command(words)?;
    let command = command_for(alloc, name)?;
    let matches = read_arguments(command, words)?;
    job_of(alloc, name, &matches)
}
