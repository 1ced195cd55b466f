//! Commands and arguments for `clap`, of the kinds that the program has.

ghost use Rattle.std.specs.Prelude.{◌≡◌, [], false};
ghost use Rattle.clap.specs.Words.{app_of, rule_of};
ghost use Rattle.era_words.specs.Rules.{command, positional, required_option, option_or, flag};

use clap::{Arg, ArgAction, Command};
use std::alloc::Global;

/// A command without arguments, and without a flag for help.
pub fn bare_command<'a>(alloc: Global, name: &'a str) -> Command<'a>
    ensures { app_of result ≡ command name.entry.now [] }
{
    Command::new(alloc, name).disable_help_flag(true)
}

/// A word that is told from others by its place, and has to be there.
pub fn positional_word<'a>(alloc: Global, id: &'a str) -> Arg<'a>
    ensures rule { rule_of result ≡ positional id.entry.now }
    ensures local { result.global ≡ false }
{
    Arg::new(alloc, id).action(ArgAction::Set).required(true)
}

/// An option that has to be given, with a value.
pub fn needed_option<'a>(alloc: Global, id: &'a str) -> Arg<'a>
    ensures rule { rule_of result ≡ required_option id.entry.now }
    ensures local { result.global ≡ false }
{
    Arg::new(alloc, id)
        .long(id)
        .action(ArgAction::Set)
        .required(true)
}

/// An option with a value, and the value that it has where it isn't given.
pub fn option_with_default<'a>(alloc: Global, id: &'a str, value: &'a str) -> Arg<'a>
    ensures rule { rule_of result ≡ option_or id.entry.now value.entry.now }
    ensures local { result.global ≡ false }
{
    Arg::new(alloc, id)
        .long(id)
        .action(ArgAction::Set)
        .default_value(value)
}

/// A flag, which has no value.
pub fn simple_flag<'a>(alloc: Global, id: &'a str) -> Arg<'a>
    ensures rule { rule_of result ≡ flag id.entry.now }
    ensures local { result.global ≡ false }
{
    Arg::new(alloc, id).long(id).action(ArgAction::SetTrue)
}
