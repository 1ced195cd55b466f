//! The first word of a command.

ghost use Rattle.std.specs.Prelude.{◌≡◌, IfSome, IfNone};
ghost use Rattle.era_words.specs.Names.{word_of, IsNoName};

/// A command, as its first word names it.
#[derive(Clone, Copy, Debug, PartialEq, Eq)]
pub enum CommandName {
    Serve,
    Load,
    Need,
    Invalidate,
    Check,
    Dump,
    Restore,
    Backup,
    Apply,
}

/// The command that a word names.
pub fn name_of_word(word: &str) -> Option<CommandName>
    ensures some { IfSome result (λ name. word.now ≡ word_of name) }
    ensures none { IfNone result (IsNoName word.now) }
{
    match word {
        "serve" => Some(CommandName::Serve),
        "load" => Some(CommandName::Load),
        "need" => Some(CommandName::Need),
        "invalidate" => Some(CommandName::Invalidate),
        "check" => Some(CommandName::Check),
        "dump" => Some(CommandName::Dump),
        "restore" => Some(CommandName::Restore),
        "backup" => Some(CommandName::Backup),
        "apply" => Some(CommandName::Apply),
        _ => None,
    }
}
