//! One `clap` command for each command of the program.

ghost use Rattle.std.specs.Prelude.{◌≡◌, IfOk};
ghost use Rattle.clap.specs.Words.{app_of};
ghost use Rattle.era_words.specs.Commands.{app_for};

use crate::command_name::CommandName;
use crate::rules::{
    bare_command, needed_option, option_with_default, positional_word, simple_flag,
};
use clap::Command;
use era_base::Memory;
use std::alloc::Global;

fn serve_command<'a>(alloc: Global) -> Result<Command<'a>, Memory>
    ensures { IfOk result (λ command. app_of command ≡ app_for CommandName.Serve) }
{
    let line = positional_word(alloc, "line");
    let stripes = option_with_default(alloc, "stripes", "4");
    let digest = option_with_default(alloc, "digest", "0");
    let command = bare_command(alloc, "serve").arg(line)?;
    Ok(command.arg(stripes)?.arg(digest)?)
}

fn load_command<'a>(alloc: Global) -> Result<Command<'a>, Memory>
    ensures { IfOk result (λ command. app_of command ≡ app_for CommandName.Load) }
{
    let line = positional_word(alloc, "line");
    let seed = positional_word(alloc, "seed");
    let stripes = option_with_default(alloc, "stripes", "4");
    let command = bare_command(alloc, "load").arg(line)?;
    Ok(command.arg(seed)?.arg(stripes)?)
}

fn need_command<'a>(alloc: Global) -> Result<Command<'a>, Memory>
    ensures { IfOk result (λ command. app_of command ≡ app_for CommandName.Need) }
{
    let sectors = positional_word(alloc, "sectors");
    let block_size = positional_word(alloc, "block-size");
    let command = bare_command(alloc, "need").arg(sectors)?;
    Ok(command.arg(block_size)?)
}

fn invalidate_command<'a>(alloc: Global) -> Result<Command<'a>, Memory>
    ensures { IfOk result (λ command. app_of command ≡ app_for CommandName.Invalidate) }
{
    let meta = positional_word(alloc, "meta");
    let since = needed_option(alloc, "written-since");
    let snap = simple_flag(alloc, "metadata-snapshot");
    let command = bare_command(alloc, "invalidate").arg(meta)?;
    Ok(command.arg(since)?.arg(snap)?)
}

fn check_command<'a>(alloc: Global) -> Result<Command<'a>, Memory>
    ensures { IfOk result (λ command. app_of command ≡ app_for CommandName.Check) }
{
    let meta = positional_word(alloc, "meta");
    Ok(bare_command(alloc, "check").arg(meta)?)
}

fn dump_command<'a>(alloc: Global) -> Result<Command<'a>, Memory>
    ensures { IfOk result (λ command. app_of command ≡ app_for CommandName.Dump) }
{
    let meta = positional_word(alloc, "meta");
    let logical = simple_flag(alloc, "logical");
    let command = bare_command(alloc, "dump").arg(meta)?;
    Ok(command.arg(logical)?)
}

fn restore_command<'a>(alloc: Global) -> Result<Command<'a>, Memory>
    ensures { IfOk result (λ command. app_of command ≡ app_for CommandName.Restore) }
{
    let meta = positional_word(alloc, "meta");
    Ok(bare_command(alloc, "restore").arg(meta)?)
}

fn backup_command<'a>(alloc: Global) -> Result<Command<'a>, Memory>
    ensures { IfOk result (λ command. app_of command ≡ app_for CommandName.Backup) }
{
    let meta = positional_word(alloc, "meta");
    let origin = positional_word(alloc, "origin");
    let since = needed_option(alloc, "written-since");
    let command = bare_command(alloc, "backup").arg(meta)?;
    Ok(command.arg(origin)?.arg(since)?)
}

fn apply_command<'a>(alloc: Global) -> Result<Command<'a>, Memory>
    ensures { IfOk result (λ command. app_of command ≡ app_for CommandName.Apply) }
{
    let origin = positional_word(alloc, "origin");
    Ok(bare_command(alloc, "apply").arg(origin)?)
}

/// The `clap` command of a command.
pub fn command_for<'a>(alloc: Global, name: CommandName) -> Result<Command<'a>, Memory>
    ensures { IfOk result (λ command. app_of command ≡ app_for name) }
{
    match name {
        CommandName::Serve => serve_command(alloc),
        CommandName::Load => load_command(alloc),
        CommandName::Need => need_command(alloc),
        CommandName::Invalidate => invalidate_command(alloc),
        CommandName::Check => check_command(alloc),
        CommandName::Dump => dump_command(alloc),
        CommandName::Restore => restore_command(alloc),
        CommandName::Backup => backup_command(alloc),
        CommandName::Apply => apply_command(alloc),
    }
}
