//! Jobs from the values of a command's arguments.

ghost use Rattle.std.specs.Prelude.{IfOk, IsErrOf};
ghost use Rattle.clap.specs.Words.{found_of, rows_of};
ghost use Rattle.era_words.specs.Jobs.{AskFor, AskForNothing};

use crate::arguments::{era_of, has_flag, name_of, number_of, stripes_of, table_of};
use crate::command_name::CommandName;
use crate::errors::WordsError;
use crate::job::Job;
use clap::ArgMatches;
use std::alloc::Global;

fn serve_job(alloc: Global, matches: &ArgMatches<'_>) -> Result<Job, WordsError>
    ensures ok { IfOk result (AskFor CommandName.Serve (rows_of (found_of matches.now))) }
    ensures usage { IsErrOf result WordsError.Usage
        → AskForNothing CommandName.Serve (rows_of (found_of matches.now)) }
{
    let line = table_of(alloc, matches, "line")?;
    let stripes = stripes_of(matches)?;
    let digest = number_of(matches, "digest", 0, 4_096)? as u32;
    Ok(Job::Serve {
        line,
        stripes,
        digest,
    })
}

fn load_job(alloc: Global, matches: &ArgMatches<'_>) -> Result<Job, WordsError>
    ensures ok { IfOk result (AskFor CommandName.Load (rows_of (found_of matches.now))) }
    ensures usage { IsErrOf result WordsError.Usage
        → AskForNothing CommandName.Load (rows_of (found_of matches.now)) }
{
    let line = table_of(alloc, matches, "line")?;
    let seed = number_of(matches, "seed", 0, u64::MAX)?;
    let stripes = stripes_of(matches)?;
    Ok(Job::Load {
        line,
        seed,
        stripes,
    })
}

fn need_job(matches: &ArgMatches<'_>) -> Result<Job, WordsError>
    ensures ok { IfOk result (AskFor CommandName.Need (rows_of (found_of matches.now))) }
    ensures usage { IsErrOf result WordsError.Usage
        → AskForNothing CommandName.Need (rows_of (found_of matches.now)) }
{
    let sectors = number_of(matches, "sectors", 0, u64::MAX)?;
    let block_sectors = number_of(matches, "block-size", 0, u64::MAX)?;
    Ok(Job::Need {
        sectors,
        block_sectors,
    })
}

fn invalidate_job(alloc: Global, matches: &ArgMatches<'_>) -> Result<Job, WordsError>
    ensures ok { IfOk result (AskFor CommandName.Invalidate (rows_of (found_of matches.now))) }
    ensures usage { IsErrOf result WordsError.Usage
        → AskForNothing CommandName.Invalidate (rows_of (found_of matches.now)) }
{
    let meta = name_of(alloc, matches, "meta")?;
    let since = era_of(matches)?;
    let snap = has_flag(matches, "metadata-snapshot");
    Ok(Job::Invalidate { meta, since, snap })
}

fn check_job(alloc: Global, matches: &ArgMatches<'_>) -> Result<Job, WordsError>
    ensures ok { IfOk result (AskFor CommandName.Check (rows_of (found_of matches.now))) }
    ensures usage { IsErrOf result WordsError.Usage
        → AskForNothing CommandName.Check (rows_of (found_of matches.now)) }
{
    let meta = name_of(alloc, matches, "meta")?;
    Ok(Job::Check { meta })
}

fn dump_job(alloc: Global, matches: &ArgMatches<'_>) -> Result<Job, WordsError>
    ensures ok { IfOk result (AskFor CommandName.Dump (rows_of (found_of matches.now))) }
    ensures usage { IsErrOf result WordsError.Usage
        → AskForNothing CommandName.Dump (rows_of (found_of matches.now)) }
{
    let meta = name_of(alloc, matches, "meta")?;
    let logical = has_flag(matches, "logical");
    Ok(Job::Dump { meta, logical })
}

fn restore_job(alloc: Global, matches: &ArgMatches<'_>) -> Result<Job, WordsError>
    ensures ok { IfOk result (AskFor CommandName.Restore (rows_of (found_of matches.now))) }
    ensures usage { IsErrOf result WordsError.Usage
        → AskForNothing CommandName.Restore (rows_of (found_of matches.now)) }
{
    let meta = name_of(alloc, matches, "meta")?;
    Ok(Job::Restore { meta })
}

fn backup_job(alloc: Global, matches: &ArgMatches<'_>) -> Result<Job, WordsError>
    ensures ok { IfOk result (AskFor CommandName.Backup (rows_of (found_of matches.now))) }
    ensures usage { IsErrOf result WordsError.Usage
        → AskForNothing CommandName.Backup (rows_of (found_of matches.now)) }
{
    let meta = name_of(alloc, matches, "meta")?;
    let origin = name_of(alloc, matches, "origin")?;
    let since = era_of(matches)?;
    Ok(Job::Backup {
        meta,
        origin,
        since,
    })
}

fn apply_job(alloc: Global, matches: &ArgMatches<'_>) -> Result<Job, WordsError>
    ensures ok { IfOk result (AskFor CommandName.Apply (rows_of (found_of matches.now))) }
    ensures usage { IsErrOf result WordsError.Usage
        → AskForNothing CommandName.Apply (rows_of (found_of matches.now)) }
{
    let origin = name_of(alloc, matches, "origin")?;
    Ok(Job::Apply { origin })
}

/// The job that the values of a command's arguments ask for.
pub fn job_of(alloc: Global, name: CommandName, matches: &ArgMatches<'_>) -> Result<Job, WordsError>
    ensures ok { IfOk result (AskFor name (rows_of (found_of matches.now))) }
    ensures usage { IsErrOf result WordsError.Usage
        → AskForNothing name (rows_of (found_of matches.now)) }
{
    match name {
        CommandName::Serve => serve_job(alloc, matches),
        CommandName::Load => load_job(alloc, matches),
        CommandName::Need => need_job(matches),
        CommandName::Invalidate => invalidate_job(alloc, matches),
        CommandName::Check => check_job(alloc, matches),
        CommandName::Dump => dump_job(alloc, matches),
        CommandName::Restore => restore_job(alloc, matches),
        CommandName::Backup => backup_job(alloc, matches),
        CommandName::Apply => apply_job(alloc, matches),
    }
}
