//! Spellings of words. A row has the words with a bar between two, and what they ask for: the command and the values
//! of its fields, or `usage`.

use era_line::TableLine;
use era_words::{Job, WordsError, read_words};
use std::alloc::{AllocError, Global};
use std::test::*;

/// Words that name no command.
static NAMES: [(&str, &str); 6] = [
    ("", "usage"),
    ("Serve|0 8 era m o 8", "usage"),
    ("serve |0 8 era m o 8", "usage"),
    ("--|check|m", "usage"),
    ("help", "usage"),
    ("--version", "usage"),
];

static SESSIONS: [(&str, &str); 10] = [
    ("serve|0 9 era m o 8", "serve 9 m o 8 4 0"),
    ("serve|0 9 era m o 8|--stripes|1", "serve 9 m o 8 1 0"),
    ("serve|--stripes=16|0 9 era m o 8", "serve 9 m o 8 16 0"),
    (
        "serve|--digest|4096|--|0 9 era m o 8",
        "serve 9 m o 8 4 4096",
    ),
    ("serve|0 9 era m o 8|--digest=0|--", "serve 9 m o 8 4 0"),
    ("load|0 9 era m o 8|0", "load 9 m o 8 0 4"),
    (
        "load|0 9 era m o 8|--stripes=2|18446744073709551615",
        "load 9 m o 8 18446744073709551615 2",
    ),
    ("load|0 9 era m o 8|18446744073709551616", "usage"),
    ("load|7|0 9 era m o 8", "usage"),
    ("load|0 9 era m o 8|7|--digest=1", "usage"),
];

static NO_SESSIONS: [(&str, &str); 18] = [
    ("serve", "usage"),
    ("serve|0 09 era m o 8", "usage"),
    ("serve|0 9 era  o 8", "usage"),
    ("serve|0 9 era m o 8|0 9 era m o 8", "usage"),
    ("serve|0 9 era m o 8|--stripes", "usage"),
    ("serve|0 9 era m o 8|--stripes=", "usage"),
    ("serve|0 9 era m o 8|--stripes=0", "usage"),
    ("serve|0 9 era m o 8|--stripes=17", "usage"),
    ("serve|0 9 era m o 8|--stripes=04", "usage"),
    ("serve|0 9 era m o 8|--stripes=+4", "usage"),
    ("serve|0 9 era m o 8|--stripes|-1", "usage"),
    ("serve|0 9 era m o 8|--stripes|-", "usage"),
    ("serve|0 9 era m o 8|--stripes=4|--stripes=4", "usage"),
    ("serve|0 9 era m o 8|--stripe=4", "usage"),
    ("serve|0 9 era m o 8|--digest=4097", "usage"),
    ("serve|0 9 era m o 8|--|--digest=1", "usage"),
    ("serve|0 9 era m o 8|--help", "usage"),
    ("serve|0 9 era m o 8|-h", "usage"),
];

static TOOLS: [(&str, &str); 16] = [
    ("need|0|18446744073709551615", "need 0 18446744073709551615"),
    ("need|--|512|8", "need 512 8"),
    ("invalidate|m|--written-since|0", "invalidate m 0 false"),
    (
        "invalidate|--written-since=4294967295|m",
        "invalidate m 4294967295 false",
    ),
    (
        "invalidate|--metadata-snapshot|-|--written-since|7",
        "invalidate - 7 true",
    ),
    (
        "invalidate|--written-since|7|--|--metadata-snapshot",
        "invalidate --metadata-snapshot 7 false",
    ),
    ("check|", "check "),
    ("check|--|--", "check --"),
    ("dump|--logical|m", "dump m true"),
    ("dump|m n", "dump m n false"),
    ("restore|m", "restore m"),
    ("restore|--|-m", "restore -m"),
    ("backup|--written-since|3|m|o", "backup m o 3"),
    ("backup|m|--written-since=3|o", "backup m o 3"),
    ("apply|o", "apply o"),
    ("apply|-", "apply -"),
];

static NO_TOOLS: [(&str, &str); 18] = [
    ("need|512", "usage"),
    ("need|512|8|8", "usage"),
    ("need|+512|8", "usage"),
    ("need|512|18446744073709551616", "usage"),
    ("invalidate|m", "usage"),
    ("invalidate|m|--written-since", "usage"),
    ("invalidate|m|--written-since|4294967296", "usage"),
    ("invalidate|m|--written-since=1|--written-since=1", "usage"),
    (
        "invalidate|m|--written-since=1|--metadata-snapshot=true",
        "usage",
    ),
    (
        "invalidate|m|--written-since=1|--metadata-snapshot|--metadata-snapshot",
        "usage",
    ),
    ("invalidate|m|--written-since=-1", "usage"),
    ("check|-m", "usage"),
    ("check|m|m", "usage"),
    ("dump|m|--logic", "usage"),
    ("restore", "usage"),
    ("backup|m|o", "usage"),
    ("backup|m|--written-since=3", "usage"),
    ("apply|o|--version", "usage"),
];

/// The words of a row.
fn words_of(alloc: Global, row: &str) -> Result<Vec<String>, AllocError> {
    row.split('|')
        .map(|word| String::from_str(alloc, word))
        .try_collect(alloc)
}

/// What a session, a load or a need is asked to do.
fn told_session(alloc: Global, job: &Job) -> Result<String, AllocError> {
    match job {
        Job::Serve {
            line,
            stripes,
            digest,
        } => format!(in alloc; "serve {} {stripes} {digest}", told_line(alloc, line)?),
        Job::Load {
            line,
            seed,
            stripes,
        } => format!(in alloc; "load {} {seed} {stripes}", told_line(alloc, line)?),
        Job::Need {
            sectors,
            block_sectors,
        } => format!(in alloc; "need {sectors} {block_sectors}"),
        _ => told_tool(alloc, job),
    }
}

/// What a table line says.
fn told_line(alloc: Global, line: &TableLine) -> Result<String, AllocError> {
    let (meta, origin) = (line.meta.as_str(), line.origin.as_str());
    format!(in alloc; "{} {meta} {origin} {}", line.length, line.block_sectors)
}

/// What a tool is asked to do.
fn told_tool(alloc: Global, job: &Job) -> Result<String, AllocError> {
    match job {
        Job::Invalidate { meta, since, snap } => {
            format!(in alloc; "invalidate {} {} {}", meta.as_str(), since, snap)
        }
        Job::Check { meta } => format!(in alloc; "check {}", meta.as_str()),
        Job::Dump { meta, logical } => format!(in alloc; "dump {} {}", meta.as_str(), logical),
        Job::Restore { meta } => format!(in alloc; "restore {}", meta.as_str()),
        Job::Backup {
            meta,
            origin,
            since,
        } => format!(in alloc; "backup {} {} {}", meta.as_str(), origin.as_str(), since),
        Job::Apply { origin } => format!(in alloc; "apply {}", origin.as_str()),
        _ => format!(in alloc; "no tool"),
    }
}

/// What the words of a row ask for.
fn told(alloc: Global, row: &str) -> Result<String, AllocError> {
    let words = words_of(alloc, row)?;
    match read_words(alloc, words.as_slice()) {
        Ok(job) => told_session(alloc, &job),
        Err(WordsError::Usage) => String::from_str(alloc, "usage"),
        Err(WordsError::Memory) => String::from_str(alloc, "memory"),
    }
}

#[test]
fn words_of_no_command(rt: HostRuntime) -> Result<(), Fail> {
    assert!(rt; matches!(read_words(rt.alloc(), &[]), Err(WordsError::Usage)));
    for (words, expected) in &NAMES {
        let asked = told(rt.alloc(), words)?;
        assert_eq!(rt; asked.as_str(), *expected, "at {words}");
    }
    Ok(())
}

#[test]
fn words_of_sessions(rt: HostRuntime) -> Result<(), Fail> {
    for (words, expected) in SESSIONS.iter().chain(NO_SESSIONS.iter()) {
        let asked = told(rt.alloc(), words)?;
        assert_eq!(rt; asked.as_str(), *expected, "at {words}");
    }
    Ok(())
}

#[test]
fn words_of_tools(rt: HostRuntime) -> Result<(), Fail> {
    for (words, expected) in TOOLS.iter().chain(NO_TOOLS.iter()) {
        let asked = told(rt.alloc(), words)?;
        assert_eq!(rt; asked.as_str(), *expected, "at {words}");
    }
    Ok(())
}
