//! Words of the command line, and what they are answered.

use crate::row::Answer::Whole;
use crate::row::Sent::Text;
use crate::row::{Row, SERVE, TABLE};
use crate::run::first_unmet;
use std::test::Fail;

/// Words that are answered with one line, over an origin of 512 sectors of which nothing is written.
const USAGE: Row<'static> = Row {
    shows: "words that are no command",
    words: SERVE,
    origin: 512,
    fails: &[],
    stream: &[Text("0 write")],
    answer: Whole("refused Usage\n"),
    status: 2,
    holds: &[(0, 262_144, 0)],
};

static NEEDS: [Row<'static>; 7] = [
    Row {
        shows: "the need of 64 blocks",
        words: &["need", "512", "8"],
        answer: Whole("need 57\n"),
        status: 0,
        ..USAGE
    },
    Row {
        shows: "the need of a short block",
        words: &["need", "1", "128"],
        answer: Whole("need 57\n"),
        status: 0,
        ..USAGE
    },
    Row {
        shows: "the need of 1,025 blocks",
        words: &["need", "8200", "8"],
        answer: Whole("need 60\n"),
        status: 0,
        ..USAGE
    },
    Row {
        shows: "the need of 65,536 blocks",
        words: &["need", "524288", "8"],
        answer: Whole("need 297\n"),
        status: 0,
        ..USAGE
    },
    Row {
        shows: "one block too many",
        words: &["need", "524289", "8"],
        answer: Whole("refused TooManyBlocks 65537\n"),
        status: 6,
        ..USAGE
    },
    Row {
        shows: "the block size is tested first",
        words: &["need", "18446744073709551615", "4"],
        answer: Whole("refused BadBlockSize 4\n"),
        status: 6,
        ..USAGE
    },
    Row {
        shows: "no blocks",
        words: &["need", "0", "8"],
        answer: Whole("refused NoBlocks\n"),
        status: 6,
        ..USAGE
    },
];

static NO_COMMANDS: [Row<'static>; 13] = [
    Row {
        words: &[],
        ..USAGE
    },
    Row {
        words: &["serve"],
        ..USAGE
    },
    Row {
        words: &["need", "512"],
        ..USAGE
    },
    Row {
        words: &["need", "512", "08"],
        ..USAGE
    },
    Row {
        words: &["need", "512", "8", "8"],
        ..USAGE
    },
    Row {
        words: &["need", "18446744073709551616", "8"],
        ..USAGE
    },
    Row {
        words: &["serve", TABLE, "--digest"],
        ..USAGE
    },
    Row {
        words: &["serve", TABLE, "--stripes=0"],
        ..USAGE
    },
    Row {
        words: &["serve", TABLE, "--stripes=17"],
        ..USAGE
    },
    Row {
        words: &["serve", TABLE, "--digest=4097"],
        ..USAGE
    },
    Row {
        words: &["serve", TABLE, "--stripes=04"],
        ..USAGE
    },
    Row {
        words: &["serve", TABLE, "--stripes=4", "--stripes=4"],
        ..USAGE
    },
    Row {
        words: &["serve", TABLE, "--help"],
        ..USAGE
    },
];

static NO_WORDS: [Row<'static>; 8] = [
    Row {
        words: &["Serve", TABLE],
        ..USAGE
    },
    Row {
        words: &["serve", "1 512 era meta origin 8"],
        ..USAGE
    },
    Row {
        words: &["serve", "0 512 era meta origin 08"],
        ..USAGE
    },
    Row {
        words: &["serve", "0 512 era meta  origin 8"],
        ..USAGE
    },
    Row {
        words: &["invalidate", "meta"],
        ..USAGE
    },
    Row {
        words: &["check"],
        ..USAGE
    },
    Row {
        words: &["check", "meta", "meta"],
        ..USAGE
    },
    Row {
        words: &["check", "-m"],
        ..USAGE
    },
];

/// Words of a command, or with an option, that is not served yet.
const LATER: Row<'static> = Row {
    shows: "words that are not served yet",
    answer: Whole("refused NotYet\n"),
    ..USAGE
};

static NOT_YET: [Row<'static>; 5] = [
    Row {
        words: &["serve", TABLE, "--stripes", "5"],
        ..LATER
    },
    Row {
        words: &["serve", TABLE, "--digest=1"],
        ..LATER
    },
    Row {
        words: &["serve", "0 512 era meta origin 12", "--stripes=5"],
        ..LATER
    },
    Row {
        words: &["load", TABLE, "7"],
        ..LATER
    },
    Row {
        words: &["apply", "origin"],
        ..LATER
    },
];

/// Options that are given their defaults, and a word that stands behind `--`.
const DEFAULTS: Row<'static> = Row {
    shows: "options that are given their defaults",
    words: &["serve", TABLE, "--stripes=4", "--digest", "0"],
    stream: &[Text("0 checkpoint\n")],
    answer: Whole("open 1 64\n1 era 2 e0\nend 2 1\n"),
    status: 0,
    ..USAGE
};

static OPTIONS: [Row<'static>; 3] = [
    Row { ..DEFAULTS },
    Row {
        shows: "a table line behind the end of the options",
        words: &["serve", "--", TABLE],
        ..DEFAULTS
    },
    Row {
        shows: "numbers behind the end of the options",
        words: &["need", "--", "512", "8"],
        answer: Whole("need 57\n"),
        ..DEFAULTS
    },
];

static NO_GEOMETRIES: [Row<'static>; 5] = [
    Row {
        shows: "no power of two",
        words: &["serve", "0 512 era meta origin 12"],
        answer: Whole("refused BadBlockSize 12\n"),
        status: 6,
        ..USAGE
    },
    Row {
        shows: "the block size is tested before the sectors",
        words: &["serve", "0 0 era meta origin 136"],
        answer: Whole("refused BadBlockSize 136\n"),
        status: 6,
        ..USAGE
    },
    Row {
        shows: "an origin without blocks",
        words: &["serve", "0 0 era meta origin 8"],
        answer: Whole("refused NoBlocks\n"),
        status: 6,
        ..USAGE
    },
    Row {
        shows: "an origin of one block too many",
        words: &["serve", "0 524289 era meta origin 8"],
        answer: Whole("refused TooManyBlocks 65537\n"),
        status: 6,
        ..USAGE
    },
    Row {
        shows: "a device that is smaller than the table says",
        words: &["serve", "0 520 era meta origin 8"],
        answer: Whole("refused OriginSmall 512 520\n"),
        status: 6,
        ..USAGE
    },
];

#[test]
fn needs_are_told(rt: HostRuntime) -> Result<(), Fail> {
    let unmet = first_unmet(&rt, rt.alloc(), NEEDS.as_slice())?;
    assert_eq!(rt; unmet, None);
    Ok(())
}

#[test]
fn other_words_are_no_command(rt: HostRuntime) -> Result<(), Fail> {
    let unmet = first_unmet(&rt, rt.alloc(), NO_COMMANDS.as_slice())?;
    assert_eq!(rt; unmet, None);
    Ok(())
}

#[test]
fn malformed_words_are_no_command(rt: HostRuntime) -> Result<(), Fail> {
    let unmet = first_unmet(&rt, rt.alloc(), NO_WORDS.as_slice())?;
    assert_eq!(rt; unmet, None);
    Ok(())
}

#[test]
fn other_commands_are_not_served_yet(rt: HostRuntime) -> Result<(), Fail> {
    let unmet = first_unmet(&rt, rt.alloc(), NOT_YET.as_slice())?;
    assert_eq!(rt; unmet, None);
    Ok(())
}

#[test]
fn options_may_be_given_their_defaults(rt: HostRuntime) -> Result<(), Fail> {
    let unmet = first_unmet(&rt, rt.alloc(), OPTIONS.as_slice())?;
    assert_eq!(rt; unmet, None);
    Ok(())
}

#[test]
fn numbers_that_are_no_geometry_are_refused(rt: HostRuntime) -> Result<(), Fail> {
    let unmet = first_unmet(&rt, rt.alloc(), NO_GEOMETRIES.as_slice())?;
    assert_eq!(rt; unmet, None);
    Ok(())
}
