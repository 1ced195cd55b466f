//! What standard error says of an answer: how the program is called, or what the kind of a refused line means.

ghost use Rattle.std.specs.Prelude.{◌≡◌, None};

use era_disks::LastLines;

/// How the program is called.
const USAGE: &str =
    "call it as eractl serve '0 <sectors> era <metadata> <origin> <block size>', with the \
commands as input, or as eractl need <sectors> <block size>, eractl check <metadata>, \
eractl dump <metadata> [--logical], eractl restore <metadata>, with a dump as input, eractl \
invalidate <metadata> --written-since <era> [--metadata-snapshot], or eractl backup <metadata> \
<origin> --written-since <era>";

/// What each kind of a refused line means.
const LONG_LINE: &str = "the line has more than 131,200 bytes";

const UNKNOWN: &str =
    "the line has no form of the stream: its words or its command are none, as 0 write <sector> \
<hexadecimal digits>, 0 checkpoint, 0 list <era> and run are, with single spaces between them";

const BAD_NUMBER: &str =
    "a lane, sector, count or era of the line is no decimal number in its range";

const BAD_HEX: &str = "the bytes of the write aren't 1 to 128 sectors as hexadecimal digits";

const ROUND_BIG: &str =
    "with the line its round would have more than 4,096 commands or 67,108,864 bytes";

const TOO_MANY: &str =
    "it is behind line 131,072, or with it the session would have more than 65,536 commands or \
268,435,456 bytes";

const NOT_YET: &str =
    "the command of the line is not served yet: served are 0 write <sector> <hexadecimal digits>, \
0 checkpoint and 0 list <era>";

/// The words that belong to an answer with this status whose text ended in these lines, if any do.
pub fn words_for(status: u8, lines: &LastLines) -> Option<&'static str> {
    match status {
        2 => Some(USAGE),
        // The line that was refused is the last one, or stands before that of the session's end.
        3 => match meaning_of(lines.last.whole()) {
            Some(words) => Some(words),
            None => meaning_of(lines.before.whole()),
        },
        _ => None,
    }
}

/// What the kind of a refused line means, where this is the text that tells it. A line that was cut isn't.
fn meaning_of(line: Option<&[u8]>) -> Option<&'static str> {
    let line = line?;
    if !line.starts_with(b"line ".as_slice()) {
        None
    } else if line.ends_with(b" LongLine".as_slice()) {
        Some(LONG_LINE)
    } else if line.ends_with(b" Unknown".as_slice()) {
        Some(UNKNOWN)
    } else if line.ends_with(b" BadNumber".as_slice()) {
        Some(BAD_NUMBER)
    } else if line.ends_with(b" BadHex".as_slice()) {
        Some(BAD_HEX)
    } else if line.ends_with(b" RoundBig".as_slice()) {
        Some(ROUND_BIG)
    } else if line.ends_with(b" TooMany".as_slice()) {
        Some(TOO_MANY)
    } else if line.ends_with(b" NotYet".as_slice()) {
        Some(NOT_YET)
    } else {
        None
    }
}
