//! What a line says: its form by the number of its words and its command word, then its numbers, then its bytes.

ghost use Rattle.std.specs.Prelude.{◌≡◌, ◌≤◌, length, IfOk};
ghost use Rattle.era_plan.specs.Forms.{bytes_of, four_words_say, is_payload as is_payload_of, line_says, list_says, one_word_says, read_says, request_of, request_says, three_words_say, write_says};

use crate::numbers::{read_count, read_era, read_lane, read_sector};
use crate::round::LineKind;
use crate::says::Says;
use era_base::{Bytes, Memory};
use era_line::split_word;
use era_model::{Request, Task};
use hex::FromHexError;
use std::alloc::Global;

/// What a line says, which isn't too long. It takes memory for the bytes of a write alone.
pub fn read_line(alloc: Global, line: &[u8]) -> Result<Says, Memory>
    requires { length line.now ≤ 131200 }
    ensures { IfOk result (λ says. says ≡ line_says line.now) }
{
    let Some((lane, rest)) = split_word(line) else {
        return Ok(read_one_word(line));
    };
    let Some((name, rest)) = split_word(rest) else {
        return Ok(read_request(lane, rest));
    };
    let Some((first, rest)) = split_word(rest) else {
        return Ok(read_three_words(lane, name, rest));
    };
    match split_word(rest) {
        Some((_last, _more)) => Ok(Says::Nothing(LineKind::Unknown)),
        None => read_four_words(alloc, lane, name, first, rest),
    }
}

// What a line of one word says.
fn read_one_word(word: &[u8]) -> Says
    ensures { result ≡ one_word_says word.now }
{
    if word == b"run".as_slice() {
        Says::Run
    } else {
        Says::Nothing(LineKind::Unknown)
    }
}

// The request that a word asks for by itself.
fn request_of_word(word: &[u8]) -> Option<Request>
    ensures { result ≡ request_of word.now }
{
    if word == b"checkpoint".as_slice() {
        Some(Request::Checkpoint)
    } else if word == b"take_metadata_snap".as_slice() {
        Some(Request::TakeSnap)
    } else if word == b"drop_metadata_snap".as_slice() {
        Some(Request::DropSnap)
    } else if word == b"digest".as_slice() {
        Some(Request::Digest)
    } else if word == b"status".as_slice() {
        Some(Request::Status)
    } else {
        None
    }
}

// What a line of two words says.
fn read_request(lane: &[u8], name: &[u8]) -> Says
    ensures { result ≡ request_says lane.now (request_of name.now) }
{
    let Some(request) = request_of_word(name) else {
        return Says::Nothing(LineKind::Unknown);
    };
    let Some(lane) = read_lane(lane) else {
        return Says::Nothing(LineKind::BadNumber);
    };
    Says::Does {
        lane,
        task: Task::Ask(request),
    }
}

// What a line of three words says.
fn read_three_words(lane: &[u8], name: &[u8], era: &[u8]) -> Says
    ensures { result ≡ three_words_say lane.now name.now era.now }
{
    if name == b"list".as_slice() {
        read_list(false, lane, era)
    } else if name == b"list_snap".as_slice() {
        read_list(true, lane, era)
    } else {
        Says::Nothing(LineKind::Unknown)
    }
}

// What the line of a list says, by the marks or by the snapshot.
fn read_list(snap: bool, lane: &[u8], era: &[u8]) -> Says
    ensures { result ≡ list_says snap lane.now era.now }
{
    let Some(lane) = read_lane(lane) else {
        return Says::Nothing(LineKind::BadNumber);
    };
    let Some(since) = read_era(era) else {
        return Says::Nothing(LineKind::BadNumber);
    };
    Says::Does {
        lane,
        task: Task::Ask(Request::List { since, snap }),
    }
}

// What a line of four words says.
fn read_four_words(
    alloc: Global,
    lane: &[u8],
    name: &[u8],
    sector: &[u8],
    last: &[u8],
) -> Result<Says, Memory>
    ensures { IfOk result (λ says.
        says ≡ four_words_say lane.now name.now sector.now last.now) }
{
    if name == b"write".as_slice() {
        read_write(alloc, lane, sector, last)
    } else if name == b"read".as_slice() {
        Ok(read_read(lane, sector, last))
    } else {
        Ok(Says::Nothing(LineKind::Unknown))
    }
}

// What the line of a read says.
fn read_read(lane: &[u8], sector: &[u8], count: &[u8]) -> Says
    ensures { result ≡ read_says lane.now sector.now count.now }
{
    let Some(lane) = read_lane(lane) else {
        return Says::Nothing(LineKind::BadNumber);
    };
    let Some(sector) = read_sector(sector) else {
        return Says::Nothing(LineKind::BadNumber);
    };
    let Some(count) = read_count(count) else {
        return Says::Nothing(LineKind::BadNumber);
    };
    Says::Does {
        lane,
        task: Task::Read { sector, count },
    }
}

// What the line of a write says.
fn read_write(alloc: Global, lane: &[u8], sector: &[u8], digits: &[u8]) -> Result<Says, Memory>
    ensures { IfOk result (λ says. says ≡ write_says lane.now sector.now digits.now) }
{
    let Some(lane) = read_lane(lane) else {
        return Ok(Says::Nothing(LineKind::BadNumber));
    };
    let Some(sector) = read_sector(sector) else {
        return Ok(Says::Nothing(LineKind::BadNumber));
    };
    let Some(bytes) = read_bytes(alloc, digits)? else {
        return Ok(Says::Nothing(LineKind::BadHex));
    };
    Ok(Says::Does {
        lane,
        task: Task::Write { sector, bytes },
    })
}

// The bytes that hexadecimal digits of either case spell, where they are 1 to 128 whole sectors.
fn read_bytes(alloc: Global, digits: &[u8]) -> Result<Option<Bytes>, Memory>
    ensures { IfOk result (λ read. read ≡ bytes_of digits.now) }
{
    match hex::decode(alloc, digits) {
        Ok(bytes) => {
            if is_payload(bytes.len()) {
                Ok(Some(Bytes::from_vec(bytes)))
            } else {
                Ok(None)
            }
        }
        Err(FromHexError::OutOfMemory) => Err(Memory),
        Err(_) => Ok(None),
    }
}

// Whether so many bytes are 1 to 128 whole sectors.
fn is_payload(count: usize) -> bool
    ensures { result ≡ is_payload_of count }
{
    count > 0 && count % 512 == 0 && count <= 65_536
}
