//! Runs rows, and names the first that isn't met.

use crate::row::{Answer, Fails, Range, Row, Sent};
use era_base::Bytes;
use era_disks::{FreePace, MemBay, TextSink, TextSource};
use era_top::era_top;
use std::alloc::{AllocError, Global};
use std::sync::Wait;
use std::test::Fail;
use std::thread::Threads;

/// What a run left behind, and how often the sink was given something.
#[derive(Drop)]
pub struct Ran {
    pub status: u8,
    pub text: Bytes,
    pub gives: u64,
    pub origin: Bytes,
}

/// What the first row shows that isn't met, or `None`.
pub fn first_unmet<'a, R: Threads + Wait + Sync>(
    rt: &R,
    alloc: Global,
    rows: &[Row<'a>],
) -> Result<Option<&'a str>, Fail> {
    for row in rows {
        let ran = run_row(rt, alloc, row)?;
        if !is_met(row, &ran) {
            return Ok(Some(row.shows));
        }
    }
    Ok(None)
}

/// Runs one row.
pub fn run_row<R: Threads + Wait + Sync>(
    rt: &R,
    alloc: Global,
    row: &Row<'_>,
) -> Result<Ran, Fail> {
    let stream = spell(alloc, row.stream)?;
    let mut source = TextSource::new(alloc, stream.as_slice())?;
    let mut sink = TextSink::new(alloc);
    let mut bay = MemBay::new(alloc);
    bay.add("origin", row.origin)?;
    for fails in row.fails {
        match *fails {
            Fails::Disk(call, number) => bay.fail_disk("origin", call, number)?,
            Fails::Bay(call, number) => bay.fail(call, number)?,
            Fails::Take(number) => source.fail(number)?,
            Fails::Give(number, taken) => sink.fail(number, taken)?,
        }
    }
    run_over(rt, alloc, row.words, source, sink, bay)
}

/// Runs the program with these words over a bay, from this source to this sink.
pub fn run_over<R: Threads + Wait + Sync>(
    rt: &R,
    alloc: Global,
    words: &[&str],
    mut source: TextSource,
    mut sink: TextSink,
    mut bay: MemBay,
) -> Result<Ran, Fail> {
    let mut texts = Vec::new(alloc);
    for word in words {
        texts.push(String::from_str(alloc, word)?)?;
    }
    let status = era_top(
        rt,
        alloc,
        texts.as_slice(),
        &mut source,
        &mut sink,
        &mut bay,
        &FreePace,
    );
    let origin = bay.content(alloc, "origin")?.ok_or("no origin")?;
    Ok(Ran {
        status,
        text: Bytes::from_slice(alloc, sink.given())?,
        gives: sink.gives(),
        origin,
    })
}

/// Whether a piece of a stream is the line that ends a round.
fn ends_round(sent: &Sent<'_>) -> bool {
    match *sent {
        Sent::Text(text) => text == "run\n",
        _ => false,
    }
}

/// Whether a run answered and left what its row says. Text goes out in pieces of 4 KiB, but for what ends the first
/// line, a round and the run.
fn is_met(row: &Row<'_>, ran: &Ran) -> bool {
    let text = ran.text.as_slice();
    let answered = match row.answer {
        Answer::Whole(whole) => text == whole.as_bytes(),
        Answer::Around(front, back) => {
            text.starts_with(front.as_bytes()) && text.ends_with(back.as_bytes())
        }
    };
    let origin = ran.origin.as_slice();
    let rounds = row.stream.iter().filter(|sent| ends_round(*sent)).count() as u64;
    answered
        && ran.status == row.status
        && ran.gives <= (text.len() as u64 / 4_096 + 3).saturating_add(rounds)
        && row.holds.iter().all(|range| holds(origin, range))
}

/// Whether each byte of a range is the one that it names.
pub fn holds(bytes: &[u8], range: &Range) -> bool {
    match bytes.get(range.0..range.1) {
        Some(bytes) => bytes.iter().all(|byte| *byte == range.2),
        None => false,
    }
}

/// The bytes of a stream.
pub fn spell(alloc: Global, stream: &[Sent<'_>]) -> Result<Vec<u8>, AllocError> {
    let mut bytes = Vec::new(alloc);
    for sent in stream {
        add(alloc, &mut bytes, sent)?;
    }
    Ok(bytes)
}

/// Adds a piece of a stream.
fn add(alloc: Global, bytes: &mut Vec<u8>, sent: &Sent<'_>) -> Result<(), AllocError> {
    match *sent {
        Sent::Text(text) => bytes.extend_from_slice(text.as_bytes()),
        Sent::Bytes(more) => bytes.extend_from_slice(more),
        Sent::Write(sector, digits, sectors) => add_write(bytes, sector, digits, sectors),
        Sent::Writes(sector, digits, sectors, count) => {
            let mut line = Vec::new(alloc);
            add_write(&mut line, sector, digits, sectors)?;
            for _ in 0..count {
                bytes.extend_from_slice(line.as_slice())?;
            }
            Ok(())
        }
        Sent::Digits(digits, sectors) => add_digits(bytes, digits, sectors),
        Sent::Many(text, count) => {
            for _ in 0..count {
                bytes.extend_from_slice(text.as_bytes())?;
            }
            Ok(())
        }
    }
}

/// Adds a line `0 write <sector> <hex>`.
pub fn add_write(
    bytes: &mut Vec<u8>,
    sector: &str,
    digits: &str,
    sectors: u32,
) -> Result<(), AllocError> {
    bytes.extend_from_slice(b"0 write ")?;
    bytes.extend_from_slice(sector.as_bytes())?;
    bytes.extend_from_slice(b" ")?;
    add_digits(bytes, digits, sectors)?;
    bytes.extend_from_slice(b"\n")
}

/// Adds the two digits for each byte of so many sectors.
fn add_digits(bytes: &mut Vec<u8>, digits: &str, sectors: u32) -> Result<(), AllocError> {
    for _ in 0..sectors {
        for _ in 0..512 {
            bytes.extend_from_slice(digits.as_bytes())?;
        }
    }
    Ok(())
}
