//! A row of a table: what the program is given, what it answers, and what it leaves.

use era_disks::{BayCall, DiskCall};

/// The table line of most rows: 512 sectors in blocks of 8.
pub const TABLE: &str = "0 512 era meta origin 8";

/// The words of most rows.
pub const SERVE: &[&str] = &["serve", TABLE];

/// One run of the program over a bay in memory, whose device `origin` is zeros.
pub struct Row<'a> {
    pub shows: &'a str,
    pub words: &'a [&'a str],
    /// Sectors of the origin.
    pub origin: u64,
    pub fails: &'a [Fails],
    pub stream: &'a [Sent<'a>],
    pub answer: Answer<'a>,
    pub status: u8,
    /// What the origin holds afterwards.
    pub holds: &'a [Range],
}

/// A call that fails, by its number, counted from 0.
pub enum Fails {
    /// A call of the origin's disk.
    Disk(DiskCall, u64),
    /// A call of the bay.
    Bay(BayCall, u64),
    /// A take of the source.
    Take(u64),
    /// A give of the sink, which takes so many bytes before.
    Give(u64, usize),
}

/// A piece of the stream.
pub enum Sent<'a> {
    /// This text.
    Text(&'a str),
    /// These bytes.
    Bytes(&'a [u8]),
    /// A line `0 write <sector> <hex>`, whose payload is so many sectors of the byte that the two digits spell.
    Write(&'a str, &'a str, u32),
    /// The same line so many times.
    Writes(&'a str, &'a str, u32, u32),
    /// The two digits for each byte of so many sectors.
    Digits(&'a str, u32),
    /// This text, so many times.
    Many(&'a str, u32),
}

/// The text that is answered.
pub enum Answer<'a> {
    /// It is this one.
    Whole(&'a str),
    /// It begins and ends so.
    Around(&'a str, &'a str),
}

/// The bytes from one index of the origin up to another are this one.
pub type Range = (usize, usize, u8);
