//! A table line: how long a target is, on which devices it stands, and how large its blocks are.

ghost use Rattle.std.specs.Prelude.{◌≡◌, ◌<◌, ◌^◌, ◌∷◌, ◌++◌, decimal, IfSome, IfNone, IfOk, IsErrOf, string_bytes};
ghost use Rattle.era_line.specs.Inside.{BeginsWithNoNumber, BeginsWithNoName};
ghost use Rattle.era_line.specs.TableLine.{HasNoSpace, IsName, IsTableLine, IsNoTableLine};

use crate::decimal::read_decimal;
use era_base::{Memory, Name};
use std::alloc::Global;

/// What a table line says: the target's length, its devices' names and its block size, in sectors of 512 bytes.
#[derive(Debug, Drop)]
pub struct TableLine {
    pub length: u64,
    pub meta: Name,
    pub origin: Name,
    pub block_sectors: u64,
}

/// Why no table line was read.
#[derive(Clone, Copy, Debug, PartialEq, Eq)]
pub enum LineFault {
    /// The text isn't a table line.
    NotATable,
    /// Memory was refused.
    Memory,
}

/// The table line that a text is.
pub fn read_table(alloc: Global, text: &str) -> Result<TableLine, LineFault>
    ensures ok { IfOk result (λ line.
        IsTableLine text.now line.length line.meta line.origin line.block_sectors) }
    ensures refused { IsErrOf result LineFault.NotATable → IsNoTableLine text.now }
{
    let Some(parts) = parts_of(text) else {
        return Err(LineFault::NotATable);
    };
    let Ok(meta) = Name::from_text(alloc, parts.meta) else {
        return Err(LineFault::Memory);
    };
    let Ok(origin) = Name::from_text(alloc, parts.origin) else {
        return Err(LineFault::Memory);
    };
    Ok(TableLine {
        length: parts.length,
        meta,
        origin,
        block_sectors: parts.block_sectors,
    })
}

/// The text of a table line, which spells it again. It takes memory for the text.
pub fn write_table(alloc: Global, line: &TableLine) -> Result<String, Memory>
    requires meta { IsName line.now.meta }
    requires origin { IsName line.now.origin }
    ensures { IfOk result (λ text. IsTableLine (string_bytes text)
        line.now.length line.now.meta line.now.origin line.now.block_sectors) }
{
    let length = line.length;
    let meta = line.meta.as_str();
    let origin = line.origin.as_str();
    let block_sectors = line.block_sectors;
    Ok(format!(in alloc; "0 {length} era {meta} {origin} {block_sectors}")?)
}

// The parts of a table line, with the names where they stand in its text.
#[derive(Drop)]
struct Parts<'a> {
    length: u64,
    meta: &'a str,
    origin: &'a str,
    block_sectors: u64,
}

// The parts of the table line that a text is.
fn parts_of(text: &str) -> Option<Parts<'_>>
    ensures some { IfSome result (λ parts.
        IsTableLine text.now parts.length parts.meta.now parts.origin.now parts.block_sectors) }
    ensures none { IfNone result (IsNoTableLine text.now) }
{
    let rest = text.strip_prefix("0 ")?;
    let (length, rest) = next_number(rest)?;
    let rest = rest.strip_prefix("era ")?;
    let (meta, rest) = next_name(rest)?;
    let (origin, rest) = next_name(rest)?;
    let block_sectors = read_decimal(rest.as_bytes())?;
    Some(Parts {
        length,
        meta,
        origin,
        block_sectors,
    })
}

// The number whose decimal stands before the first space, and what stands behind that space.
fn next_number(text: &str) -> Option<(u64, &str)>
    ensures some { IfSome result (λ next.
        (text.now ≡ decimal next.0 ++ 32 ∷ next.1.now) × (next.0 < 2 ^ 64)) }
    ensures none { IfNone result (BeginsWithNoNumber text.now) }
{
    let (first, rest) = next_part(text)?;
    Some((read_decimal(first.as_bytes())?, rest))
}

// The name that stands before the first space, and what stands behind that space.
fn next_name(text: &str) -> Option<(&str, &str)>
    ensures some { IfSome result (λ next.
        (text.now ≡ next.0.now ++ 32 ∷ next.1.now) × IsName next.0.now) }
    ensures none { IfNone result (BeginsWithNoName text.now) }
{
    let (name, rest) = next_part(text)?;
    if name.is_empty() {
        return None;
    }
    Some((name, rest))
}

// What stands before the first space, and what stands behind it.
fn next_part(text: &str) -> Option<(&str, &str)>
    ensures some { IfSome result (λ next.
        (text.now ≡ next.0.now ++ 32 ∷ next.1.now) × HasNoSpace next.0.now) }
    ensures none { IfNone result (HasNoSpace text.now) }
{
    text.split_once(' ')
}
