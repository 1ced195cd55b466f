//! The status line: the used and all metadata blocks, the era, and the block of the snapshot.

ghost use Rattle.std.specs.Prelude.{◌≡◌, ℕ, Option, IfSome, IfNone, IfOk, string_bytes};
ghost use Rattle.era_line.specs.StatusLine.{IsBehindUsed, IsHeld, IsNoStatusLine, IsStatusLine};
ghost use Rattle.era_model.specs.Transcript.{status_text as text_of_status};

use crate::decimal::read_u32;
use crate::words::{split_number, split_u32};
use era_base::Memory;
use std::alloc::Global;

/// The status line with these numbers: the used and all metadata blocks of 4,096 bytes, the era, and the metadata block
/// of the snapshot where one is held. It takes memory for the text.
pub fn status_text(
    alloc: Global,
    used: u32,
    total: u64,
    era: u32,
    held: Option<u32>,
) -> Result<String, Memory>
    ensures { IfOk result (λ text. string_bytes text ≡ text_of_status used total era held) }
{
    let text = match held {
        Some(block) => format!(in alloc; "8 {used}/{total} {era} {block}")?,
        None => format!(in alloc; "8 {used}/{total} {era} -")?,
    };
    Ok(text)
}

/// The numbers of a status line: the used and all metadata blocks, the era, and the block of the snapshot. It takes no
/// memory.
pub fn read_status(text: &str) -> Option<(u32, u64, u32, Option<u32>)>
    ensures some { IfSome result (λ status.
        IsStatusLine text.now status.0 status.1 status.2 status.3) }
    ensures none { IfNone result (IsNoStatusLine text.now) }
{
    let rest = text.as_bytes().strip_prefix(b"8 ")?;
    let (used, rest) = split_u32(b'/', rest)?;
    let (total, era, held) = read_behind_used(rest)?;
    Some((used, total, era, held))
}

// What a status line has behind the used blocks.
fn read_behind_used(text: &[u8]) -> Option<(u64, u32, Option<u32>)>
    ensures some { IfSome result (λ behind. IsBehindUsed text.now behind.0 behind.1 behind.2) }
    ensures none { IfNone result ((total era : ℕ) (held : Option ℕ)
        → IsBehindUsed text.now total era held → ⊥) }
{
    let (total, rest) = split_number(b' ', text)?;
    let (era, rest) = split_u32(b' ', rest)?;
    let held = read_held(rest)?;
    Some((total, era, held))
}

// The block of a snapshot, or a dash where none is held.
fn read_held(text: &[u8]) -> Option<Option<u32>>
    ensures some { IfSome result (λ held. IsHeld text.now held) }
    ensures none { IfNone result ((held : Option ℕ) → IsHeld text.now held → ⊥) }
{
    if text == b"-".as_slice() {
        return Some(None);
    }
    let block = read_u32(text)?;
    Some(Some(block))
}
