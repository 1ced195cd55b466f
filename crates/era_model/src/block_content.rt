//! The content of one block, followed from event to event.

ghost use Rattle.std.specs.Prelude.{◌≡◌, ◌<◌, ◌^◌, List, [], ◌∷◌, IfOk, option_copied};
ghost use Rattle.era_base.specs.Bytes.{part, splice};
ghost use Rattle.era_model.specs.History.{content, in_flight};
ghost use Rattle.era_model.specs.Writes.{content_after_write};
ghost use Rattle.era_model.specs.declared.history.Happening.TheVariants.{Happened, Opened};
ghost use Rattle.era_model.specs.declared.history.Happening.{Happening};

use crate::event::Event;
use crate::flight::{FlightWrite, find_write};
use crate::opening::Opening;
use era_base::{Bytes, Memory};
use std::alloc::Global;

/// So many of the bytes from an offset on, fewer where they end before.
pub fn part_of(bytes: &[u8], start: usize, count: usize) -> &[u8]
    ensures { result.now ≡ part start count bytes.now }
{
    let behind = bytes.split_at(start.min(bytes.len())).1;
    behind.split_at(count.min(behind.len())).0
}

/// The bytes with others written over them at an offset.
fn spliced(alloc: Global, old: &[u8], at: usize, bytes: &[u8]) -> Result<Bytes, Memory>
    requires { at < 2 ^ 48 }
    ensures { IfOk result (λ b. b ≡ splice old.now at bytes.now) }
{
    let end = at.saturating_add(bytes.len());
    let mut items = Vec::new(alloc);
    items.extend_from_slice(old.split_at(at.min(old.len())).0)?;
    items.extend_from_slice(bytes)?;
    items.extend_from_slice(old.split_at(end.min(old.len())).1)?;
    Ok(Bytes::from_vec(items))
}

/// The block's content at an opening.
pub fn opening_content(alloc: Global, opening: &Opening, block: u32) -> Result<Bytes, Memory>
    ensures { IfOk result (λ b. b ≡ content (Opened opening.now ∷ []) block) }
{
    let Some(whole) = &opening.contents.bytes else {
        return Ok(Bytes::new(alloc));
    };
    let size = opening.geometry.block_sectors() as usize * 512;
    let start = block as usize * opening.geometry.block_sectors() as usize * 512;
    Bytes::from_slice(alloc, part_of(whole.as_slice(), start, size))
}

/// The block's content after the command's write, if it is of the block, has left these bytes.
fn content_after(
    alloc: Global,
    before: Bytes,
    block: u32,
    write: Option<&FlightWrite>,
    bytes: &[u8],
) -> Result<Bytes, Memory>
    ensures { IfOk result (λ b. b ≡ content_after_write before block
        (option_copied write.entry) bytes.now) }
{
    match write {
        Some(write) => {
            if write.block == block {
                spliced(alloc, before.as_slice(), write.first as usize * 512, bytes)
            } else {
                Ok(before)
            }
        }
        None => Ok(before),
    }
}

/// The block's content after an event, where `before` is that before it and `writes` are those that were in flight.
pub fn follow_content(
    alloc: Global,
    before: Bytes,
    block: u32,
    writes: &[FlightWrite],
    event: &Event,
) -> Result<Bytes, Memory>
    ensures { (h : List Happening) → writes.now ≡ in_flight h → before ≡ content h block
        → IfOk result (λ b. b ≡ content (Happened event.now ∷ h) block) }
{
    match event {
        Event::Done { id } => {
            let Some(write) = find_write(writes, *id) else {
                return Ok(before);
            };
            content_after(alloc, before, block, Some(write), write.bytes.as_slice())
        }
        Event::Settle { by: _, cut, bytes } => {
            content_after(
                alloc,
                before,
                block,
                find_write(writes, *cut),
                bytes.as_slice(),
            )
        }
        _ => Ok(before),
    }
}
