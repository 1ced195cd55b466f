//! Plain calls over a journal, for tests: the content of a block, the blocks that changed since an era, and those that
//! were asked to be marked since then.

ghost use Rattle.std.specs.Prelude.{◌≡◌, ◌<◌, ◌≤◌, List, ◌∷◌, length, IfOk, IfSome, MatchOption, if◌then◌else◌, option_map};
ghost use Rattle.era_model.specs.Conditions.{ListsExactly};
ghost use Rattle.era_model.specs.History.{blocks_at, content, era_of};
ghost use Rattle.era_model.specs.Journal.{history_at};
ghost use Rattle.era_model.specs.Marking.{asked_since, era_start};
ghost use Rattle.era_model.specs.PlainCalls.{TellsAllBytes, has_changed_since};
ghost use Rattle.era_model.specs.declared.history.Happening.TheVariants.{Happened};
ghost use Rattle.era_model.specs.declared.history.Happening.{Happening};

use crate::block_content::{follow_content, opening_content};
use crate::block_runs::runs_of_flags;
use crate::event::Event;
use crate::flight::follow_writes;
use crate::journal::Journal;
use era_base::{Bytes, Memory, Runs};
use std::alloc::Global;

/// The content of a block after the entries with smaller places. It asks that the opening tells all bytes of its
/// geometry.
pub fn content_at(alloc: Global, journal: &Journal, place: u64, block: u32) -> Result<Bytes, Memory>
    requires told { TellsAllBytes journal.now.opening }
    requires within { place ≤ length journal.now.entries }
    requires block { block < blocks_at journal.now.opening }
    ensures { IfOk result (λ b. b
        ≡ content (history_at journal.now.opening journal.now.entries place) block) }
{
    let mut bytes = opening_content(alloc, &journal.opening, block)?;
    let mut writes = Vec::new(alloc);
    for entry in journal.entries.as_slice().split_at(place as usize).0 {
        bytes = follow_content(alloc, bytes, block, writes.as_slice(), &entry.event)?;
        follow_writes(alloc, &mut writes, &entry.event)?;
    }
    Ok(bytes)
}

/// The era after an event.
pub fn follow_era(era: u32, event: &Event) -> u32
    ensures { (h : List Happening) → era ≡ era_of h → result ≡ era_of (Happened event.now ∷ h) }
{
    match event {
        Event::Roll { id: _, era } => *era,
        _ => era,
    }
}

/// The place at which the era began, up to a place, or `None`.
fn start_of(journal: &Journal, place: usize, era: u32) -> Option<usize>
    requires { place ≤ length journal.now.entries }
    ensures start { era_start era (history_at journal.now.opening journal.now.entries place)
        ≡ option_map (λ start. history_at journal.now.opening journal.now.entries start) result }
    ensures before { IfSome result (λ start. start ≤ place) }
{
    let wanted = era.max(1);
    let mut now = journal.opening.era;
    let mut start = first_start(None, 0, wanted <= now);
    for (index, entry) in journal
        .entries
        .as_slice()
        .split_at(place)
        .0
        .iter()
        .enumerate()
    {
        now = follow_era(now, &entry.event);
        start = first_start(start, index + 1, wanted <= now);
    }
    start
}

/// The start that was found before, else this place if the era has begun there.
fn first_start(before: Option<usize>, place: usize, begun: bool) -> Option<usize>
    ensures { MatchOption before (result ≡ (if begun then Some place else None)) (λ start. result
        ≡ Some start) }
{
    match before {
        Some(start) => Some(start),
        None => if begun { Some(place) } else { None },
    }
}

/// Whether the event asks for the block's mark in the era or a later one, or this was so before.
pub fn follow_asked(asked: bool, event: &Event, era: u32, block: u32) -> bool
    ensures { (h : List Happening) → asked ≡ asked_since h era block
        → result ≡ asked_since (Happened event.now ∷ h) era block }
{
    match event {
        Event::Tried {
            id: _,
            block: tried,
            era: wanted,
        } => *tried == block && era.max(1) <= *wanted || asked,
        _ => asked,
    }
}

/// Whether the block's mark was asked for since the era, up to a place.
fn is_asked(journal: &Journal, place: usize, era: u32, block: u32) -> bool
    requires { place ≤ length journal.now.entries }
    ensures { result ≡ asked_since (history_at journal.now.opening journal.now.entries place) era
        block }
{
    let mut asked = era.max(1) <= journal.opening.marks.last_era(block);
    for entry in journal.entries.as_slice().split_at(place).0 {
        asked = follow_asked(asked, &entry.event, era, block);
    }
    asked
}

/// The blocks whose content after the entries with smaller places isn't what it was when the era began: none where it
/// hasn't begun.
pub fn changed_since(alloc: Global, journal: &Journal, place: u64, era: u32) -> Result<Runs, Memory>
    requires told { TellsAllBytes journal.now.opening }
    requires within { place ≤ length journal.now.entries }
    ensures { let h = history_at journal.now.opening journal.now.entries place in
        IfOk result (λ runs. ListsExactly (blocks_at journal.now.opening)
        (has_changed_since h era) runs) }
{
    let Some(start) = start_of(journal, place as usize, era) else {
        return Ok(Runs::new(alloc));
    };
    let mut flags = Vec::new(alloc);
    for block in 0..journal.opening.geometry.blocks() {
        let then = content_at(alloc, journal, start as u64, block)?;
        let now = content_at(alloc, journal, place, block)?;
        flags.push(now.as_slice() != then.as_slice())?;
    }
    runs_of_flags(alloc, flags.as_slice())
}

/// The blocks whose mark was asked for in the era or a later one, before the place, or which the opening's marks have
/// since that era.
pub fn asked_since(alloc: Global, journal: &Journal, place: u64, era: u32) -> Result<Runs, Memory>
    requires told { TellsAllBytes journal.now.opening }
    requires within { place ≤ length journal.now.entries }
    ensures { let h = history_at journal.now.opening journal.now.entries place in
        IfOk result (λ runs. ListsExactly (blocks_at journal.now.opening)
        (asked_since h era) runs) }
{
    let mut flags = Vec::new(alloc);
    for block in 0..journal.opening.geometry.blocks() {
        flags.push(is_asked(journal, place as usize, era, block))?;
    }
    runs_of_flags(alloc, flags.as_slice())
}
