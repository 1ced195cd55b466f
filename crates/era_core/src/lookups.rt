//! What the machine looks up in its history, which stands here earliest first.

ghost use Rattle.std.specs.Prelude.{◌≡◌, List, ◌∷◌, option_copied, reverse};
ghost use Rattle.era_core.specs.Present.{leaves_trace, opening_in};
ghost use Rattle.era_model.specs.CommandEvents.{written_block};
ghost use Rattle.era_model.specs.Events.{drawn_by, is_metadata_answer};
ghost use Rattle.era_model.specs.History.{era_of, is_open};
ghost use Rattle.era_model.specs.Marking.{is_marked_in, is_tried_in, journal_last_era, last_drawn, some_event, switch_before_refusals};
ghost use Rattle.era_model.specs.declared.history.Happening.{Happening};

use crate::trace::Trace;
use era_base::CmdId;
use era_model::{Event, Happening, Opening, same_command};

/// The command that drew the event.
fn drawer_of(event: &Event) -> CmdId
    ensures { result ≡ drawn_by event.now }
{
    match event {
        Event::Tried { id, .. } => *id,
        Event::Mark { id, .. } => *id,
        Event::Go { id, .. } => *id,
        Event::Done { id } => *id,
        Event::Cut { id, .. } => *id,
        Event::Settle { by, .. } => *by,
        Event::Unsettled { by, .. } => *by,
        Event::Read { id, .. } => *id,
        Event::Roll { id, .. } => *id,
        Event::Kept { id, .. } => *id,
        Event::Snap { id, .. } => *id,
        Event::Dropped { id } => *id,
        Event::Digest { id, .. } => *id,
        Event::List { id, .. } => *id,
        Event::Status { id, .. } => *id,
        Event::Refused { id, .. } => *id,
    }
}

/// Whether the event is drawn at the metadata and isn't a refusal.
fn is_answer_of_metadata(event: &Event) -> bool
    ensures { result ≡ is_metadata_answer event.now }
{
    match event {
        Event::Tried { .. } => true,
        Event::Mark { .. } => true,
        Event::Roll { .. } => true,
        Event::Kept { .. } => true,
        Event::Snap { .. } => true,
        Event::Dropped { .. } => true,
        Event::Digest { .. } => true,
        Event::List { .. } => true,
        Event::Status { .. } => true,
        _ => false,
    }
}

fn follow_open(before: bool, happening: &Happening) -> bool
    ensures { (h : List Happening) → before ≡ is_open h → result ≡ is_open (happening.now ∷ h) }
{
    match happening {
        Happening::Opened(_) => true,
        Happening::Happened(_) => before,
        Happening::Crashed(_) => false,
    }
}

/// Whether a session is open.
pub fn session_is_open(h: &[Happening]) -> bool
    ensures { result ≡ is_open (reverse h.now) }
{
    let mut found = false;
    for happening in h {
        found = follow_open(found, happening);
    }
    found
}

fn follow_era(before: u32, happening: &Happening) -> u32
    ensures { (h : List Happening) → before ≡ era_of h → result ≡ era_of (happening.now ∷ h) }
{
    match happening {
        Happening::Opened(opening) => opening.era,
        Happening::Happened(Event::Roll { id: _, era }) => *era,
        _ => before,
    }
}

/// The present era, 0 before the first session.
pub fn present_era(h: &[Happening]) -> u32
    ensures { result ≡ era_of (reverse h.now) }
{
    let mut found = 0;
    for happening in h {
        found = follow_era(found, happening);
    }
    found
}

fn follow_marked(before: bool, happening: &Happening, block: u32, era: u32) -> bool
    ensures { (h : List Happening) → before ≡ is_marked_in h block era
        → result ≡ is_marked_in (happening.now ∷ h) block era }
{
    match happening {
        Happening::Opened(_) => false,
        Happening::Happened(
            Event::Mark {
                id: _,
                block: marked,
                era: stored,
            },
        ) => *marked == block && *stored == era || before,
        _ => before,
    }
}

/// Whether the session has a mark of the block in the era.
pub fn is_marked(h: &[Happening], block: u32, era: u32) -> bool
    ensures { result ≡ is_marked_in (reverse h.now) block era }
{
    let mut found = false;
    for happening in h {
        found = follow_marked(found, happening, block, era);
    }
    found
}

fn follow_tried(before: bool, happening: &Happening, block: u32, era: u32) -> bool
    ensures { (h : List Happening) → before ≡ is_tried_in h block era
        → result ≡ is_tried_in (happening.now ∷ h) block era }
{
    match happening {
        Happening::Opened(_) => false,
        Happening::Happened(
            Event::Tried {
                id: _,
                block: tried,
                era: asked,
            },
        ) => *tried == block && *asked == era || before,
        _ => before,
    }
}

/// Whether the session has a request to mark the block in the era.
pub fn is_tried(h: &[Happening], block: u32, era: u32) -> bool
    ensures { result ≡ is_tried_in (reverse h.now) block era }
{
    let mut found = false;
    for happening in h {
        found = follow_tried(found, happening, block, era);
    }
    found
}

fn follow_trace(before: bool, happening: &Happening, trace: Trace, id: CmdId) -> bool
    ensures { (h : List Happening) → before ≡ some_event h (leaves_trace trace id)
        → result ≡ some_event (happening.now ∷ h) (leaves_trace trace id) }
{
    match happening {
        Happening::Opened(_) => false,
        Happening::Happened(event) => trace.is_left_by(id, event) || before,
        Happening::Crashed(_) => before,
    }
}

/// Whether the session has such an event of the command.
pub fn has_trace(h: &[Happening], trace: Trace, id: CmdId) -> bool
    ensures { result ≡ some_event (reverse h.now) (leaves_trace trace id) }
{
    let mut found = false;
    for happening in h {
        found = follow_trace(found, happening, trace, id);
    }
    found
}

fn follow_last_era(before: u32, happening: &Happening, block: u32) -> u32
    ensures { (h : List Happening) → before ≡ journal_last_era h block
        → result ≡ journal_last_era (happening.now ∷ h) block }
{
    match happening {
        Happening::Opened(opening) => opening.marks.last_era(block),
        Happening::Happened(
            Event::Mark {
                id: _,
                block: marked,
                era,
            },
        ) => if *marked == block { *era } else { before },
        _ => before,
    }
}

/// The era of the block's last mark, 0 for never.
pub fn last_era_of(h: &[Happening], block: u32) -> u32
    ensures { result ≡ journal_last_era (reverse h.now) block }
{
    let mut found = 0;
    for happening in h {
        found = follow_last_era(found, happening, block);
    }
    found
}

fn follow_written_block(before: Option<u32>, happening: &Happening, id: CmdId) -> Option<u32>
    ensures { (h : List Happening) → before ≡ written_block h id
        → result ≡ written_block (happening.now ∷ h) id }
{
    match happening {
        Happening::Opened(_) => None,
        Happening::Happened(
            Event::Go {
                id: other,
                block,
                ..
            },
        ) => if same_command(*other, id) {
            Some(*block)
        } else {
            before
        },
        _ => before,
    }
}

/// The block to which the command issued a write, or `None`.
pub fn written_block_of(h: &[Happening], id: CmdId) -> Option<u32>
    ensures { result ≡ written_block (reverse h.now) id }
{
    let mut found = None;
    for happening in h {
        found = follow_written_block(found, happening, id);
    }
    found
}

fn follow_last_switch(before: Option<CmdId>, happening: &Happening) -> Option<CmdId>
    ensures { (h : List Happening) → before ≡ switch_before_refusals h
        → result ≡ switch_before_refusals (happening.now ∷ h) }
{
    match happening {
        Happening::Opened(_) => None,
        Happening::Happened(Event::Roll { id, era: _ }) => Some(*id),
        Happening::Happened(event) => if is_answer_of_metadata(event) {
            None
        } else {
            before
        },
        Happening::Crashed(_) => before,
    }
}

/// The command that last switched the era, where the metadata has drawn nothing but refusals since.
pub fn last_switch(h: &[Happening]) -> Option<CmdId>
    ensures { result ≡ switch_before_refusals (reverse h.now) }
{
    let mut found = None;
    for happening in h {
        found = follow_last_switch(found, happening);
    }
    found
}

fn follow_opening<'a>(before: Option<&'a Opening>, happening: &'a Happening) -> Option<&'a Opening>
    ensures { (h : List Happening) → option_copied before.entry ≡ opening_in h
        → option_copied result ≡ opening_in (happening.now ∷ h) }
{
    match happening {
        Happening::Opened(opening) => Some(opening),
        _ => before,
    }
}

/// The opening of the session.
pub fn present_opening(h: &[Happening]) -> Option<&Opening>
    ensures { option_copied result ≡ opening_in (reverse h.now) }
{
    let mut found = None;
    for happening in h {
        found = follow_opening(found, happening);
    }
    found
}

fn follow_last_event<'a>(
    before: Option<&'a Event>,
    happening: &'a Happening,
    id: CmdId,
) -> Option<&'a Event>
    ensures { (h : List Happening) → option_copied before.entry ≡ last_drawn h id
        → option_copied result ≡ last_drawn (happening.now ∷ h) id }
{
    match happening {
        Happening::Opened(_) => None,
        Happening::Happened(event) => if same_command(drawer_of(event), id) {
            Some(event)
        } else {
            before
        },
        Happening::Crashed(_) => before,
    }
}

/// The last event of the session that the command drew.
pub fn last_event_of(h: &[Happening], id: CmdId) -> Option<&Event>
    ensures { option_copied result ≡ last_drawn (reverse h.now) id }
{
    let mut found = None;
    for happening in h {
        found = follow_last_event(found, happening, id);
    }
    found
}
