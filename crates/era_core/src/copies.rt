//! Copies of what a step brings: the history keeps its own.

ghost use Rattle.std.specs.Prelude.{◌≡◌, IfOk, option_copied};

use crate::mark_copies::{copy_marks, copy_runs};
use era_base::{Bytes, Memory};
use era_model::{Contents, Event, Images, Marks};
use std::alloc::Global;

/// The same event once more.
pub fn copy_event(alloc: Global, event: &Event) -> Result<Event, Memory>
    ensures { IfOk result (λ e. e ≡ event.now) }
{
    Ok(match event {
        Event::Tried { id, block, era } => Event::Tried {
            id: *id,
            block: *block,
            era: *era,
        },
        Event::Mark { id, block, era } => Event::Mark {
            id: *id,
            block: *block,
            era: *era,
        },
        Event::Go {
            id,
            block,
            era,
            first,
            bytes,
        } => Event::Go {
            id: *id,
            block: *block,
            era: *era,
            first: *first,
            bytes: Bytes::from_slice(alloc, bytes.as_slice())?,
        },
        Event::Done { id } => Event::Done { id: *id },
        Event::Cut { id, faults } => Event::Cut {
            id: *id,
            faults: *faults,
        },
        Event::Settle { by, cut, bytes } => Event::Settle {
            by: *by,
            cut: *cut,
            bytes: Bytes::from_slice(alloc, bytes.as_slice())?,
        },
        Event::Unsettled { by, cut, faults } => Event::Unsettled {
            by: *by,
            cut: *cut,
            faults: *faults,
        },
        Event::Read { id, sector, bytes } => Event::Read {
            id: *id,
            sector: *sector,
            bytes: Bytes::from_slice(alloc, bytes.as_slice())?,
        },
        Event::Roll { id, era } => Event::Roll { id: *id, era: *era },
        Event::Kept { id, inside } => Event::Kept {
            id: *id,
            inside: *inside,
        },
        Event::Snap { id, block } => Event::Snap {
            id: *id,
            block: *block,
        },
        Event::Dropped { id } => Event::Dropped { id: *id },
        Event::Digest { id, era, page } => Event::Digest {
            id: *id,
            era: *era,
            page: *page,
        },
        Event::List {
            id,
            since,
            snap,
            blocks,
        } => Event::List {
            id: *id,
            since: *since,
            snap: *snap,
            blocks: copy_runs(alloc, blocks)?,
        },
        Event::Status {
            id,
            used,
            total,
            era,
            held,
        } => Event::Status {
            id: *id,
            used: *used,
            total: *total,
            era: *era,
            held: *held,
        },
        Event::Refused { id, kind, why } => Event::Refused {
            id: *id,
            kind: *kind,
            why: *why,
        },
    })
}

/// The same contents once more.
pub fn copy_contents(alloc: Global, contents: &Contents) -> Result<Contents, Memory>
    ensures { IfOk result (λ c. c ≡ contents.now) }
{
    let bytes = match &contents.bytes {
        Some(bytes) => Some(Bytes::from_slice(alloc, bytes.as_slice())?),
        None => None,
    };
    Ok(Contents { bytes })
}

/// The same snapshot once more, if there is one.
pub fn copy_snapshot(alloc: Global, held: Option<&Marks>) -> Result<Option<Marks>, Memory>
    ensures { IfOk result (λ m. m ≡ option_copied held.entry) }
{
    match held {
        Some(marks) => Ok(Some(copy_marks(alloc, marks)?)),
        None => Ok(None),
    }
}

/// The same images once more.
pub fn copy_images(alloc: Global, images: &Images) -> Result<Images, Memory>
    ensures { IfOk result (λ i. i ≡ images.now) }
{
    Ok(Images {
        contents: copy_contents(alloc, &images.contents)?,
        marks: copy_marks(alloc, &images.marks)?,
        held: copy_snapshot(alloc, images.held.as_ref())?,
    })
}
