//! Writes in flight, followed from event to event.

ghost use Rattle.std.specs.Prelude.{◌≡◌, List, ◌∷◌, OnOk, OnErr, if◌then◌else◌, option_copied, true};
ghost use Rattle.era_model.specs.Events.{same_id};
ghost use Rattle.era_model.specs.History.{in_flight};
ghost use Rattle.era_model.specs.Writes.{with_cut, without, write_of};
ghost use Rattle.era_model.specs.declared.history.Happening.TheVariants.{Happened};
ghost use Rattle.era_model.specs.declared.history.Happening.{Happening};

use crate::event::Event;
use era_base::{Bytes, CmdId, Memory};
use std::alloc::Global;

/// A write that was issued and neither acknowledged nor resolved: `bytes` go to the block's sectors from `first` on. It
/// is cut where it failed, so that its outcome isn't known.
#[derive(Debug, Drop)]
pub struct FlightWrite {
    pub id: CmdId,
    pub block: u32,
    pub first: u32,
    pub bytes: Bytes,
    pub cut: bool,
}

/// Whether two commands are the same one.
pub fn same_command(first: CmdId, second: CmdId) -> bool
    ensures { result ≡ same_id first second }
{
    first.lane == second.lane && first.number == second.number
}

/// Takes the command's write out.
fn take_out(writes: &mut Vec<FlightWrite>, id: CmdId)
    ensures { writes.new.items ≡ without writes.old.items id }
{
    writes.retain(|write| !same_command(write.id, id));
}

/// Marks the write as cut, if it is the command's.
fn mark_if_of(write: &mut FlightWrite, id: CmdId)
    ensures { write.new
        ≡ (if same_id write.old.id id then record write.old { cut = true } else write.old) }
{
    if same_command(write.id, id) {
        write.cut = true;
    }
}

/// Marks the command's write as cut.
fn mark_cut(writes: &mut Vec<FlightWrite>, id: CmdId)
    ensures { writes.new.items ≡ with_cut writes.old.items id }
{
    for write in writes.iter_mut() {
        mark_if_of(write, id);
    }
}

/// The command's write, where it is among them.
pub fn find_write(writes: &[FlightWrite], id: CmdId) -> Option<&FlightWrite>
    ensures { option_copied result ≡ write_of writes.now id }
{
    writes.iter().find(|write| same_command(write.id, id))
}

/// Changes the writes in flight, the latest first, as the event does.
pub fn follow_writes(
    alloc: Global,
    writes: &mut Vec<FlightWrite>,
    event: &Event,
) -> Result<(), Memory>
    ensures ok { (h : List Happening) → writes.old.items ≡ in_flight h
        → OnOk result (writes.new.items ≡ in_flight (Happened event.now ∷ h)) }
    ensures err { OnErr result (writes.new.items ≡ writes.old.items) }
{
    match event {
        Event::Go {
            id,
            block,
            era: _,
            first,
            bytes,
        } => {
            let write = FlightWrite {
                id: *id,
                block: *block,
                first: *first,
                bytes: Bytes::from_slice(alloc, bytes.as_slice())?,
                cut: false,
            };
            writes.insert(0, write)?;
        }
        Event::Done { id } => take_out(writes, *id),
        Event::Cut { id, faults: _ } => mark_cut(writes, *id),
        Event::Settle {
            by: _,
            cut,
            bytes: _,
        } => take_out(writes, *cut),
        _ => {}
    }
    Ok(())
}
