//! How a keeper draws: the entry is kept and noted with the draw.

ghost use Rattle.std.specs.Prelude.{◌≡◌, ℕ};
ghost use Rattle.era_gate.specs.Acts.{lane_of};
ghost use Rattle.era_gate.specs.Calls.{KeeperAsks};
ghost use Rattle.era_model.specs.declared.opening.Opening.{Opening};
ghost use Rattle.era_notes.specs.Notes.{own_history};

use crate::keeper::Keeper;
use era_base::{CmdId, Disk};
use era_gate::{Gate, Pass};
use era_meta::Meta;
use era_model::{Entry, Event};

/// The metadata disk.
fn disk_of<D: Disk>(meta: &Meta<D>) -> &D
    ensures { result.now ≡ meta.now.slots.disk }
{
    &meta.slots.disk
}

impl<D: Disk> Keeper<D> {
    ghost use Rattle.era_keeper.specs.Calls.{DrewAt, MayDraw, MayNote, SameRest};
    ghost use Rattle.era_keeper.specs.Keepers.{KeeperFits, KeeperStands, noted, view_of};
    ghost use Rattle.era_keeper.specs.OwnEntries.{KeeperMay};
    ghost use Rattle.era_keeper.specs.Steps.{IsQuiet, TellsNewCount};

    /// Draws the next place for an event, and keeps and notes the entry. It makes no device call and takes no memory.
    pub(crate) fn note(&mut self, gate: &Gate, pass: &mut Pass, event: Event) -> u64
        requires may { MayNote gate.now self.old pass.old event }
        ensures view { view_of D.Disk self.new ≡ noted (view_of D.Disk self.old) event result }
        ensures drew { DrewAt event result self.old self.new pass.old pass.new }
        ensures same { SameRest self.old self.new }
    {
        let place = gate.draw_keeper(&mut self.seat, pass, &event);
        let entry = Entry { place, event };
        self.notes.add(&entry, disk_of(&self.meta));
        self.entries.push(entry);
        place
    }

    /// Draws an event that leaves the marks, the snapshot and the era as they are. It makes no device call and takes no
    /// memory.
    pub(crate) fn tell(&mut self, gate: &Gate, pass: &mut Pass, id: CmdId, event: Event)
        requires may { MayDraw D.Disk 2 gate.now self.old pass.old id 1 }
        requires quiet { IsQuiet self.old.meta.unstored event }
        requires asks { KeeperAsks event self.old.seat.part × (lane_of event ≡ id.lane) }
        ensures fits { KeeperFits D.Disk self.new }
        ensures stands { (opening : Opening)
            → KeeperMay (own_history opening (view_of D.Disk self.old).notes) event
            → TellsNewCount D.Disk self.old event
            → KeeperStands D.Disk opening self.old → KeeperStands D.Disk opening self.new }
        ensures drew { (place : ℕ)
            × DrewAt event place self.old self.new pass.old pass.new
            × (view_of D.Disk self.new ≡ noted (view_of D.Disk self.old) event place) }
        ensures same { SameRest self.old self.new }
    {
        self.meta.crashes_now();
        self.note(gate, pass, event);
    }
}
