//! A keeper, with its beginning and its end.

ghost use Rattle.std.specs.Prelude.{◌≡◌, ◌≤◌, []};
ghost use Rattle.era_base.specs.Calls.{Now};
ghost use Rattle.era_model.specs.declared.opening.Opening.{Opening};
ghost use Rattle.era_notes.specs.Notes.{own_history};
ghost use Rattle.era_notes.specs.Rooms.{free_in, last_in};
ghost use Rattle.era_notes.specs.declared.room.TheConstants.{ROOM_ENTRIES};
ghost use Rattle.era_keeper.specs.Recovery.{LeavesDurable};

use era_base::Disk;
use era_gate::KeeperSeat;
use era_meta::Meta;
use era_model::Entry;
use era_notes::{Chunks, Notes, Room};

/// The metadata of an origin, and the keeper's seat of the gate.
#[derive(Drop)]
pub struct Keeper<D> {
    pub meta: Meta<D>,
    pub seat: KeeperSeat,
    pub entries: Chunks,
    pub notes: Notes<D>,
}

impl<D: Disk> Keeper<D> {
    ghost use Rattle.era_keeper.specs.Keepers.{IsNewKeeper, IsNewMeta, IsOpenedOver, KeeperFits, KeeperStands, view_of};

    /// The keeper of this metadata. It makes no device call and takes no memory. What it says of the marks holds in a
    /// session that opened with them.
    pub fn start(meta: Meta<D>, seat: KeeperSeat) -> Keeper<D>
        requires meta { IsNewMeta D.Disk meta }
        requires seat { IsNewKeeper seat.part meta.marks.era }
        ensures fits { KeeperFits D.Disk result }
        ensures stands { (opening : Opening) → IsOpenedOver D.Disk opening meta
            → KeeperStands D.Disk opening result }
        ensures parts { (result.meta ≡ meta) × (result.seat ≡ seat) }
    {
        meta.crashes_now();
        let notes = Notes::begin(&meta.slots.disk);
        Keeper {
            meta,
            seat,
            entries: Chunks::Start,
            notes,
        }
    }

    /// Takes over the room of one command. It takes no memory.
    pub fn admit(&mut self, room: Room)
        requires fits { KeeperFits D.Disk self.old }
        ensures fits { KeeperFits D.Disk self.new }
        ensures view { view_of D.Disk self.new ≡ view_of D.Disk self.old }
        ensures entries { ROOM_ENTRIES ≤ free_in self.new.entries }
        ensures last { last_in self.new.entries ≡ [] }
        ensures same { (self.new.meta ≡ self.old.meta) × (self.new.seat ≡ self.old.seat)
            × (self.new.notes ≡ self.old.notes) }
    {
        room.admit(&mut self.entries);
    }

    /// The entries that were drawn since the last room was admitted, in order: those of the command that was served last. It
    /// takes no memory.
    pub fn trail(&self) -> &[Entry]
        ensures { result.now ≡ last_in self.now.entries }
    {
        self.entries.last()
    }

    /// Each crash image now stands for marks and a snapshot that are durable by the keeper's entries. It does nothing.
    pub fn leaves_durable(&self)
        requires fits { KeeperFits D.Disk self.now }
        ensures { (opening : Opening) → KeeperStands D.Disk opening self.now
            → Now D.Disk
            (LeavesDurable (own_history opening (view_of D.Disk self.now).notes))
            self.now.meta.slots.disk }
    {
        self.meta.crashes_now();
    }

    /// Gives the metadata, the seat and the entries back. It takes no memory.
    pub fn close(self) -> (Meta<D>, KeeperSeat, Chunks)
        ensures parts { (result.0 ≡ self.meta) × (result.1 ≡ self.seat)
            × (result.2 ≡ self.entries) }
    {
        let Keeper {
            meta,
            seat,
            entries,
            notes: _,
        } = self;
        (meta, seat, entries)
    }
}
