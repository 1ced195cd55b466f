//! A stripe, with its beginning and its end.

ghost use Rattle.std.specs.Prelude.{◌≡◌, ◌≤◌, ◌+◌, ℕ, true, false, [], ◌∷◌, None};
ghost use Rattle.era_base.specs.Geometry.{blocks_of};
ghost use Rattle.era_base.specs.Calls.{Now};
ghost use Rattle.era_model.specs.declared.opening.Opening.{Opening};
ghost use Rattle.era_model.specs.declared.history.Happening.TheVariants.{Opened};
ghost use Rattle.era_notes.specs.Notes.{first_device};
ghost use Rattle.era_notes.specs.Rooms.{entries_in, free_in, last_in, HoldBytes};
ghost use Rattle.era_notes.specs.declared.room.TheConstants.{ROOM_ENTRIES};
ghost use Rattle.era_notes.specs.Parts.{part_sectors, HoldsContent};

use crate::cut_write::CutWrite;
use era_base::{Disk, Geometry};
use era_gate::StripeSeat;
use era_model::Entry;
use era_notes::{Buffers, Chunks, Notes, Room};

/// A range of blocks on a disk of its own. `index` is its number, `era` that of its present stay in the gate, `cut` its
/// write whose outcome isn't known, and `room` the buffers of the command that was admitted last.
#[derive(Drop)]
pub struct Stripe<D> {
    pub disk: D,
    pub index: u32,
    pub geometry: Geometry,
    pub first_block: u32,
    pub blocks: u32,
    pub seat: StripeSeat,
    pub era: u32,
    pub cut: Option<CutWrite>,
    pub entries: Chunks,
    pub notes: Notes<D>,
    pub room: Option<Buffers>,
}

impl<D: Disk> Stripe<D> {
    ghost use Rattle.era_stripe.specs.Stripes.{StripeFits, StripeStands, IsPartOf, IsAtRest, IsNewSeat, view_of, part_of};

    /// The stripe of these blocks over a disk of just their sectors. It makes no device call and takes no memory. What it
    /// says of the content holds where the disk holds that of the opening, with nothing pending.
    pub fn start(
        disk: D,
        index: u32,
        first_block: u32,
        blocks: u32,
        geometry: Geometry,
        seat: StripeSeat,
    ) -> Stripe<D>
        requires size { D.sectors disk ≡ part_sectors geometry first_block blocks }
        requires seat { IsNewSeat seat.part index }
        ensures fits { StripeFits D.Disk result }
        ensures rest { IsAtRest result }
        ensures stands { (opening : Opening) → IsPartOf opening geometry (part_of result)
            → Now D.Disk (HoldsContent (part_of result) (Opened opening ∷ [])) disk
            → StripeStands D.Disk opening result }
        ensures parts { (result.disk ≡ disk) × (result.seat ≡ seat) × (result.index ≡ index)
            × (result.geometry ≡ geometry) × (result.first_block ≡ first_block)
            × (result.blocks ≡ blocks) × (first_device result.notes ≡ disk) }
    {
        let notes = Notes::begin(&disk);
        Stripe {
            disk,
            index,
            geometry,
            first_block,
            blocks,
            seat,
            era: 0,
            cut: None,
            entries: Chunks::Start,
            notes,
            room: None,
        }
    }

    /// Takes over the room of one command. What an earlier command left of its buffers is let go. It takes no memory.
    pub fn admit(&mut self, room: Room)
        requires fits { StripeFits D.Disk self.old }
        ensures fits { StripeFits D.Disk self.new }
        ensures view { view_of D.Disk self.new ≡ view_of D.Disk self.old }
        ensures entries { ROOM_ENTRIES ≤ free_in self.new.entries }
        ensures last { last_in self.new.entries ≡ [] }
        ensures buffers { HoldBytes room self.new.room }
        ensures same { (self.new.disk ≡ self.old.disk) × (self.new.seat ≡ self.old.seat)
            × (self.new.cut ≡ self.old.cut) × (self.new.era ≡ self.old.era)
            × (self.new.notes ≡ self.old.notes) }
    {
        let buffers = room.admit(&mut self.entries);
        self.room = Some(buffers);
    }

    /// The entries that were drawn since the last room was admitted, in order: those of the command that was served last. It
    /// takes no memory.
    pub fn trail(&self) -> &[Entry]
        ensures { result.now ≡ last_in self.now.entries }
    {
        self.entries.last()
    }

    /// Gives the part, the seat and the entries back. It takes no memory.
    pub fn close(self) -> (D, StripeSeat, Chunks)
        ensures parts { (result.0 ≡ self.disk) × (result.1 ≡ self.seat)
            × (result.2 ≡ self.entries) }
    {
        let Stripe {
            disk,
            index: _,
            geometry: _,
            first_block: _,
            blocks: _,
            seat,
            era: _,
            cut: _,
            entries,
            notes: _,
            room: _,
        } = self;
        (disk, seat, entries)
    }
}
