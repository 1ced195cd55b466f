//! The memory of one command, which is taken before the command begins.

ghost use Rattle.std.specs.Prelude.{◌≡◌, ◌≤◌, [], Some, IfOk, vec_len};
ghost use Rattle.era_notes.specs.Rooms.{entries_in, free_in, last_in};
ghost use Rattle.era_notes.specs.declared.room.TheConstants.{ROOM_ENTRIES};

use crate::buffers::Buffers;
use crate::chunks::Chunks;
use era_base::Memory;
use era_model::Entry;
use std::alloc::Global;
use std::marker::Model;
use std::mem;

/// The greatest number of entries that one command draws at a stripe or at the keeper.
pub const ROOM_ENTRIES: usize = 3;

/// Room for a command's entries at one stripe or at the keeper, for its payload, and for the bytes that are read back of
/// its write where that fails. Contracts see the number of bytes of the payload. It is handed on without memory.
#[derive(Drop)]
pub struct Room {
    entries: Vec<Entry>,
    link: Box<Chunks>,
    buffers: Buffers,
}

impl Model for Room {
    ghost use Rattle.std.specs.Prelude.{◌≡◌, ◌≤◌, ℕ, [], vec_len, vec_capacity};

    ghost Value = { ℕ };

    ghost view = { λ r. vec_len r.buffers.payload };

    ghost invariant = { λ r. (r.entries.items ≡ []) × (3 ≤ vec_capacity r.entries)
        × (vec_len r.buffers.spare ≡ vec_len r.buffers.payload) };
}

impl Room {
    /// Room for a command with so many bytes of payload.
    pub fn make(alloc: Global, payload: u32) -> Result<Room, Memory>
        ensures { IfOk result (λ room. room ≡ payload) }
    {
        let entries = Vec::with_capacity(alloc, ROOM_ENTRIES)?;
        let link = Box::new(alloc, Chunks::Start)?;
        let mut bytes = Vec::new(alloc);
        bytes.resize(payload as usize, 0)?;
        let mut spare = Vec::new(alloc);
        spare.resize(payload as usize, 0)?;
        let buffers = Buffers {
            payload: bytes,
            spare,
        };
        Ok(Room {
            entries,
            link,
            buffers,
        })
    }

    /// Gives the room for entries to a list of chunks, and hands the buffers out. It takes no memory.
    pub fn admit(self, chunks: &mut Chunks) -> Buffers
        ensures entries { entries_in chunks.new ≡ entries_in chunks.old }
        ensures last { last_in chunks.new ≡ [] }
        ensures room { ROOM_ENTRIES ≤ free_in chunks.new }
        ensures buffers { (vec_len result.payload ≡ self) × (vec_len result.spare ≡ self) }
    {
        let Room {
            entries,
            mut link,
            buffers,
        } = self;
        *link = mem::replace(chunks, Chunks::Start);
        *chunks = Chunks::After(entries, link);
        buffers
    }
}
