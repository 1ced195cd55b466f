//! Notes: the entries of one device with their moments, what they say of the whole journal, and the room of a command.
#![tactic(auto)]

mod buffers;
mod chunks;
pub mod laws;
mod notes;
pub mod own_laws;
mod room;

pub use buffers::Buffers;
pub use chunks::Chunks;
pub use notes::Notes;
pub use room::{ROOM_ENTRIES, Room};
