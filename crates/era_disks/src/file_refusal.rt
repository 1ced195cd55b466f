//! Why a bay over files can't open a device.

use era_base::{Memory, Name};
use std::io;

/// Why the bay can't open a device.
#[derive(Drop)]
pub enum FileRefusal {
    /// Memory was refused.
    Memory,
    /// The system refused it, or the bay does; the reason in words.
    System(Name, io::Error),
}

impl From<Memory> for FileRefusal {
    fn from(_: Memory) -> FileRefusal {
        FileRefusal::Memory
    }
}
