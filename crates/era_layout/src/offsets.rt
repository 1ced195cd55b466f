//! The fixed fields of a root: where each stands, in bytes from the root's first, and which values they have.
//! docs/FORMAT.md has the table.

/// The eight bytes at the front.
pub const MAGIC: [u8; 8] = *b"eradisk1";

pub const VERSION: usize = 8;

pub const BLOCK_SECTORS: usize = 12;

pub const SECTORS: usize = 16;

pub const ERA: usize = 24;

pub const HELD: usize = 28;

pub const COUNT: usize = 32;
/// Four bytes that are 0.
pub const GAP: usize = 36;
/// The page numbers and the archived sets begin here.
pub const LISTS: usize = 40;

/// The version of the layout.
pub const LAYOUT: u32 = 1;
/// The held field of a root that holds a snapshot: the metadata block of the held root.
pub const HELD_BLOCK: u32 = 2;
