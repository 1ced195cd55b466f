//! The limits of origins, sessions and metadata disks.

/// The last era.
pub const LAST_ERA: u32 = 4_294_967_295;

/// The greatest number of blocks of an origin.
pub const MOST_BLOCKS: u32 = 65_536;

/// The greatest number of archived write sets.
pub const MOST_SETS: u32 = 16;

/// The greatest number of stripes of a session.
pub const MOST_STRIPES: u32 = 16;

/// The greatest number of commands of a round.
pub const MOST_COMMANDS: u32 = 4_096;
