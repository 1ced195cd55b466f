//! What the program is asked to do.

use era_base::Name;
use era_line::TableLine;

/// What the program is asked to do. An option that wasn't given has its default.
#[derive(Debug, Drop)]
pub enum Job {
    /// Serve the commands of the input, with 1 to 16 stripes and 0 to 4,096 digest steps in each round.
    Serve {
        line: TableLine,
        stripes: u32,
        digest: u32,
    },
    /// Run a load that is made from a seed.
    Load {
        line: TableLine,
        seed: u64,
        stripes: u32,
    },
    /// Tell how many metadata blocks an origin of so many sectors in blocks of so many sectors needs.
    Need {
        sectors: u64,
        block_sectors: u64,
    },
    /// List the blocks that were written since an era, as they are marked now or in the snapshot.
    Invalidate {
        meta: Name,
        since: u32,
        snap: bool,
    },
    /// Check whether a metadata device is whole.
    Check {
        meta: Name,
    },
    /// Write a metadata device as text; `logical` is without its write sets.
    Dump {
        meta: Name,
        logical: bool,
    },
    /// Write a metadata device from the text of the input.
    Restore {
        meta: Name,
    },
    /// Write the blocks of an origin as text that were written since an era.
    Backup {
        meta: Name,
        origin: Name,
        since: u32,
    },
    /// Write the blocks of the input's text to an origin.
    Apply {
        origin: Name,
    },
}
