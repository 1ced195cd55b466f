//! A write whose outcome isn't known.

use era_base::CmdId;

/// A write that failed: its command, its block, its first sector within the block, and a buffer with as many bytes as it
/// wrote, for what is read back of it.
#[derive(Drop)]
pub struct CutWrite {
    pub id: CmdId,
    pub block: u32,
    pub first: u32,
    pub buffer: Vec<u8>,
}
