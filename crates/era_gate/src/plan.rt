//! What a gate is made with.

/// The numbers of stripes and of blocks, the words of one bitmap, and the era in which the gate was made.
#[derive(Clone, Copy, Debug, PartialEq, Eq)]
pub struct Plan {
    pub stripes: u32,
    pub blocks: u32,
    pub words: u64,
    pub era: u32,
}
