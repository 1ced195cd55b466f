//! A give that fails.

/// The number of a give that fails, counted from 0, and how many bytes of its piece it still takes.
#[derive(Clone, Copy, Debug, PartialEq, Eq)]
pub struct FailingGive {
    pub number: u64,
    pub taken: usize,
}
