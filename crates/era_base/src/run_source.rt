//! Sets of blocks that are listed as runs.

ghost use Rattle.std.specs.Prelude.{◌≡◌, ℕ, ◌<◌, ◌≤◌, Bool, IfSome, IfNone};
ghost use Rattle.era_base.specs.Runs.{IsFirstWith, IsNextRun, NoneFrom};

/// Blocks of which some are listed: a write set, or the blocks that were written since an era.
pub trait RunSource {
    /// How many blocks there are.
    ghost blocks: { Self → ℕ };

    /// Whether a block is listed.
    ghost has: { Self → ℕ → Bool };

    /// How many blocks there are. None behind them is listed.
    fn blocks(&self) -> u32
        ensures value { result ≡ blocks self.now }
        ensures past { NoneFrom (has self.now) (blocks self.now) };

    /// The first block from `from` on that is listed, or that isn't, as `flag` says. It is the number of blocks where there
    /// is none.
    fn first_with(&self, from: u32, flag: bool) -> u32
        requires { from ≤ blocks self.now }
        ensures { IsFirstWith (has self.now) flag from (blocks self.now) result };

    /// The first listed block from `from` on, and the last block up to which all are listed. `None` comes exactly where
    /// no such block is listed.
    fn next_run(&self, from: u32) -> Option<(u32, u32)>
        ensures none { IfNone result (NoneFrom (has self.now) from) }
        ensures run { IfSome result (IsNextRun (has self.now) from) }
        ensures last { IfSome result (λ run. run.1 < 4294967295) }
    {
        let blocks = self.blocks();
        let first = self.first_with(from.min(blocks), true);
        if first < blocks {
            Some((first, self.first_with(first, false) - 1))
        } else {
            None
        }
    }
}
