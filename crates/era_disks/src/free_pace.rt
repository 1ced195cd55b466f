//! The pace of a program: no point holds.

use era_base::{CmdId, Pace, Point};

/// A pace that never holds a command.
#[derive(Clone, Copy, Debug, PartialEq, Eq)]
pub struct FreePace;

impl Pace for FreePace {
    fn at(&self, _point: Point, _id: CmdId) {}
}
