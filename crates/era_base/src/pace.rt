//! Points at which a test may hold a command until another one has come as far.

use crate::ids::CmdId;

/// A point in the life of a command.
#[derive(Clone, Copy, Debug, PartialEq, Eq)]
pub enum Point {
    /// Before the command.
    Start,
    /// A write has entered the gate and has not looked yet.
    InGate,
    /// The keeper's lock was taken.
    InKeeper,
    /// The command is answered.
    Done,
}

/// What each command calls at its points. No clause rests on it.
pub trait Pace {
    /// Is called when the command `id` comes to `point`.
    fn at(&self, point: Point, id: CmdId);
}
