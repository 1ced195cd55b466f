//! Names of commands.

/// A command: `number` counts the commands of its lane over the session, from 0.
#[derive(Clone, Copy, Debug, PartialEq, Eq)]
pub struct CmdId {
    pub lane: u32,
    pub number: u32,
}
