//! What a session draws numbers for: each event is one step of a command, in the order of these numbers.

use era_base::{Bytes, CmdId, Runs};

/// One step of a command. `id` is the command that drew it.
#[derive(Debug, Drop)]
pub enum Event {
    /// A write asked that its block is marked in this era.
    Tried {
        id: CmdId,
        block: u32,
        era: u32,
    },
    /// The block's mark in this era is stored.
    Mark {
        id: CmdId,
        block: u32,
        era: u32,
    },
    /// A write of a marked block was issued, from sector `first` of the block on.
    Go {
        id: CmdId,
        block: u32,
        era: u32,
        first: u32,
        bytes: Bytes,
    },
    /// The write was acknowledged.
    Done {
        id: CmdId,
    },
    /// The write failed, and its outcome isn't known.
    Cut {
        id: CmdId,
        faults: u64,
    },
    /// The command `by` resolved the cut write of `cut`: these bytes were read back from its sectors.
    Settle {
        by: CmdId,
        cut: CmdId,
        bytes: Bytes,
    },
    /// The command `by` couldn't resolve the cut write of `cut`.
    Unsettled {
        by: CmdId,
        cut: CmdId,
        faults: u64,
    },
    /// These bytes were read from this sector on.
    Read {
        id: CmdId,
        sector: u64,
        bytes: Bytes,
    },
    /// The session moved to this era.
    Roll {
        id: CmdId,
        era: u32,
    },
    /// The era stayed, since so many stripes were inside.
    Kept {
        id: CmdId,
        inside: u32,
    },
    /// A snapshot of the metadata is held, at this metadata block.
    Snap {
        id: CmdId,
        block: u32,
    },
    /// The snapshot was dropped.
    Dropped {
        id: CmdId,
    },
    /// A page of the oldest archived set, of this era, was transcribed, or the set was dropped.
    Digest {
        id: CmdId,
        era: u32,
        page: Option<u32>,
    },
    /// The blocks that were written since an era, by the marks or by the snapshot.
    List {
        id: CmdId,
        since: u32,
        snap: bool,
        blocks: Runs,
    },
    /// The usage of the metadata disk, the era, and the block of the snapshot.
    Status {
        id: CmdId,
        used: u32,
        total: u64,
        era: u32,
        held: Option<u32>,
    },
    /// The command was refused.
    Refused {
        id: CmdId,
        kind: Kind,
        why: Why,
    },
}

/// What a refused command is.
#[derive(Clone, Copy, Debug, PartialEq, Eq)]
pub enum Kind {
    Write,
    Read,
    Checkpoint,
    TakeSnap,
    DropSnap,
    Digest,
    Status,
    List,
}

/// Why a command was refused. A count is the device's count of faults.
#[derive(Clone, Copy, Debug, PartialEq, Eq)]
pub enum Why {
    /// The part of the origin that is this stripe failed.
    DataFault { stripe: u32, count: u64 },
    /// The metadata disk failed.
    MetaFault(u64),
    /// The era is the last one.
    End,
    /// A snapshot is held already, at this metadata block.
    Held(u32),
    /// No snapshot is held.
    NoSnap,
    /// No set is archived.
    Idle,
    /// Memory was refused.
    Memory,
}
