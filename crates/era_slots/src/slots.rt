//! The two slots of a metadata disk.

ghost use Rattle.std.specs.Prelude.{◌<◌};

/// A metadata disk of at least 3 metadata blocks of 4,096 bytes, whose blocks 0 and 1 are the slots. The next commit
/// goes to the slot `target`; the other one has the committed body, if there is one.
#[derive(Drop)]
pub struct Slots<D> {
    /// The disk.
    pub disk: D,
    /// The slot of the next commit, 0 or 1.
    pub target: u32,
    /// The number of the committed body, 0 where there is none.
    pub number: u64,
    /// Whether the gate of `target` may be open.
    pub may_be_open: bool,
    pub ghost slot: { target < 2 },
}
