//! What the two slots are, as they were read.

ghost use Rattle.std.specs.Prelude.{◌≡◌, ◌≤◌, ◌↔◌, length, slice_index, true};
ghost use Rattle.era_slots.specs.Found.{IsHeadOf, IsBadHead, IsFound};

/// What two slots are together.
#[derive(Clone, Copy, Debug, PartialEq, Eq)]
pub enum Found {
    NoneOpen,
    BadSequence(u32),
    Tied,
    Active(u32),
}

/// The gate and the commit number of a slot.
#[derive(Clone, Copy, Debug, PartialEq, Eq)]
pub struct Head {
    /// Whether the gate is open.
    pub is_open: bool,
    /// The commit number, whatever it is.
    pub number: u64,
}

impl Head {
    /// Whether the gate is open over a number that no commit has.
    fn is_bad(self) -> bool
        ensures { (result ≡ true) ↔ IsBadHead self }
    {
        self.is_open && (self.number == 0 || self.number >= 1 << 63)
    }
}

/// Whether the gate that a slot's bytes begin with is open.
pub fn gate_is_open(slot: &[u8]) -> bool
    requires { 512 ≤ length slot.now }
    ensures { (result ≡ true) ↔ (slice_index slot.now 0 ≡ 1) }
{
    slot[0] == 1
}

/// The head of a slot's bytes, of which there are at least 1,024. It takes no memory.
#[tactic(auto, unfolding(crate::specs::Slot::commit_number))]
pub fn head_of(slot: &[u8]) -> Head
    requires { 1024 ≤ length slot.now }
    ensures { IsHeadOf slot.now result }
{
    let mut number = [0; 8];
    number.copy_from_slice(&slot[512..520]);
    Head {
        is_open: gate_is_open(slot),
        number: u64::from_le_bytes(number),
    }
}

/// What two slots with these heads are: first a bad number, then a tie, then the greater number of those that are open.
pub fn judge(first: Head, second: Head) -> Found
    ensures { IsFound first second result }
{
    if first.is_bad() {
        return Found::BadSequence(0);
    }
    if second.is_bad() {
        return Found::BadSequence(1);
    }
    match (first.is_open, second.is_open) {
        (false, false) => Found::NoneOpen,
        (true, false) => Found::Active(0),
        (false, true) => Found::Active(1),
        (true, true) => {
            if first.number == second.number {
                Found::Tied
            } else if second.number < first.number {
                Found::Active(0)
            } else {
                Found::Active(1)
            }
        }
    }
}
