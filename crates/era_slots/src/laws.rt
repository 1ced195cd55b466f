//! Laws of the definitions, each the contract of a function that does nothing. They carry pages and bodies through the
//! moments that the clauses of the calls speak of.

ghost use Rattle.std.specs.Prelude.{◌≡◌, ◌≢◌, ◌↔◌, ◌+◌, ◌*◌, ◌<◌, ◌≤◌, ℕ, Bool, List, length};
ghost use Rattle.era_base.specs.CrashModel.{State, IsClean, IsCrashImage, Leaves};
ghost use Rattle.era_slots.specs.Slot.{page_of, commit_number, body_of, SlotIsOpen, IsActive, IsBlank, Stores};
ghost use Rattle.era_slots.specs.Standing.{IsDurable, Stands};
ghost use Rattle.era_slots.specs.Promise.{HasEither, IsSameBody, KeepsPages, IsSealed, Commits};
ghost use Rattle.era_slots.specs.Wiping.{Wipes};

/// A block that is on the disk is in each crash image what a read gives.
pub fn page_on_the_disk_is_left()
    ensures { (block : ℕ) (state : State) → IsDurable block state
        → Leaves (λ image. page_of block image ≡ page_of block state.seen) state }
{}

/// A block that was on the disk before a call, and that the call doesn't put, is in each crash image of each moment of
/// the call what it was: so the pages of the committed body, and of a body that a crash may bring back.
pub fn page_that_is_not_put_stays()
    ensures { (but block : ℕ) (before now : State)
        → KeepsPages but before now → 2 ≤ block → block ≢ but → IsDurable block before
        → Leaves (λ image. page_of block image ≡ page_of block before.seen) now }
{}

/// From the moment on at which the gate may be open, each block behind the slots is on the disk.
pub fn page_under_an_open_gate_is_on_the_disk()
    ensures { (target number block : ℕ) (body : List ℕ) (before now : State)
        → IsSealed target number body before now
        → 2 ≤ block → 4096 * block + 4096 ≤ length now.seen → IsDurable block now }
{}

/// Where a crash image of a commit has the new body, each block behind the slots is what a read gave before the commit:
/// what was put there last, where that put answered Ok.
pub fn new_body_has_its_pages()
    ensures { (target number block : ℕ) (body image : List ℕ) (before now : State)
        → Commits target number body before now
        → IsCrashImage now image → Stores target (number + 1) body image
        → 2 ≤ block → 4096 * block + 4096 ≤ length before.seen
        → page_of block image ≡ page_of block before.seen }
{}

/// A disk has one active slot at most, and none where no gate is open.
pub fn one_slot_is_active()
    ensures one { (slot beside : ℕ) (bytes : List ℕ)
        → slot < 2 → beside < 2 → IsActive slot bytes → IsActive beside bytes → slot ≡ beside }
    ensures blank { (slot : ℕ) (bytes : List ℕ) → slot < 2 → IsActive slot bytes → ¬ IsBlank bytes }
{}

/// The gate, the number and the body of a slot are read from the bytes of its block alone.
pub fn slot_is_read_from_its_block()
    ensures gate { (slot : ℕ) (seen : List ℕ)
        → SlotIsOpen 0 (page_of slot seen) ↔ SlotIsOpen slot seen }
    ensures number { (slot : ℕ) (seen : List ℕ)
        → commit_number 0 (page_of slot seen) ≡ commit_number slot seen }
    ensures body { (slot : ℕ) (seen : List ℕ)
        → body_of 0 (page_of slot seen) ≡ body_of slot seen }
{}

/// Each crash image of standing slots has the committed body, or that of the commit that failed in opening its gate.
pub fn standing_slots_leave_one_of_two_bodies()
    ensures { (target number : ℕ) (may_be_open : Bool) (now : State)
        → Stands target number may_be_open now
        → Leaves (HasEither target number may_be_open now) now }
{}

/// Each slot whose gate is open in a crash image of standing slots has there the number and the body that a read gives.
pub fn open_slot_is_left_as_it_reads()
    ensures { (target number slot : ℕ) (may_be_open : Bool) (now : State)
        → Stands target number may_be_open now → slot < 2
        → Leaves (λ image. SlotIsOpen slot image → IsSameBody slot now.seen image) now }
{}

/// Where nothing was pending before a wiping, each crash image of each of its moments has the numbers and the bodies of
/// both slots, and all blocks behind them, as they were read before.
pub fn wiping_keeps_bodies_and_pages()
    ensures bodies { (first slot : ℕ) (before now : State)
        → IsClean before → Wipes first before now → slot < 2
        → Leaves (IsSameBody slot before.seen) now }
    ensures pages { (first block : ℕ) (before now : State)
        → IsClean before → Wipes first before now → 2 ≤ block
        → Leaves (λ image. page_of block image ≡ page_of block before.seen) now }
{}
