//! Laws of the definitions, each the contract of a function that does nothing.

ghost use Rattle.std.specs.Prelude.{◌≡◌, ◌<◌, ◌≤◌, ◌↔◌, false, ◌++◌, ℕ, List, length};
ghost use Rattle.era_layout.specs.Numbers.{AreBytes};
ghost use Rattle.era_layout.specs.Pages.{entry_at, flag_at};
ghost use Rattle.era_layout.specs.Root.{RootFields, head_bytes, lists_bytes, root_bytes, IsValidRoot};
ghost use Rattle.era_layout.specs.Damage.{HeldPasses, fields_at, root_kinds, NoneApplies, NoneAppliesOf};

/// No kind of damage applies to 3,576 bytes exactly where they are those of a valid root.
pub fn undamaged_bytes_are_a_root()
    ensures { (bytes : List ℕ) → length bytes ≡ 3576 → AreBytes bytes
        → NoneApplies bytes root_kinds
        ↔ ((root : RootFields) × IsValidRoot root × (root_bytes root ≡ bytes)) }
{}

/// No kind of damage applies to 3,576 bytes as the held root exactly where they are those of a valid root that holds no
/// snapshot.
pub fn undamaged_bytes_are_a_held_root()
    ensures { (bytes : List ℕ) → length bytes ≡ 3576 → AreBytes bytes
        → NoneAppliesOf (HeldPasses bytes) root_kinds
        ↔ ((root : RootFields) × IsValidRoot root × (root.held ≡ false)
        × (root_bytes root ≡ bytes)) }
{}

/// The bytes of a valid root say that root, and no kind of damage applies to them.
pub fn root_is_read_back()
    ensures fields { (root : RootFields) → IsValidRoot root → fields_at (root_bytes root) ≡ root }
    ensures none { (root : RootFields) → IsValidRoot root
        → NoneApplies (root_bytes root) root_kinds }
    ensures held { (root : RootFields) → IsValidRoot root → root.held ≡ false
        → NoneAppliesOf (HeldPasses (root_bytes root)) root_kinds }
{}

/// Valid roots with the same bytes are one.
pub fn bytes_are_of_one_root()
    ensures { (one other : RootFields) → IsValidRoot one → IsValidRoot other
        → root_bytes one ≡ root_bytes other → one ≡ other }
{}

/// A valid root takes 3,576 bytes, of which at most 496 are fields.
pub fn root_fits_its_place()
    ensures whole { (root : RootFields) → IsValidRoot root → length (root_bytes root) ≡ 3576 }
    ensures fields { (root : RootFields) → IsValidRoot root
        → length (head_bytes root ++ lists_bytes root) ≤ 496 }
{}

/// Pages of the era array with the same entries are one.
pub fn entries_are_of_one_page()
    ensures { (one other : List ℕ) → length one ≡ 4096 → length other ≡ 4096
        → AreBytes one → AreBytes other
        → ((index : ℕ) → index < 1024 → entry_at one index ≡ entry_at other index) → one ≡ other }
{}

/// Pages of a write set with the same bits are one.
pub fn bits_are_of_one_page()
    ensures { (one other : List ℕ) → length one ≡ 4096 → length other ≡ 4096
        → AreBytes one → AreBytes other
        → ((index : ℕ) → index < 32768 → flag_at one index ≡ flag_at other index) → one ≡ other }
{}
