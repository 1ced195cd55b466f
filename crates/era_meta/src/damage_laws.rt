//! Laws of damage. The functions do nothing; their clauses are the laws.

ghost use Rattle.std.specs.Prelude.{◌≡◌, ◌*◌, ◌≤◌, ℕ, List, length};
ghost use Rattle.era_base.specs.Geometry.{need_of};
ghost use Rattle.era_meta.specs.Content.{blocks_of_root};
ghost use Rattle.era_meta.specs.Damage.{Damage, Test, FindsFirst, PassAll, damage_tests, root_in};
ghost use Rattle.era_meta.specs.Meaning.{Meaning, IsImageOf};
ghost use Rattle.era_slots.specs.Slot.{IsBlank};

use era_layout::laws::root_is_read_back;

/// One damage is found first at most, and none where all tests pass.
pub fn one_damage_is_first()
    ensures one { (seen : List ℕ) (tests : List Test) (one two : Damage)
        → FindsFirst seen tests one → FindsFirst seen tests two → one ≡ two }
    ensures none { (seen : List ℕ) (tests : List Test) (found : Damage)
        → FindsFirst seen tests found → ¬ PassAll seen tests }
{
    root_is_read_back();
}

/// A disk stands for a meaning exactly where a gate is open, all tests pass, and the blocks that the newest root's
/// geometry needs are there.
pub fn undamaged_disk_stands_for_a_meaning()
    ensures stands { (seen : List ℕ) → (¬ IsBlank seen) → PassAll seen (damage_tests seen)
        → 4096 * need_of (blocks_of_root (root_in seen)) ≤ length seen
        → (meaning : Meaning) × IsImageOf meaning seen }
    ensures undamaged { (seen : List ℕ) (meaning : Meaning) → IsImageOf meaning seen
        → PassAll seen (damage_tests seen)
        × (4096 * need_of (blocks_of_root (root_in seen)) ≤ length seen) × (¬ IsBlank seen) }
{
    root_is_read_back();
}
