//! Laws of what a disk stands for. The functions do nothing; their clauses are the laws.

ghost use Rattle.std.specs.Prelude.{◌≡◌, ℕ, ◌⊎◌, Bool, List, Option};
ghost use Rattle.era_base.specs.CrashModel.{State, Leaves};
ghost use Rattle.era_layout.specs.Root.{RootFields};
ghost use Rattle.era_slots.specs.Slot.{IsBlank};
ghost use Rattle.era_meta.specs.Keeping.{stored_in, Keeps, IsLeft, IsOfLeft};
ghost use Rattle.era_meta.specs.Meaning.{Meaning, IsImageOf};

use era_layout::laws::bytes_are_of_one_root;
use era_slots::laws::{
    one_slot_is_active, open_slot_is_left_as_it_reads, page_on_the_disk_is_left,
    standing_slots_leave_one_of_two_bodies,
};

/// An image stands for one meaning at most, and for none where no gate is open.
pub fn image_stands_for_one_meaning()
    ensures one { (one two : Meaning) (image : List ℕ)
        → IsImageOf one image → IsImageOf two image → one ≡ two }
    ensures blank { (meaning : Meaning) (image : List ℕ)
        → IsImageOf meaning image → ¬ IsBlank image }
{
    bytes_are_of_one_root();
    one_slot_is_active();
}

/// A commit that failed in opening its gate left one meaning.
pub fn one_meaning_is_left()
    ensures { (target number : ℕ) (one two : Meaning) (now : State)
        → IsLeft target number one now → IsLeft target number two now → one ≡ two }
{
    bytes_are_of_one_root();
}

/// Each crash image of a disk that keeps a root stands for what that says, or for what a commit that failed in opening
/// its gate was storing.
pub fn kept_disk_leaves_its_meanings()
    ensures { (target number : ℕ) (may_be_open : Bool) (root : RootFields)
        (held : Option RootFields) (now : State)
        → Keeps target number may_be_open root held now
        → Leaves (λ image. IsImageOf (stored_in now root held) image
        ⊎ IsOfLeft target number may_be_open now image) now }
{
    page_on_the_disk_is_left();
    standing_slots_leave_one_of_two_bodies();
    open_slot_is_left_as_it_reads();
}
