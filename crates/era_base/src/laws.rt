//! What follows from the disk model, for all that stands on disks. The functions do nothing; their clauses are the laws.

ghost use Rattle.std.specs.Prelude.{◌≡◌, ◌↔◌, ◌⊎◌, ℕ, ◌+◌, ◌<◌, ◌≤◌, List, [], ◌∷◌, length, slice_index};
ghost use Rattle.era_base.specs.Bytes.{part};
ghost use Rattle.era_base.specs.CrashModel.{State, History, Stepped, Continues, Went, SameBut, Wrote, Synced, IsWhole, IsClean, IsCrashImage, clock};
ghost use Rattle.era_base.specs.CrashLaws.{IsImageBetween, ByteRange, range_of, IsOutside, SameOutside};

/// Where no sector is pending, and only there, what a read gives is the only crash image.
pub fn clean_disk_has_one_image()
    ensures { (state : State) → IsClean state
        ↔ ((image : List ℕ) → IsCrashImage state image → image ≡ state.seen) }
{}

/// A disk as it reads is one of its own crash images.
pub fn disk_as_it_reads_is_an_image()
    ensures { (state : State) → IsCrashImage state state.seen }
{}

/// The images from one moment to another stay as they are, whatever is called afterwards.
pub fn images_of_past_moments_stay()
    ensures none { (history : History) → Continues history history }
    ensures call { (old new : History) → Stepped old new → Continues old new }
    ensures calls { (old mid new : History)
        → Continues old mid → Continues mid new → Continues old new }
    ensures images { (old new : History) (first last : ℕ) (image : List ℕ)
        → Continues old new → last ≤ clock old
        → IsImageBetween new first last image ↔ IsImageBetween old first last image }
{}

/// A further call adds the images of the state after it to those from a moment on, and no others.
pub fn call_adds_its_images()
    ensures now { (history : History) (image : List ℕ)
        → IsImageBetween history (clock history) (clock history) image
        ↔ IsCrashImage history.now image }
    ensures call { (old new : History) (first : ℕ) (image : List ℕ)
        → Stepped old new → first ≤ clock old
        → IsImageBetween new first (clock new) image
        ↔ (IsImageBetween old first (clock old) image ⊎ IsCrashImage new.now image) }
    ensures joined { (history : History) (first mid last : ℕ) (image : List ℕ)
        → first ≤ mid → mid ≤ last
        → IsImageBetween history first last image
        ↔ (IsImageBetween history first mid image ⊎ IsImageBetween history mid last image) }
{}

/// What calls have left as it was: one call, and calls after others. A read and a sync leave all of it.
pub fn calls_leave_the_rest()
    ensures write { (first : ℕ) (bytes : List ℕ) (before after : State)
        → Wrote first bytes before after → SameOutside (range_of first bytes ∷ []) before after }
    ensures failed { (range : ByteRange) (before after : State)
        → SameBut range.from range.to before after → SameOutside (range ∷ []) before after }
    ensures sync { (sectors : ℕ) (before after : State) → IsWhole sectors before
        → Synced before after → SameOutside [] before after }
    ensures none { (history : History) → Went (SameOutside []) history history }
    ensures call { (old mid new : History) (ranges : List ByteRange) (range : ByteRange)
        → Went (SameOutside ranges) old mid → Stepped mid new
        → SameOutside (range ∷ []) mid.now new.now
        → Went (SameOutside (range ∷ ranges)) old new }
    ensures quiet { (old mid new : History) (ranges : List ByteRange)
        → Went (SameOutside ranges) old mid → Stepped mid new → SameOutside [] mid.now new.now
        → Went (SameOutside ranges) old new }
    ensures calls { (old mid new : History) (ranges : List ByteRange) (range : ByteRange)
        → Went (SameOutside ranges) old mid → Went (SameBut range.from range.to) mid new
        → Went (SameOutside (range ∷ ranges)) old new }
{}

/// From a sync that answered Ok on, every image has what was read at it outside the ranges written since.
pub fn synced_bytes_survive()
    ensures kept { (before synced new : History)
        (ranges : List ByteRange) (image : List ℕ) (offset : ℕ)
        → Synced before.now synced.now → Went (SameOutside ranges) synced new
        → IsImageBetween new (clock synced) (clock new) image → IsOutside ranges offset
        → slice_index image offset ≡ slice_index synced.now.seen offset }
    ensures part { (before synced new : History)
        (ranges : List ByteRange) (image : List ℕ) (at count : ℕ)
        → Synced before.now synced.now → Went (SameOutside ranges) synced new
        → IsImageBetween new (clock synced) (clock new) image
        → ((offset : ℕ) → at ≤ offset → offset < at + count → IsOutside ranges offset)
        → part at count image ≡ part at count synced.now.seen }
    ensures size { (synced new : History) (ranges : List ByteRange) (image : List ℕ)
        → Went (SameOutside ranges) synced new → IsImageBetween new (clock synced) (clock new) image
        → length image ≡ length synced.now.seen }
{}
