//! What a drawer's own entries say is what the whole journal says. The functions do nothing; their clauses are the laws.

ghost use Rattle.std.specs.Prelude.{◌≡◌, ◌↔◌, ℕ, List, Option};
ghost use Rattle.era_base.specs.CrashModel.{clock};
ghost use Rattle.era_model.specs.Changed.{IsCrashContent};
ghost use Rattle.era_model.specs.History.{content, era_of, in_flight};
ghost use Rattle.era_model.specs.Marking.{held_of, is_marked_in, is_tried_in, journal_last_era, marks_of};
ghost use Rattle.era_model.specs.Marks.{BlockMarks};
ghost use Rattle.era_model.specs.Recovered.{IsDurableFrom, IsRecoveredFrom};
ghost use Rattle.era_model.specs.declared.opening.Opening.{Opening};
ghost use Rattle.era_notes.specs.Logs.{Draw, drawer_history, log_below, logged_history, noted_entries, own_entries};
ghost use Rattle.era_notes.specs.Notes.{Note, own_history};
ghost use Rattle.era_notes.specs.OwnDraws.{AreOwnDraws, StripesDraw, flights_of};
ghost use Rattle.era_notes.specs.Parts.{Part, IsIn, HoldsContent, bytes_in};
ghost use Rattle.era_notes.specs.Windows.{HoldsThrough, IsLeftAt, NotedDevice, notes_below};

/// Where each write is issued to a block of its drawer, once for each command, and ends and is resolved by its drawer:
/// the writes in flight to a drawer's blocks, these blocks' contents, and what a crash may leave of them, are those of the
/// drawer's own draws.
pub fn own_draws_tell_of_their_blocks()
    ensures flights { (opening : Opening) (drawer_of : ℕ → ℕ) (log : List Draw) (drawer : ℕ)
        → AreOwnDraws opening drawer_of log
        → flights_of drawer_of drawer (in_flight (logged_history opening log))
        ≡ in_flight (drawer_history opening drawer log) }
    ensures contents { (opening : Opening) (drawer_of : ℕ → ℕ) (log : List Draw) (block : ℕ)
        → AreOwnDraws opening drawer_of log
        → content (logged_history opening log) block
        ≡ content (drawer_history opening (drawer_of block) log) block }
    ensures crashes { (opening : Opening) (drawer_of : ℕ → ℕ) (log : List Draw) (block : ℕ)
        (image : List ℕ) → AreOwnDraws opening drawer_of log
        → IsCrashContent (drawer_history opening (drawer_of block) log) block image
        ↔ IsCrashContent (logged_history opening log) block image }
{}

/// Notes that have the entries of one drawer have them below each place, and make the history of the drawer's draws there.
pub fn notes_follow_the_log()
    ensures below { (drawer : ℕ) (log : List Draw) (notes : List Note) (place : ℕ)
        → noted_entries notes ≡ own_entries drawer log
        → noted_entries (notes_below place notes) ≡ own_entries drawer (log_below place log) }
    ensures history { (opening : Opening) (drawer : ℕ) (log : List Draw) (notes : List Note)
        → noted_entries notes ≡ own_entries drawer log
        → own_history opening notes ≡ drawer_history opening drawer log }
{}

/// In the window of each place, each crash image of a part is, block by block, one that a crash may leave by the whole
/// journal at that place.
pub fn parts_follow_the_log()
    ensures { (opening : Opening) (drawer_of : ℕ → ℕ) (drawer : ℕ) (log : List Draw) (part : Part)
        (device : NotedDevice) (place : ℕ) (image : List ℕ)
        → AreOwnDraws opening drawer_of log
        → ((block : ℕ) → IsIn part block → drawer_of block ≡ drawer)
        → noted_entries device.notes ≡ own_entries drawer log
        → HoldsThrough (λ notes. HoldsContent part (own_history opening notes)) device.history
        device.begun (clock device.history) device.notes
        → IsLeftAt device place image → (block : ℕ) → IsIn part block
        → IsCrashContent (logged_history opening (log_below place log)) block
        (bytes_in part image block) }
{}

/// Where all others draw events of stripes alone: the marks and the snapshot, the era, each block's last era, and what was
/// asked for and marked, are those of the keeper's own draws.
pub fn keeper_draws_tell_of_the_marks()
    ensures marks { (opening : Opening) (keeper : ℕ) (log : List Draw) → StripesDraw keeper log
        → (marks_of (logged_history opening log) ≡ marks_of (drawer_history opening keeper log))
        × (held_of (logged_history opening log) ≡ held_of (drawer_history opening keeper log)) }
    ensures era { (opening : Opening) (keeper : ℕ) (log : List Draw) → StripesDraw keeper log
        → era_of (logged_history opening log) ≡ era_of (drawer_history opening keeper log) }
    ensures lasts { (opening : Opening) (keeper : ℕ) (log : List Draw) (block : ℕ)
        → StripesDraw keeper log
        → journal_last_era (logged_history opening log) block
        ≡ journal_last_era (drawer_history opening keeper log) block }
    ensures tried { (opening : Opening) (keeper : ℕ) (log : List Draw) (block era : ℕ)
        → StripesDraw keeper log
        → is_tried_in (logged_history opening log) block era
        ≡ is_tried_in (drawer_history opening keeper log) block era }
    ensures marked { (opening : Opening) (keeper : ℕ) (log : List Draw) (block era : ℕ)
        → StripesDraw keeper log
        → is_marked_in (logged_history opening log) block era
        ≡ is_marked_in (drawer_history opening keeper log) block era }
{}

/// Marks and a snapshot that may be recovered by the keeper's own draws may be recovered by the whole journal.
pub fn recovered_marks_follow_the_log()
    ensures { (opening : Opening) (keeper : ℕ) (log : List Draw) (m : BlockMarks)
        (found : Option BlockMarks) → StripesDraw keeper log
        → IsRecoveredFrom (drawer_history opening keeper log) m found
        → IsRecoveredFrom (logged_history opening log) m found }
{}

/// Marks and a snapshot that are durable where the session ends, by the keeper's own draws, are durable by the whole journal.
pub fn durable_marks_follow_the_log()
    ensures { (opening : Opening) (keeper : ℕ) (log : List Draw) (m : BlockMarks)
        (found : Option BlockMarks) → StripesDraw keeper log
        → IsDurableFrom (drawer_history opening keeper log) m found
        → IsDurableFrom (logged_history opening log) m found }
{}
