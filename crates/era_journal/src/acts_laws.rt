//! The acts of a gate as a log of draws. The functions do nothing; their clauses are the laws.

ghost use Rattle.std.specs.Prelude.{◌≡◌, ◌<◌, ℕ, List};
ghost use Rattle.era_gate.specs.Acts.{Act, IsLegalFrom, opened, reach};
ghost use Rattle.era_gate.specs.Drawn.{drawn};
ghost use Rattle.era_journal.specs.ActsLog.{log_of};
ghost use Rattle.era_notes.specs.Logs.{noted_entries, own_entries};
ghost use Rattle.era_notes.specs.Notes.{Note, entries_of};
ghost use Rattle.era_promise.specs.Owners.{logged_entries};

use era_gate::laws::entries_are_drawn;

/// What acts drew are the entries of their log. Notes with the entries that a stripe or the keeper has after legal acts
/// have, the latest first, the entries of its own draws in the log.
pub fn acts_are_a_log()
    ensures entries { (keeper : ℕ) (acts : List Act)
        → drawn 0 acts ≡ logged_entries (log_of keeper acts) }
    ensures stripe { (d n era : ℕ) (acts : List Act) (notes : List Note) → d < n
        → entries_of notes ≡ ((reach (opened era) acts).stripe d).entries
        → noted_entries notes ≡ own_entries d (log_of n acts) }
    ensures keeper { (n era : ℕ) (acts : List Act) (notes : List Note)
        → IsLegalFrom n (opened era) acts
        → entries_of notes ≡ (reach (opened era) acts).keeper.entries
        → noted_entries notes ≡ own_entries n (log_of n acts) }
{
    entries_are_drawn();
}
