//! What follows from notes and windows. The functions do nothing; their clauses are the laws.

ghost use Rattle.std.specs.Prelude.{◌≡◌, ℕ, ◌≤◌, List};
ghost use Rattle.era_base.specs.CrashModel.{clock};
ghost use Rattle.era_notes.specs.Notes.{Note};
ghost use Rattle.era_notes.specs.Windows.{AreOrdered, IsInWindow, NotedDevice, window_start, window_end};

/// Where moments and places are in order, no window is empty, and each moment of the session lies in the window of some
/// place.
pub fn windows_are_never_empty()
    ensures some { (begun last bound place : ℕ) (notes : List Note)
        → AreOrdered begun last bound notes
        → window_start begun place notes ≤ window_end last place notes }
    ensures all { (device : NotedDevice) (bound moment : ℕ)
        → AreOrdered device.begun (clock device.history) bound device.notes
        → device.begun ≤ moment → moment ≤ clock device.history
        → (place : ℕ) × (place ≤ bound) × IsInWindow device place moment }
{}
