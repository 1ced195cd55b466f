//! What an outcome tells of its command's events.

ghost use Rattle.std.specs.Prelude.{◌≡◌, ◌≤◌};
ghost use Rattle.era_top.specs.Outcomes.{event_count, is_cut_outcome, lacks_memory};

use crate::outcome::Outcome;

/// The number of events.
pub fn count_events(outcome: &Outcome) -> u64
    ensures value { result ≡ event_count outcome.now }
    ensures few { result ≤ 4 }
{
    match outcome {
        Outcome::OutOfRange => 0,
        Outcome::Done { marks } | Outcome::Cut { marks, .. } => { if *marks { 4 } else { 2 } }
        Outcome::Moved { .. } | Outcome::LastEra | Outcome::Listed { .. } | Outcome::NoMemory => 1,
    }
}

/// Whether a write was cut.
pub fn is_cut(outcome: &Outcome) -> bool
    ensures { result ≡ is_cut_outcome outcome.now }
{
    match outcome {
        Outcome::Cut { .. } => true,
        _ => false,
    }
}

/// Whether memory for a list was refused.
pub fn is_lack(outcome: &Outcome) -> bool
    ensures { result ≡ lacks_memory outcome.now }
{
    match outcome {
        Outcome::NoMemory => true,
        _ => false,
    }
}
