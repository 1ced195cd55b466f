//! The steps of the machine.

use era_model::{Event, Images};

/// One step: a stripe enters or leaves, an event is drawn, a crash ends the session, or the next session opens.
#[derive(Debug, Drop)]
pub enum Step {
    /// The stripe enters: from now on its writes may be issued, and the era stays.
    Enter { stripe: u32 },
    /// The stripe leaves.
    Leave { stripe: u32 },
    /// The event draws the next place.
    Take(Event),
    /// A crash, or the end of the session, leaves these images.
    Crash { place_images: Images },
    /// The next session opens with this number of stripes, from 1 to 16.
    Reopen { stripes: u32 },
}

/// Why a list of steps was refused.
#[derive(Clone, Copy, Debug, PartialEq, Eq)]
pub enum CoreStop {
    /// The step with this index, counted from 0, may not happen. All steps before it may.
    NotEnabled(usize),
    /// Memory was refused.
    Memory,
}
