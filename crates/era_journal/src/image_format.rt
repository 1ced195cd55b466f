//! What images of a session's metadata disk mean.

ghost use Rattle.era_journal.specs.SeenDevices.{StandsForMarks};
ghost use Rattle.era_slots.specs.Slot.{IsBlank};

use era_promise::ImageMeaning;

/// The format of the metadata disk: an image stands for the marks and the snapshot that its active slot says, and is blank
/// where neither gate of its slots is open.
pub struct EraFormat;

impl ImageMeaning for EraFormat {
    ghost stands_for = { StandsForMarks };

    ghost is_blank = { IsBlank };
}
