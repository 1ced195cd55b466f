//! The letters of events.

ghost use Rattle.std.specs.Prelude.{◌≡◌};
ghost use Rattle.era_model.specs.Events.{letter_of as letter};

use era_model::Event;

/// The letter of an event in a trail.
pub fn letter_of(event: &Event) -> u8
    ensures { result ≡ letter event.now }
{
    match event {
        Event::Tried { .. } => b't',
        Event::Mark { .. } => b'm',
        Event::Go { .. } => b'g',
        Event::Done { .. } => b'd',
        Event::Cut { .. } => b'c',
        Event::Settle { .. } => b's',
        Event::Unsettled { .. } => b'u',
        Event::Read { .. } => b'r',
        Event::Roll { .. } => b'e',
        Event::Kept { .. } => b'k',
        Event::Snap { .. } => b'p',
        Event::Dropped { .. } => b'x',
        Event::Digest { .. } => b'a',
        Event::List { .. } => b'l',
        Event::Status { .. } => b'q',
        Event::Refused { .. } => b'f',
    }
}
