//! Events of a command that a session is searched for.

ghost use Rattle.std.specs.Prelude.{◌≡◌};
ghost use Rattle.era_core.specs.AfterSteps.{is_metadata_event};
ghost use Rattle.era_core.specs.Present.{leaves_trace};

use era_base::CmdId;
use era_model::{Event, Why, same_command};

/// What a command did in a session: its write was issued, it switched the era, it asked for a mark, or it was told that
/// the metadata disk failed.
#[derive(Clone, Copy, Debug, PartialEq, Eq)]
pub enum Trace {
    Go,
    Switch,
    Request,
    MetadataFault,
}

impl Trace {
    /// Whether the event is one of this kind and of the command.
    pub fn is_left_by(self, id: CmdId, event: &Event) -> bool
        ensures { result ≡ leaves_trace self id event.now }
    {
        match self {
            Trace::Go => match event {
                Event::Go { id: other, .. } => same_command(*other, id),
                _ => false,
            },
            Trace::Switch => match event {
                Event::Roll { id: other, .. } => same_command(*other, id),
                _ => false,
            },
            Trace::Request => match event {
                Event::Tried { id: other, .. } => same_command(*other, id),
                _ => false,
            },
            Trace::MetadataFault => match event {
                Event::Refused {
                    id: other,
                    kind: _,
                    why: Why::MetaFault(_),
                } => same_command(*other, id),
                _ => false,
            },
        }
    }
}

/// Whether the event is one of the metadata. All are, but for those of the origin's parts.
pub fn is_metadata_event(event: &Event) -> bool
    ensures { result ≡ is_metadata_event event.now }
{
    match event {
        Event::Go { .. } => false,
        Event::Done { .. } => false,
        Event::Cut { .. } => false,
        Event::Settle { .. } => false,
        Event::Unsettled { .. } => false,
        Event::Read { .. } => false,
        Event::Refused {
            id: _,
            kind: _,
            why: Why::DataFault { .. },
        } => false,
        _ => true,
    }
}
