//! What the origin held when the session opened.

use era_base::Bytes;

/// The origin's bytes at the opening, where they are known.
#[derive(Debug, Drop)]
pub struct Contents {
    pub bytes: Option<Bytes>,
}
