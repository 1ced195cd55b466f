//! What the exchange of the gate word answers.

/// Whether the era moved.
#[derive(Clone, Copy, Debug, PartialEq, Eq)]
pub enum Rolled {
    /// Nobody was inside, and the word has this era now.
    Moved(u32),
    /// The word stays, since it counted so many stripes inside.
    Kept(u32),
}
