//! The events of one command as its reply names them.

ghost use Rattle.std.specs.Prelude.{◌≡◌, ◌<◌, ◌≤◌, ℕ, List, [], ◌∷◌, ◌++◌, length, take};

use std::marker::Model;

/// Up to 24 pairs of an event's letter, as an ASCII byte, and its place, which is its number in the order of all events.
#[derive(Debug, Drop)]
pub struct Trail {
    pairs: [(u8, u64); 24],
    len: usize,
}

impl Model for Trail {
    ghost Value = { List (ℕ × ℕ) };

    ghost view = { λ t. take t.len t.pairs };

    ghost invariant = { λ t. t.len ≤ 24 };
}

impl Trail {
    /// No events.
    pub fn new() -> Trail
        ensures { result ≡ [] }
    {
        Trail {
            pairs: [(0, 0); 24],
            len: 0,
        }
    }

    /// Adds an event behind the others.
    pub fn push(&mut self, letter: u8, place: u64)
        requires { length self.old < 24 }
        ensures { self.new ≡ self.old ++ (letter, place) ∷ [] }
    {
        self.pairs[self.len] = (letter, place);
        self.len += 1;
    }

    /// The pairs in order.
    pub fn as_slice(&self) -> &[(u8, u64)]
        ensures value { result.now ≡ self.now }
        ensures room { length self.now ≤ 24 }
    {
        &self.pairs[..self.len]
    }
}
