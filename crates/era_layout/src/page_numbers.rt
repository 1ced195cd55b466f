//! The page numbers of one root, gathered without an allocation.

ghost use Rattle.std.specs.Prelude.{◌≡◌, ◌+◌, ◌*◌, ◌<◌, ◌≤◌, ℕ, List, [], ◌∷◌, ◌++◌, length, take};
ghost use Rattle.era_layout.specs.Numbers.{u32s_at};

use crate::numbers::read_u32;
use std::marker::Model;

/// Up to 98 page numbers: 64 of the era array, 2 of the current set, 2 of each of 16 archived sets.
#[derive(Drop)]
pub struct PageNumbers {
    numbers: [u32; 98],
    count: usize,
}

impl Model for PageNumbers {
    ghost Value = { List ℕ };

    ghost view = { λ p. take p.count p.numbers };

    ghost invariant = { λ p. p.count ≤ 98 };
}

impl PageNumbers {
    /// No numbers.
    pub fn new() -> PageNumbers
        ensures { result ≡ [] }
    {
        PageNumbers {
            numbers: [0; 98],
            count: 0,
        }
    }

    /// Adds a number behind the others.
    fn push(&mut self, number: u32)
        requires { length self.old < 98 }
        ensures { self.new ≡ self.old ++ number ∷ [] }
    {
        self.numbers[self.count] = number;
        self.count += 1;
    }

    /// Adds so many numbers that stand at an offset.
    pub fn read(&mut self, bytes: &[u8], offset: usize, count: usize)
        requires room { length self.old + count ≤ 98 }
        requires bytes { offset + 4 * count ≤ length bytes.now }
        ensures { self.new ≡ self.old ++ u32s_at bytes.now offset count }
    {
        for index in 0..count {
            self.push(read_u32(bytes, offset + 4 * index));
        }
    }

    /// The numbers.
    pub fn as_slice(&self) -> &[u32]
        ensures { result.now ≡ self.now }
    {
        &self.numbers[..self.count]
    }
}
