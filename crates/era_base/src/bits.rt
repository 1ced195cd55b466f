//! Bits in words of 64 bits.

ghost use Rattle.std.specs.Prelude.{◌≡◌};
ghost use Rattle.era_base.specs.Bits.{bit_of_words};

/// The bit at an index of words, each from its lowest bit on; past the end it is clear. It takes no memory.
pub fn has_bit(words: &[u64], index: u32) -> bool
    ensures { result ≡ bit_of_words words.now index }
{
    match words.get((index / 64) as usize) {
        Some(word) => word >> (index % 64) & 1 == 1,
        None => false,
    }
}
