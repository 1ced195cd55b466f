//! Where the bit of a block stands.

ghost use Rattle.std.specs.Prelude.{◌≡◌, ◌+◌, ◌*◌, ◌/◌, ◌%◌, ◌<◌, ◌^◌};
ghost use Rattle.era_base.specs.Bits.{bit_of};

/// The word of an index in the bitmap of an era.
#[tactic(auto, using(crate::proofs::Bitmaps::times_bit))]
pub(crate) fn bitmap_word(words: usize, era: u32, index: usize) -> usize
    requires few { words < 2 ^ 32 }
    requires index { index < words }
    ensures value { result ≡ 2 + era % 2 * words + index }
    ensures within { result < 2 + 2 * words }
{
    2 + (era % 2) as usize * words + index
}

/// The word of an index in the spare bitmap of an era, which is that of the next one.
#[tactic(auto, using(crate::proofs::Bitmaps::times_bit))]
pub(crate) fn spare_word(words: usize, era: u32, index: usize) -> usize
    requires few { words < 2 ^ 32 }
    requires index { index < words }
    ensures value { result ≡ 2 + (era + 1) % 2 * words + index }
    ensures within { result < 2 + 2 * words }
{
    let parity = (era % 2 + 1) % 2;
    2 + parity as usize * words + index
}

/// Whether a bit of a word is set.
#[tactic(auto, unfolding(era_base::specs::Bits::bit_of))]
pub(crate) fn has_bit_at(word: u64, bit: u32) -> bool
    requires { bit < 64 }
    ensures { result ≡ bit_of word bit }
{
    word >> bit & 1 == 1
}
