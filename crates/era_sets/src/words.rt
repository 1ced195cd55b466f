//! Words of 64 bits, in which a bit is found a word at a time.

ghost use Rattle.std.specs.Prelude.{◌*◌, ◌≤◌, length};
ghost use Rattle.era_base.specs.Bits.{bit_of, bit_of_words};
ghost use Rattle.era_base.specs.Runs.{IsFirstWith};

/// The lowest bit of a word that is `flag`, or 64 where none is.
fn first_of_word(word: u64, flag: bool) -> u32
    ensures { IsFirstWith (bit_of word) flag 0 64 result }
{
    if flag {
        word.trailing_zeros()
    } else {
        word.trailing_ones()
    }
}

/// The first bit at an index from `from` on that is `flag`, or the number of bits of all words where none is. It passes
/// over a word without such a bit at once.
pub fn first_bit(words: &[u64], from: usize, flag: bool) -> usize
    requires room { length words.now ≤ 67108864 }
    requires from { from ≤ 64 * length words.now }
    ensures { IsFirstWith (bit_of_words words.now) flag from (64 * length words.now) result }
{
    for at in from / 64..words.len() {
        let passed = from.saturating_sub(64 * at);
        let bit = passed + first_of_word(words[at] >> passed, flag) as usize;
        if bit < 64 {
            return 64 * at + bit;
        }
    }
    64 * words.len()
}
