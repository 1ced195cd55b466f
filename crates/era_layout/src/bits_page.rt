//! Pages of a write set: 32,768 bits, from the lowest bit of the first byte on.

ghost use Rattle.std.specs.Prelude.{◌≡◌, ℕ, ◌<◌, ◌≤◌, ◌↔◌, true, length, OnOk, IsErrOf};
ghost use Rattle.std.specs.Bool.{OnTrue, OnFalse};
ghost use Rattle.era_base.specs.Bits.{bit_of_words};
ghost use Rattle.era_layout.specs.Pages.{bits_page, flag_at, HasFlagFrom, FlagsEndAt};

use crate::damage::PageError;
use crate::numbers::{write_u64s, write_zeros};

/// The bits of a page of a write set.
const BITS: u32 = 32_768;

/// Writes the page of 4,096 bytes with the bits of these words, of which there are at most 512, each from its lowest bit
/// on, and clear bits behind them. It takes no memory.
pub fn encode_bits_page(words: &[u64], into: &mut [u8])
    requires page { length into.old ≡ 4096 }
    requires words { length words.now ≤ 512 }
    ensures page { into.new ≡ bits_page words.now }
    ensures bits { (index : ℕ) → index < 32768
        → flag_at into.new index ≡ bit_of_words words.now index }
{
    let behind = write_u64s(into, 0, words);
    write_zeros(into, behind);
}

/// The bit at an index below 32,768 of a page of 4,096 bytes. It takes no memory.
pub fn bit_at(bytes: &[u8], index: u32) -> bool
    requires page { length bytes.now ≡ 4096 }
    requires index { index < 32768 }
    ensures { result ≡ flag_at bytes.now index }
{
    let byte = bytes[(index / 8) as usize];
    byte >> (index % 8) & 1 == 1
}

/// Tests a page of 4,096 bytes of a write set. Its first `bits` bits, at most 32,768, belong to blocks. `BitPastEnd` comes
/// exactly where a bit behind them is set. It takes no memory.
pub fn check_bits_page(bytes: &[u8], bits: u32) -> Result<(), PageError>
    requires page { length bytes.now ≡ 4096 }
    requires bits { bits ≤ 32768 }
    ensures ok { OnOk result (FlagsEndAt bytes.now bits) }
    ensures end { IsErrOf result PageError.BitPastEnd ↔ HasFlagFrom bytes.now bits }
    ensures entry { ¬ IsErrOf result PageError.EntryPastEnd }
    ensures era { ¬ IsErrOf result PageError.EraFuture }
{
    for index in bits..BITS {
        if bit_at(bytes, index) {
            return Err(PageError::BitPastEnd);
        }
    }
    Ok(())
}
