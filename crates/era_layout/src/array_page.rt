//! Pages of the era array: 1,024 entries of four bytes.

ghost use Rattle.std.specs.Prelude.{◌≡◌, ℕ, ◌*◌, ◌<◌, ◌≤◌, ◌↔◌, length, slice_index, OnOk, IsErrOf};
ghost use Rattle.std.specs.Bool.{OnTrue, OnFalse};
ghost use Rattle.era_layout.specs.Pages.{array_page, entry_at, HasEntryAbove, EntriesUpTo, IsArrayPage};

use crate::damage::PageError;
use crate::numbers::{read_u32, write_u32s, write_zeros};

/// The entries of a page of the era array.
const ENTRIES: u32 = 1024;

/// Writes the page of 4,096 bytes with these entries, of which there are at most 1,024, and zeros behind them. It takes
/// no memory.
pub fn encode_array_page(eras: &[u32], into: &mut [u8])
    requires page { length into.old ≡ 4096 }
    requires eras { length eras.now ≤ 1024 }
    ensures page { into.new ≡ array_page eras.now }
    ensures entries { (index : ℕ) → index < 1024
        → entry_at into.new index ≡ slice_index eras.now index }
{
    let behind = write_u32s(into, 0, eras);
    write_zeros(into, behind);
}

/// The entry at an index below 1,024 of a page of 4,096 bytes. It takes no memory.
pub fn era_at(bytes: &[u8], index: u32) -> u32
    requires page { length bytes.now ≡ 4096 }
    requires index { index < 1024 }
    ensures { result ≡ entry_at bytes.now index }
{
    read_u32(bytes, 4 * index as usize)
}

/// Whether an entry from an index on is greater than a limit.
fn has_entry_above(bytes: &[u8], first: u32, limit: u32) -> bool
    requires { length bytes.now ≡ 4096 }
    ensures some { OnTrue result (HasEntryAbove bytes.now first limit) }
    ensures none { OnFalse result (EntriesUpTo bytes.now first limit) }
{
    for index in first..ENTRIES {
        if era_at(bytes, index) > limit {
            return true;
        }
    }
    false
}

/// Tests a page of 4,096 bytes of the era array. Its first `entries` entries, at most 1,024, belong to blocks, and none
/// may be above `limit`. `EntryPastEnd` comes exactly where an entry behind them isn't 0, and else `EraFuture` exactly
/// where an entry is above the limit. It takes no memory.
pub fn check_array_page(bytes: &[u8], entries: u32, limit: u32) -> Result<(), PageError>
    requires page { length bytes.now ≡ 4096 }
    requires entries { entries ≤ 1024 }
    ensures ok { OnOk result (IsArrayPage bytes.now entries limit) }
    ensures end { IsErrOf result PageError.EntryPastEnd ↔ HasEntryAbove bytes.now entries 0 }
    ensures future { IsErrOf result PageError.EraFuture
        ↔ (EntriesUpTo bytes.now entries 0 × HasEntryAbove bytes.now 0 limit) }
    ensures bit { ¬ IsErrOf result PageError.BitPastEnd }
{
    if has_entry_above(bytes, entries, 0) {
        return Err(PageError::EntryPastEnd);
    }
    if has_entry_above(bytes, 0, limit) {
        return Err(PageError::EraFuture);
    }
    Ok(())
}
