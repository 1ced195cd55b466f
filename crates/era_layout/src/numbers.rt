//! Numbers in bytes, the lowest byte first. What writes works from front to back, so each call says what stands in
//! front of the offset that it answers.

ghost use Rattle.std.specs.Prelude.{◌≡◌, ◌+◌, ◌-◌, ◌*◌, ◌≤◌, ◌++◌, length, take, replicate};
ghost use Rattle.era_layout.specs.Numbers.{u32_bytes, u64_bytes, u32s_bytes, u64s_bytes, u32_at, u64_at};

/// The number in the four bytes at an offset.
#[tactic(auto, unfolding(crate::specs::Numbers::u32_at))]
pub fn read_u32(bytes: &[u8], offset: usize) -> u32
    requires { offset + 4 ≤ length bytes.now }
    ensures { result ≡ u32_at bytes.now offset }
{
    let part = &bytes[offset..offset + 4];
    u32::from_le_bytes([part[0], part[1], part[2], part[3]])
}

/// The number in the eight bytes at an offset.
#[tactic(auto, unfolding(crate::specs::Numbers::u64_at))]
pub fn read_u64(bytes: &[u8], offset: usize) -> u64
    requires { offset + 8 ≤ length bytes.now }
    ensures { result ≡ u64_at bytes.now offset }
{
    let part = &bytes[offset..offset + 8];
    u64::from_le_bytes([
        part[0], part[1], part[2], part[3], part[4], part[5], part[6], part[7],
    ])
}

/// Writes bytes at an offset, and answers the offset behind them.
pub fn write_bytes(into: &mut [u8], offset: usize, bytes: &[u8]) -> usize
    requires { offset + length bytes.now ≤ length into.old }
    ensures behind { result ≡ offset + length bytes.now }
    ensures front { take (offset + length bytes.now) into.new ≡ take offset into.old ++ bytes.now }
{
    let behind = offset + bytes.len();
    into[offset..behind].copy_from_slice(bytes);
    behind
}

/// Writes a number into four bytes at an offset, and answers the offset behind them.
#[tactic(auto, unfolding(crate::specs::Numbers::u32_bytes))]
pub fn write_u32(into: &mut [u8], offset: usize, number: u32) -> usize
    requires { offset + 4 ≤ length into.old }
    ensures behind { result ≡ offset + 4 }
    ensures front { take (offset + 4) into.new ≡ take offset into.old ++ u32_bytes number }
{
    write_bytes(into, offset, &number.to_le_bytes())
}

/// Writes a number into eight bytes at an offset, and answers the offset behind them.
#[tactic(auto, unfolding(crate::specs::Numbers::u64_bytes))]
pub fn write_u64(into: &mut [u8], offset: usize, number: u64) -> usize
    requires { offset + 8 ≤ length into.old }
    ensures behind { result ≡ offset + 8 }
    ensures front { take (offset + 8) into.new ≡ take offset into.old ++ u64_bytes number }
{
    write_bytes(into, offset, &number.to_le_bytes())
}

/// Writes numbers into four bytes each from an offset on, and answers the offset behind them.
pub fn write_u32s(into: &mut [u8], offset: usize, numbers: &[u32]) -> usize
    requires { offset + 4 * length numbers.now ≤ length into.old }
    ensures behind { result ≡ offset + 4 * length numbers.now }
    ensures front { take result into.new ≡ take offset into.old ++ u32s_bytes numbers.now }
{
    let mut behind = offset;
    for number in numbers {
        behind = write_u32(into, behind, *number);
    }
    behind
}

/// Writes numbers into eight bytes each from an offset on, and answers the offset behind them.
pub fn write_u64s(into: &mut [u8], offset: usize, numbers: &[u64]) -> usize
    requires { offset + 8 * length numbers.now ≤ length into.old }
    ensures behind { result ≡ offset + 8 * length numbers.now }
    ensures front { take result into.new ≡ take offset into.old ++ u64s_bytes numbers.now }
{
    let mut behind = offset;
    for number in numbers {
        behind = write_u64(into, behind, *number);
    }
    behind
}

/// Makes all bytes 0.
fn clear(bytes: &mut [u8])
    ensures { bytes.new ≡ replicate (length bytes.old) 0 }
{
    for byte in bytes.iter_mut() {
        *byte = 0;
    }
}

/// Writes zeros from an offset up to the end.
pub fn write_zeros(into: &mut [u8], offset: usize)
    requires { offset ≤ length into.old }
    ensures { into.new ≡ take offset into.old ++ replicate (length into.old - offset) 0 }
{
    clear(&mut into[offset..]);
}
