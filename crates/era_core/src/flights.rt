//! What the machine asks of the writes in flight.

ghost use Rattle.std.specs.Prelude.{◌≡◌, ◌==◌, ◌↔◌, [], IsTrue, length, reverse};
ghost use Rattle.era_core.specs.Present.{HaveStripes};
ghost use Rattle.era_model.specs.History.{stripe_now};
ghost use Rattle.era_model.specs.Writes.{bytes_of, is_cut, is_cut_at, is_writing, is_written_at, some_block, write_of, writes_byte};

use crate::present::stripe_of;
use era_base::CmdId;
use era_model::{FlightWrite, Happening, find_write, same_command};

/// Whether the command's write is among them, and isn't cut.
pub fn is_under_way(writes: &[FlightWrite], id: CmdId) -> bool
    ensures { result ≡ is_writing writes.now id }
{
    for write in writes {
        if same_command(write.id, id) && !write.cut {
            return true;
        }
    }
    false
}

/// Whether the command's write is among them, and is cut.
pub fn is_cut_off(writes: &[FlightWrite], id: CmdId) -> bool
    ensures { result ≡ is_cut writes.now id }
{
    for write in writes {
        if same_command(write.id, id) && write.cut {
            return true;
        }
    }
    false
}

/// Whether one of them is of the stripe.
pub fn is_stripe_writing(h: &[Happening], writes: &[FlightWrite], stripe: u32) -> bool
    requires { HaveStripes (reverse h.now) }
    ensures { result ≡ some_block writes.now (λ block. stripe_now (reverse h.now) block == stripe) }
{
    for write in writes {
        if stripe_of(h, write.block) == stripe {
            return true;
        }
    }
    false
}

/// How many bytes the command wrote, 0 where it has no write among them.
pub fn written_len(writes: &[FlightWrite], id: CmdId) -> usize
    ensures { result ≡ length (bytes_of (write_of writes.now id)) }
{
    match find_write(writes, id) {
        Some(write) => write.bytes.len(),
        None => 0,
    }
}

/// Whether a byte of the block lies in the range of the write.
fn is_byte_of(write: &FlightWrite, block: u32, offset: u64) -> bool
    ensures { result ≡ writes_byte write.now block offset }
{
    let start = u64::from(write.first) * 512;
    write.block == block && start <= offset && offset - start < write.bytes.len() as u64
}

/// Whether a byte of the block lies in the range of one of them.
pub fn is_byte_written(writes: &[FlightWrite], block: u32, offset: u64) -> bool
    ensures { result ≡ is_written_at writes.now block offset }
{
    for write in writes {
        if is_byte_of(write, block, offset) {
            return true;
        }
    }
    false
}

/// Whether a byte of the block lies in the range of one that is cut.
pub fn is_byte_cut(writes: &[FlightWrite], block: u32, offset: u64) -> bool
    ensures { result ≡ is_cut_at writes.now block offset }
{
    for write in writes {
        if write.cut && is_byte_of(write, block, offset) {
            return true;
        }
    }
    false
}
