//! The buffers of a command.

ghost use Rattle.std.specs.Prelude.{◌≡◌, Some, length, vec_len};
ghost use Rattle.era_notes.specs.Rooms.{HoldBytes};

use era_base::Bytes;

/// A buffer for the payload of a command, and one of the same length for what is read back of its write later.
#[derive(Drop)]
pub struct Buffers {
    pub payload: Vec<u8>,
    pub spare: Vec<u8>,
}

impl Buffers {
    /// These bytes in the one buffer, and the other one with their length. It takes no memory.
    pub fn fill(self, bytes: &[u8]) -> (Bytes, Vec<u8>)
        requires { HoldBytes (length bytes.now) (Some self) }
        ensures bytes { result.0 ≡ bytes.now }
        ensures spare { vec_len result.1 ≡ length bytes.now }
    {
        let Buffers {
            mut payload,
            mut spare,
        } = self;
        payload.truncate(bytes.len());
        payload.copy_from_slice(bytes);
        spare.truncate(bytes.len());
        (Bytes::from_vec(payload), spare)
    }
}
