//! Where bytes come from and where they go.

ghost use Rattle.std.specs.Prelude.{◌≡◌, ◌≤◌, ℕ, List, Option, length, IfOk};
ghost use Rattle.era_base.specs.Faults.{HasCause};
ghost use Rattle.era_base.specs.Streams.{TakesFrom, GivesTo};

use crate::faults::Failed;

/// Bytes to be read, once each and in order.
pub trait Source {
    /// The bytes that are left, where the source tells them.
    ghost left: { Self → Option (List ℕ) };

    /// How often the source has failed.
    ghost faults: { Self → ℕ };

    /// Takes the next bytes: at least one, or none exactly at the end of the input or where `into` is empty.
    /// After a failure the bytes that are left are as before.
    fn take(&mut self, into: &mut [u8]) -> Result<usize, Failed>
        ensures fits { IfOk result (λ count. count ≤ length into.old) }
        ensures taken { TakesFrom (left self.old) (left self.new) into.new result }
        ensures cause { HasCause (faults self.old) (faults self.new) result };

    /// How often the source has failed, up to the greatest value of a `u64`.
    fn faults(&self) -> u64
        ensures { result ≡ faults self.now };
}

/// Where bytes are given, in order.
pub trait Sink {
    /// The bytes that were given, where the sink tells them.
    ghost given: { Self → Option (List ℕ) };

    /// How often the sink has failed.
    ghost faults: { Self → ℕ };

    /// Gives all the bytes, or fails after a front of them.
    fn give(&mut self, bytes: &[u8]) -> Result<(), Failed>
        ensures given { GivesTo (given self.old) (given self.new) bytes.now result }
        ensures cause { HasCause (faults self.old) (faults self.new) result };

    /// How often the sink has failed, up to the greatest value of a `u64`.
    fn faults(&self) -> u64
        ensures { result ≡ faults self.now };
}
