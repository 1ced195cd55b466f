//! A text in memory that is read once from its beginning to its end.

ghost use Rattle.std.specs.Prelude.{◌≤◌, length};

use crate::call_list::CallList;
use era_base::{Bytes, Failed, Memory, Source};
use std::alloc::Global;

/// Bytes in memory, of which the first `taken` ones were taken. A take fails exactly where it is listed.
#[derive(Debug, Drop)]
pub struct TextSource {
    bytes: Bytes,
    taken: usize,
    takes: CallList,
    faults: u64,
    ghost within: { taken ≤ length bytes },
}

impl TextSource {
    ghost use Rattle.std.specs.Prelude.{◌≡◌, Some, IfOk, OnOk, OnErr};
    ghost use Rattle.era_disks.specs.Calls.{no_calls, also_failing};
    ghost use Rattle.era_disks.specs.Streams.{left_in, source_faults};

    /// A source that has all the bytes left, and of which no take fails.
    pub fn new(alloc: Global, bytes: &[u8]) -> Result<TextSource, Memory>
        ensures all { IfOk result (λ source. left_in source ≡ bytes.now) }
        ensures told { IfOk result (λ source. ⟦<TextSource as Source>⟧.left source
            ≡ Some bytes.now) }
        ensures faults { IfOk result (λ source. source_faults source ≡ 0) }
        ensures calls { IfOk result (λ source. source.takes ≡ no_calls) }
    {
        Ok(TextSource {
            bytes: Bytes::from_slice(alloc, bytes)?,
            taken: 0,
            takes: CallList::new(alloc),
            faults: 0,
        })
    }

    /// From now on the take with this number fails. The takes are counted from 0.
    pub fn fail(&mut self, number: u64) -> Result<(), Memory>
        ensures ok { OnOk result (self.new
            ≡ record self.old { takes = also_failing number self.old.takes }) }
        ensures err { OnErr result (self.new ≡ self.old) }
    {
        self.takes.fail(number)
    }
}

impl Source for TextSource {
    ghost use Rattle.std.specs.Prelude.{◌≡◌, ◌↔◌, Some, IfOk, IsErr};
    ghost use Rattle.era_base.specs.Faults.{HasCause};
    ghost use Rattle.era_base.specs.Streams.{TakesFrom};
    ghost use Rattle.era_disks.specs.Calls.{NextFails, one_begun, CountsFailure};
    ghost use Rattle.era_disks.specs.Streams.{left_in, source_faults};

    ghost left = { λ source. Some (left_in source) };

    ghost faults = { source_faults };

    fn take(&mut self, into: &mut [u8]) -> Result<usize, Failed>
        ensures fits { IfOk result (λ count. count ≤ length into.old) }
        ensures taken { TakesFrom (Some (left_in self.old)) (Some (left_in self.new))
            into.new result }
        ensures fails { IsErr result ↔ NextFails self.old.takes }
        ensures cause { HasCause (source_faults self.old) (source_faults self.new) result }
        ensures faults { CountsFailure (source_faults self.old) (source_faults self.new) result }
        ensures calls { self.new.takes ≡ one_begun self.old.takes }
    {
        if self.takes.begin() {
            self.faults = self.faults.saturating_add(1);
            return Err(Failed);
        }
        let rest = self.bytes.as_slice().split_at(self.taken).1;
        let count = rest.len().min(into.len());
        into[..count].copy_from_slice(rest.split_at(count).0);
        self.taken += count;
        Ok(count)
    }

    fn faults(&self) -> u64 {
        self.faults
    }
}
