//! A text in memory to which bytes are given.

ghost use Rattle.std.specs.Prelude.{◌≡◌, [], ◌∷◌, ◌++◌, ℕ, ◌≤◌, Option, Some, None, IfOk, OnOk, OnErr, IsErr};
ghost use Rattle.era_base.specs.Faults.{HasCause};
ghost use Rattle.era_base.specs.Streams.{GivesTo};
ghost use Rattle.era_disks.specs.Calls.{one_more, CountsFailure};
ghost use Rattle.era_disks.specs.Streams.{given_to, sink_faults, starved_of, room_of, still_taken, next_taken, GivesWhole, GivesListed, KeepsRoom};

use crate::failing_give::FailingGive;
use era_base::{Failed, Memory, Sink};
use std::alloc::Global;

/// The bytes that were given. A give fails where it is listed, and then takes so many bytes of its piece as the list
/// says, or where memory is refused, and then takes none.
#[derive(Debug, Drop)]
pub struct TextSink {
    bytes: Vec<u8>,
    failing: Vec<FailingGive>,
    gives: u64,
    faults: u64,
    starved: u64,
}

impl TextSink {
    /// A sink that was given nothing, and of which no give fails. It takes no memory.
    pub fn new(alloc: Global) -> TextSink
        ensures given { given_to result ≡ [] }
        ensures told { ⟦<TextSink as Sink>⟧.given result ≡ Some [] }
        ensures faults { (sink_faults result ≡ 0) × (starved_of result ≡ 0) }
        ensures calls { (result.failing.items ≡ []) × (result.gives ≡ 0) }
    {
        TextSink {
            bytes: Vec::new(alloc),
            failing: Vec::new(alloc),
            gives: 0,
            faults: 0,
            starved: 0,
        }
    }

    /// A sink that was given nothing, with room for so many bytes. While what it was given fits in its room, a give
    /// fails only where it is listed.
    pub fn with_room(alloc: Global, room: usize) -> Result<TextSink, Memory>
        ensures given { IfOk result (λ sink. given_to sink ≡ []) }
        ensures told { IfOk result (λ sink. ⟦<TextSink as Sink>⟧.given sink ≡ Some []) }
        ensures room { IfOk result (λ sink. room ≤ room_of sink) }
        ensures faults { IfOk result (λ sink. (sink_faults sink ≡ 0) × (starved_of sink ≡ 0)) }
        ensures calls { IfOk result (λ sink. (sink.failing.items ≡ []) × (sink.gives ≡ 0)) }
    {
        Ok(TextSink {
            bytes: Vec::with_capacity(alloc, room)?,
            failing: Vec::new(alloc),
            gives: 0,
            faults: 0,
            starved: 0,
        })
    }

    /// From now on the give with this number fails, and takes so many bytes of its piece, or all where it has fewer.
    /// The gives are counted from 0. Of two entries for one give the first one counts.
    pub fn fail(&mut self, number: u64, taken: usize) -> Result<(), Memory>
        ensures ok { OnOk result (self.new ≡ record self.old { failing = self.new.failing }) }
        ensures listed { OnOk result (self.new.failing.items ≡ self.old.failing.items
            ++ record { number = number; taken = taken } ∷ []) }
        ensures err { OnErr result (self.new.failing.items ≡ self.old.failing.items) }
    {
        self.failing.push(FailingGive { number, taken })?;
        Ok(())
    }

    /// All the bytes that were given.
    pub fn given(&self) -> &[u8]
        ensures { result.now ≡ given_to self.now }
    {
        self.bytes.as_slice()
    }

    /// How often it was given something, or failed to take it.
    pub fn gives(&self) -> u64
        ensures { result ≡ self.now.gives }
    {
        self.gives
    }

    /// How often memory was refused.
    pub fn starved(&self) -> u64
        ensures { result ≡ starved_of self.now }
    {
        self.starved
    }

    /// Takes bytes, or none where memory is refused.
    fn take_in(&mut self, bytes: &[u8]) -> Result<(), Failed>
        ensures calls { (self.new.failing ≡ self.old.failing) × (self.new.gives ≡ self.old.gives) }
        ensures took { GivesWhole bytes.now self.old self.new result }
        ensures room { KeepsRoom bytes.now self.old self.new result }
        ensures cause { HasCause (sink_faults self.old) (sink_faults self.new) result }
        ensures faults { CountsFailure (sink_faults self.old) (sink_faults self.new) result }
    {
        match self.bytes.extend_from_slice(bytes) {
            Ok(()) => Ok(()),
            Err(_) => {
                self.starved = self.starved.saturating_add(1);
                self.faults = self.faults.saturating_add(1);
                Err(Failed)
            }
        }
    }
}

impl Sink for TextSink {
    ghost given = { λ sink. Some (given_to sink) };

    ghost faults = { sink_faults };

    fn give(&mut self, bytes: &[u8]) -> Result<(), Failed>
        ensures given { GivesTo (Some (given_to self.old)) (Some (given_to self.new))
            bytes.now result }
        ensures named { (taken : ℕ) → next_taken self.old ≡ Some taken → IsErr result
            × GivesListed taken bytes.now self.old self.new }
        ensures only { next_taken self.old ≡ None → GivesWhole bytes.now self.old self.new result }
        ensures room { next_taken self.old ≡ None → KeepsRoom bytes.now self.old self.new result }
        ensures kept { room_of self.old ≤ room_of self.new }
        ensures cause { HasCause (sink_faults self.old) (sink_faults self.new) result }
        ensures faults { CountsFailure (sink_faults self.old) (sink_faults self.new) result }
        ensures calls { (self.new.failing ≡ self.old.failing)
            × (self.new.gives ≡ one_more self.old.gives) }
    {
        let taken = find_give(self.failing.as_slice(), self.gives);
        self.gives = self.gives.saturating_add(1);
        let Some(taken) = taken else {
            return self.take_in(bytes);
        };
        let front = bytes.split_at(bytes.len().min(taken)).0;
        let Ok(()) = self.take_in(front) else {
            return Err(Failed);
        };
        self.faults = self.faults.saturating_add(1);
        Err(Failed)
    }

    fn faults(&self) -> u64 {
        self.faults
    }
}

/// How many bytes of its piece the give with this number takes, where it is one that fails.
fn find_give(failing: &[FailingGive], number: u64) -> Option<usize>
    ensures { result ≡ still_taken failing.now number }
{
    failing
        .iter()
        .find(|give| give.number == number)
        .map(|give| give.taken)
}
