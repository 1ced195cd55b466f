//! The commands of a stripe, each with a room of its own.

ghost use Rattle.std.specs.Prelude.{◌≡◌, ◌+◌, ◌*◌, ◌/◌, ◌%◌, ◌<◌, true, IfOk, OnOk, length};
ghost use Rattle.era_gate.specs.Calls.{has_seen};
ghost use Rattle.era_stripe.specs.Stripes.{IsAtRest};
ghost use Rattle.era_stripe_scripts.specs.Benches.{IsBench, IsIdle, IsSpan, IsStuck, SettledTo};

use era_base::{CmdId, Disk, Memory};
use era_gate::{Gate, Pass};
use era_notes::Room;
use era_stripe::Stripe;
use std::alloc::Global;

/// How a command ended. Numbers are counts of faults.
#[derive(Clone, Copy, Debug, PartialEq, Eq)]
pub enum Answer {
    Fine,
    Cut(u64),
    Refused(u64),
    Unseen,
    PassedOver(u64),
}

/// Admits a room for so many bytes, and settles.
fn settle<D: Disk>(
    alloc: Global,
    gate: &Gate,
    stripe: &mut Stripe<D>,
    pass: &mut Pass,
    number: u32,
    payload: u32,
) -> Result<Result<(), u64>, Memory>
    requires bench { IsBench D.Disk number (3 * number) gate.now stripe.old pass.old }
    requires rest { IsAtRest stripe.old }
    requires few { number < 100 }
    ensures bench { OnOk result (IsBench D.Disk number (3 * number + 1) gate.now
        stripe.new pass.new) }
    ensures rest { OnOk result (IsAtRest stripe.new) }
    ensures settled { IfOk result (λ settled. SettledTo D.Disk payload settled stripe.new) }
{
    let room = Room::make(alloc, payload)?;
    stripe.admit(room);
    let id = CmdId { lane: 0, number };
    Ok(stripe.settle(gate, pass, id))
}

/// Enters, and looks at the bit of the block: whether it is set.
fn see<D: Disk>(
    gate: &Gate,
    stripe: &mut Stripe<D>,
    pass: &mut Pass,
    number: u32,
    block: u32,
    bytes: &[u8],
) -> bool
    requires bench { IsBench D.Disk number (3 * number + 1) gate.now stripe.old pass.old }
    requires idle { IsIdle (length bytes.now) stripe.old }
    requires rest { IsAtRest stripe.old }
    requires block { block < 3 }
    ensures bench { IsBench D.Disk number (3 * number + 1) gate.now stripe.new pass.new }
    ensures idle { IsIdle (length bytes.now) stripe.new }
    ensures inside { stripe.new.seat.part.state.inside ≡ true }
    ensures saw { result ≡ true → has_seen block stripe.new.seat.part.seen ≡ true }
{
    let _bytes = bytes;
    let id = CmdId { lane: 0, number };
    stripe.enter(gate, pass, id);
    stripe.look(gate, block)
}

/// Writes to a block that was seen.
fn put<D: Disk>(
    gate: &Gate,
    stripe: &mut Stripe<D>,
    pass: &mut Pass,
    number: u32,
    place: (u32, u32),
    bytes: &[u8],
) -> Answer
    requires bench { IsBench D.Disk number (3 * number + 1) gate.now stripe.old pass.old }
    requires idle { IsIdle (length bytes.now) stripe.old }
    requires few { number < 100 }
    requires inside { stripe.old.seat.part.state.inside ≡ true }
    requires saw { has_seen place.0 stripe.old.seat.part.seen ≡ true }
    requires span { IsSpan place.0 place.1 (length bytes.now) }
    ensures bench { IsBench D.Disk (number + 1) (3 * number + 3) gate.now stripe.new pass.new }
    ensures rest { IsAtRest stripe.new }
{
    let id = CmdId { lane: 0, number };
    match stripe.write_seen(gate, pass, id, place.0, place.1, bytes) {
        Ok(()) => Answer::Fine,
        Err(count) => Answer::Cut(count),
    }
}

/// Leaves, where the bit wasn't set.
fn leave<D: Disk>(gate: &Gate, stripe: &mut Stripe<D>, pass: &mut Pass, number: u32, bytes: &[u8])
    requires bench { IsBench D.Disk number (3 * number + 1) gate.now stripe.old pass.old }
    requires idle { IsIdle (length bytes.now) stripe.old }
    requires inside { stripe.old.seat.part.state.inside ≡ true }
    ensures bench { IsBench D.Disk (number + 1) (3 * number + 3) gate.now stripe.new pass.new }
    ensures rest { IsAtRest stripe.new }
{
    let _bytes = bytes;
    let _number = number;
    stripe.leave(gate, pass);
}

/// Refuses a write, since the cut one before it couldn't be settled.
fn refuse<D: Disk>(gate: &Gate, stripe: &mut Stripe<D>, pass: &mut Pass, number: u32, count: u64)
    requires bench { IsBench D.Disk number (3 * number + 1) gate.now stripe.old pass.old }
    requires rest { IsAtRest stripe.old }
    requires stuck { IsStuck D.Disk count stripe.old }
    requires few { number < 100 }
    ensures bench { IsBench D.Disk (number + 1) (3 * number + 3) gate.now stripe.new pass.new }
    ensures rest { IsAtRest stripe.new }
{
    let id = CmdId { lane: 0, number };
    stripe.refuse(gate, pass, id, count);
}

/// Passes a cut write over that couldn't be settled.
fn pass_over<D: Disk>(gate: &Gate, stripe: &mut Stripe<D>, pass: &mut Pass, number: u32, count: u64)
    requires bench { IsBench D.Disk number (3 * number + 1) gate.now stripe.old pass.old }
    requires rest { IsAtRest stripe.old }
    requires stuck { IsStuck D.Disk count stripe.old }
    requires few { number < 100 }
    ensures bench { IsBench D.Disk (number + 1) (3 * number + 3) gate.now stripe.new pass.new }
    ensures rest { IsAtRest stripe.new }
{
    let id = CmdId { lane: 0, number };
    stripe.pass_over(gate, pass, id, count);
}

/// A write: it settles, enters, looks and writes.
pub fn write<D: Disk>(
    alloc: Global,
    gate: &Gate,
    stripe: &mut Stripe<D>,
    pass: &mut Pass,
    number: u32,
    place: (u32, u32),
    bytes: &[u8],
) -> Result<Answer, Memory>
    requires bench { IsBench D.Disk number (3 * number) gate.now stripe.old pass.old }
    requires rest { IsAtRest stripe.old }
    requires few { number < 100 }
    requires span { IsSpan place.0 place.1 (length bytes.now) }
    ensures bench { OnOk result (IsBench D.Disk (number + 1) (3 * number + 3) gate.now
        stripe.new pass.new) }
    ensures rest { OnOk result (IsAtRest stripe.new) }
{
    let payload = bytes.len() as u32;
    match settle(alloc, gate, stripe, pass, number, payload)? {
        Ok(()) => {
            if see(gate, stripe, pass, number, place.0, bytes) {
                return Ok(put(gate, stripe, pass, number, place, bytes));
            }
            leave(gate, stripe, pass, number, bytes);
            Ok(Answer::Unseen)
        }
        Err(count) => {
            refuse(gate, stripe, pass, number, count);
            Ok(Answer::Refused(count))
        }
    }
}

/// A checkpoint's settling.
pub fn checkpoint<D: Disk>(
    alloc: Global,
    gate: &Gate,
    stripe: &mut Stripe<D>,
    pass: &mut Pass,
    number: u32,
) -> Result<Answer, Memory>
    requires bench { IsBench D.Disk number (3 * number) gate.now stripe.old pass.old }
    requires rest { IsAtRest stripe.old }
    requires few { number < 100 }
    ensures bench { OnOk result (IsBench D.Disk (number + 1) (3 * number + 3) gate.now
        stripe.new pass.new) }
    ensures rest { OnOk result (IsAtRest stripe.new) }
{
    match settle(alloc, gate, stripe, pass, number, 0)? {
        Ok(()) => Ok(Answer::Fine),
        Err(count) => {
            pass_over(gate, stripe, pass, number, count);
            Ok(Answer::PassedOver(count))
        }
    }
}

/// A read of whole sectors of one block: whether the part answered.
pub fn read<D: Disk>(
    alloc: Global,
    gate: &Gate,
    stripe: &mut Stripe<D>,
    pass: &mut Pass,
    number: u32,
    sector: u64,
    into: &mut [u8],
) -> Result<bool, Memory>
    requires bench { IsBench D.Disk number (3 * number) gate.now stripe.old pass.old }
    requires rest { IsAtRest stripe.old }
    requires few { number < 100 }
    requires span { IsSpan (sector / 8) (sector % 8) (length into.old) }
{
    let room = Room::make(alloc, into.len() as u32)?;
    stripe.admit(room);
    let id = CmdId { lane: 0, number };
    Ok(stripe.read(gate, pass, id, sector, into).is_ok())
}
