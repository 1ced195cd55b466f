//! The gate on one thread, where a bit has to be seen once it is set, and the era has to move; and on two threads.

ghost use Rattle.std.specs.Prelude.{◌≡◌, ℕ, ◌+◌, ◌<◌, ◌≤◌, ◌^◌, ◌||◌, true, false, None, Some, IfSome, IfOk, All, length, [], ◌∷◌};
ghost use Rattle.era_base.specs.declared.ids.CmdId.{CmdId as Command};
ghost use Rattle.era_gate.specs.Acts.{found_of, flights};
ghost use Rattle.era_gate.specs.Calls.{has_lane, has_gone};
ghost use Rattle.era_gate_scripts.specs.Rows.{IsNew, IsUsed, MayGoRounds, MayIssue, WentRounds};
ghost use Rattle.era_model.specs.Events.{drawn_by};
ghost use Rattle.era_model.specs.Writes.{is_writing};

use era_base::{Bytes, CmdId, Geometry, Memory};
use era_gate::{Gate, KeeperSeat, Pass, Rolled, StripeSeat};
use era_model::Event;
use std::alloc::Global;
use std::test::*;
use std::thread::{Threads, join};

/// The command of the row.
const ID: CmdId = CmdId { lane: 0, number: 0 };

/// Asks for the mark of block 0, and marks it: the two places.
fn mark(gate: &Gate, keeper: &mut KeeperSeat, pass: &mut Pass, era: u32) -> (u64, u64)
    requires tables { (keeper.old.table ≡ gate.now.table) × (pass.old.table ≡ gate.now.table) }
    requires era { (era ≡ keeper.old.part.state.era) × (keeper.old.part.state.switched ≡ true) }
    requires pass { (has_lane 0 pass.old.part.lanes ≡ true) × (9 < pass.old.part.budget) }
    requires block { 0 < gate.now.plan.blocks }
    ensures keeper { (keeper.new.table ≡ keeper.old.table)
        × (keeper.new.part.state.era ≡ keeper.old.part.state.era)
        × (keeper.new.part.state.switched ≡ true) }
    ensures pass { IsUsed 2 pass.old pass.new }
    ensures gone { (i : Command) → has_gone i pass.new.part.lanes ≡ has_gone i pass.old.part.lanes }
{
    let tried = Event::Tried {
        id: ID,
        block: 0,
        era,
    };
    let first = gate.draw_keeper(keeper, pass, &tried);
    let marked = Event::Mark {
        id: ID,
        block: 0,
        era,
    };
    let second = gate.draw_keeper(keeper, pass, &marked);
    gate.set(keeper, 0);
    (first, second)
}

/// Clears the spare bitmap, and exchanges the word.
fn roll(gate: &Gate, keeper: &mut KeeperSeat, pass: &mut Pass) -> Rolled
    requires tables { (keeper.old.table ≡ gate.now.table) × (pass.old.table ≡ gate.now.table) }
    requires switched { keeper.old.part.state.switched ≡ true }
    requires last { keeper.old.part.state.era + 1 < 2 ^ 32 }
    ensures keeper { keeper.new.table ≡ keeper.old.table }
    ensures pass { pass.new ≡ pass.old }
    ensures moved { (era : ℕ) → result ≡ Rolled.Moved era
        → (keeper.new.part.state.era ≡ era) × (keeper.new.part.state.switched ≡ false) }
    ensures kept { (n : ℕ) → result ≡ Rolled.Kept n
        → (found_of keeper.new.part.state.pending ≡ Some n)
        × (keeper.new.part.state.switched ≡ true)
        × (keeper.new.part.state.era ≡ keeper.old.part.state.era) }
{
    gate.clear_spare(keeper);
    gate.roll(keeper, pass)
}

/// Issues a write to block 0, whose bit has to be seen.
fn issue(gate: &Gate, seat: &mut StripeSeat, pass: &mut Pass, write: &Event) -> Option<u64>
    requires { MayIssue gate.now seat.old pass.old write.now }
    ensures seat { (seat.new.table ≡ seat.old.table) × (seat.new.part.state.inside ≡ true) }
    ensures pass { IsUsed 1 pass.old pass.new }
    ensures flight { IfSome result (λ place.
        is_writing (flights seat.new.part.state.flight) (drawn_by write.now) ≡ true) }
{
    if !gate.look(seat, 0) {
        return None;
    }
    Some(gate.draw_stripe(seat, pass, write))
}

/// Finishes the write, and leaves: the place.
fn finish(gate: &Gate, seat: &mut StripeSeat, pass: &mut Pass) -> u64
    requires tables { (seat.old.table ≡ gate.now.table) × (pass.old.table ≡ gate.now.table) }
    requires seat { (seat.old.part.state.inside ≡ true)
        × (is_writing (flights seat.old.part.state.flight) (record { lane = 0; number = 0 })
        ≡ true) }
    requires pass { (has_lane 0 pass.old.part.lanes ≡ true) × (0 < pass.old.part.budget) }
    ensures seat { (seat.new.table ≡ seat.old.table) × (seat.new.part.state.inside ≡ false) }
    ensures pass { IsUsed 1 pass.old pass.new }
{
    let done = Event::Done { id: ID };
    let place = gate.draw_stripe(seat, pass, &done);
    gate.leave(seat, pass);
    place
}

/// What the row of the gate has to tell up to its refused switch: the era, whether the bit was seen before and after it
/// was set, the places of the request and the mark, and that of the write.
fn begin(
    gate: &Gate,
    keeper: &mut KeeperSeat,
    seat: &mut StripeSeat,
    pass: &mut Pass,
    bytes: Bytes,
) -> (u32, bool, (u64, u64), Option<u64>)
    requires { IsNew gate.now keeper.old seat.old pass.old }
    ensures keeper { (keeper.new.table ≡ keeper.old.table)
        × (keeper.new.part.state.era ≡ 1) × (keeper.new.part.state.switched ≡ true) }
    ensures seat { (seat.new.table ≡ seat.old.table) × (seat.new.part.state.inside ≡ true) }
    ensures pass { IsUsed 3 pass.old pass.new }
    ensures flight { IfSome result.3 (λ place. is_writing (flights seat.new.part.state.flight)
        (record { lane = 0; number = 0 }) ≡ true) }
{
    let era = gate.enter(seat, pass, ID);
    let before = gate.look(seat, 0);
    let places = mark(gate, keeper, pass, 1);
    let write = Event::Go {
        id: ID,
        block: 0,
        era,
        first: 0,
        bytes,
    };
    let place = issue(gate, seat, pass, &write);
    (era, before, places, place)
}

/// The gate for the rows: 64 blocks, era 1, two stripes.
fn small_gate(alloc: Global) -> Result<(Gate, KeeperSeat, (StripeSeat, StripeSeat), Pass), Memory>
    ensures one { IfOk result (λ r. IsNew r.0 r.1 r.2.0 r.3) }
    ensures two { IfOk result (λ r. (r.2.1.table ≡ r.0.table)
        × (r.2.1.part.state.inside ≡ false) × (r.2.1.part.state.flight ≡ None)) }
{
    let Ok(geometry) = Geometry::new(512, 8) else {
        return Err(Memory);
    };
    let (gate, keeper, mut seats, pass) = Gate::make(alloc, geometry, 1, 2)?;
    let two = seats.remove(1);
    let one = seats.remove(0);
    Ok((gate, keeper, (one, two), pass))
}

/// Enters, draws a read and leaves.
fn round(gate: &Gate, alloc: Global, seat: &mut StripeSeat, pass: &mut Pass, lane: u32)
    requires tables { (seat.old.table ≡ gate.now.table) × (pass.old.table ≡ gate.now.table) }
    requires seat { (seat.old.part.state.inside ≡ false)
        × (seat.old.part.state.flight ≡ None) }
    requires pass { (has_lane lane pass.old.part.lanes ≡ true) × (0 < pass.old.part.budget) }
    ensures tables { (seat.new.table ≡ gate.now.table) × (pass.new.table ≡ gate.now.table) }
    ensures seat { (seat.new.part.state.inside ≡ false)
        × (seat.new.part.state.flight ≡ None) }
    ensures budget { pass.new.part.budget + 1 ≡ pass.old.part.budget }
    ensures lanes { (l : ℕ)
        → has_lane l pass.new.part.lanes ≡ has_lane l pass.old.part.lanes }
{
    let id = CmdId { lane, number: 0 };
    gate.enter(seat, pass, id);
    let read = Event::Read {
        id,
        sector: 0,
        bytes: Bytes::new(alloc),
    };
    gate.draw_stripe(seat, pass, &read);
    gate.leave(seat, pass);
}

/// Goes 1,000 rounds with a lane.
fn rounds(gate: &Gate, alloc: Global, pair: (StripeSeat, Pass), lane: u32) -> (StripeSeat, Pass)
    requires { MayGoRounds gate.now.table pair lane }
    ensures { WentRounds gate.now.table pair result }
{
    let (mut seat, mut pass) = pair;
    for _number in 0..1000u32 {
        round(gate, alloc, &mut seat, &mut pass, lane);
    }
    (seat, pass)
}

/// Cuts a pass off that has lane 1, and 1,000 draws.
fn halves(gate: &Gate, pass: &mut Pass) -> Pass
    requires table { pass.old.table ≡ gate.now.table }
    requires budget { 2000 ≤ pass.old.part.budget }
    requires lanes { (l : ℕ) → l < 65 → has_lane l pass.old.part.lanes ≡ true }
    ensures tables { (pass.new.table ≡ gate.now.table) × (result.table ≡ gate.now.table) }
    ensures sides { (has_lane 0 pass.new.part.lanes ≡ true)
        × (has_lane 1 result.part.lanes ≡ true) }
    ensures budgets { (1000 ≤ pass.new.part.budget) × (1000 ≤ result.part.budget) }
    ensures lanes { (l : ℕ) → has_lane l pass.old.part.lanes
        ≡ (has_lane l pass.new.part.lanes || has_lane l result.part.lanes) }
{
    gate.split_pass(pass, 1, 1000)
}

/// Goes the rounds of both stripes on two threads.
fn both<R: Threads + Sync>(
    rt: &R,
    gate: &Gate,
    alloc: Global,
    one: (StripeSeat, Pass),
    two: (StripeSeat, Pass),
) -> ((StripeSeat, Pass), (StripeSeat, Pass))
    requires one { MayGoRounds gate.now.table one 0 }
    requires two { MayGoRounds gate.now.table two 1 }
    ensures one { WentRounds gate.now.table one result.0 }
    ensures two { WentRounds gate.now.table two result.1 }
{
    join(
        rt,
        || -> (StripeSeat, Pass)
            requires { MayGoRounds gate.now.table one 0 }
            ensures { WentRounds gate.entry.now.table one result }
        { rounds(gate, alloc, one, 0) },
        || -> (StripeSeat, Pass)
            requires { MayGoRounds gate.now.table two 1 }
            ensures { WentRounds gate.entry.now.table two result }
        { rounds(gate, alloc, two, 1) },
    )
}

/// Joins what was cut, after the rounds.
fn rejoin(gate: &Gate, pass: &mut Pass, other: Pass)
    requires tables { (pass.old.table ≡ gate.now.table) × (other.table ≡ gate.now.table) }
    ensures table { pass.new.table ≡ gate.now.table }
    ensures lanes { (l : ℕ) → has_lane l pass.new.part.lanes
        ≡ (has_lane l pass.old.part.lanes || has_lane l other.part.lanes) }
{
    gate.join_pass(pass, other);
}

/// Ends the gate with its two stripes: how many places were drawn.
fn end(
    gate: Gate,
    alloc: Global,
    keeper: KeeperSeat,
    seats: (StripeSeat, StripeSeat),
    pass: Pass,
) -> Result<u64, Memory>
    requires tables { (keeper.table ≡ gate.table) × (seats.0.table ≡ gate.table)
        × (seats.1.table ≡ gate.table) × (pass.table ≡ gate.table) }
    requires stripes { gate.plan.stripes ≡ 2 }
    requires lanes { (l : ℕ) → l < 65 → has_lane l pass.part.lanes ≡ true }
{
    let stripes = vec![in alloc; seats.0, seats.1]?;
    Ok(gate.close(keeper, stripes, pass))
}

#[test]
fn row_on_one_thread(rt: HostRuntime) -> Result<(), Fail> {
    let alloc = rt.alloc();
    let (gate, mut keeper, (mut seat, other), mut pass) = small_gate(alloc)?;
    let bytes = Bytes::from_slice(alloc, &[7; 512])?;
    let (era, before, marked, issued) = begin(&gate, &mut keeper, &mut seat, &mut pass, bytes);
    assert!(rt; era == 1 && !before && marked == (0, 1) && issued == Some(2));
    let refused = roll(&gate, &mut keeper, &mut pass);
    assert!(rt; refused == Rolled::Kept(1));
    let kept = Event::Kept { id: ID, inside: 1 };
    assert!(rt; gate.draw_keeper(&mut keeper, &mut pass, &kept) == 3);
    assert!(rt; finish(&gate, &mut seat, &mut pass) == 4);
    let moved = roll(&gate, &mut keeper, &mut pass);
    assert!(rt; moved == Rolled::Moved(2));
    let switched = Event::Roll { id: ID, era: 2 };
    assert!(rt; gate.draw_keeper(&mut keeper, &mut pass, &switched) == 5);
    assert!(rt; end(gate, alloc, keeper, (seat, other), pass)? == 6);
    Ok(())
}

#[test]
fn row_on_two_threads(rt: HostRuntime) -> Result<(), Fail> {
    let alloc = rt.alloc();
    let (gate, keeper, seats, mut pass) = small_gate(alloc)?;
    let other = halves(&gate, &mut pass);
    let (one, two) = both(&rt, &gate, alloc, (seats.0, pass), (seats.1, other));
    let mut pass = one.1;
    rejoin(&gate, &mut pass, two.1);
    assert!(rt; end(gate, alloc, keeper, (one.0, two.0), pass)? == 2000);
    Ok(())
}
