//! A stripe of three blocks over a disk, with a gate in which the first and the last of them are marked.

ghost use Rattle.std.specs.Prelude.{◌≡◌, ℕ, ◌+◌, ◌<◌, ◌≤◌, true, IfOk};
ghost use Rattle.era_base.specs.Calls.{Now};
ghost use Rattle.era_base.specs.declared.ids.CmdId.{CmdId as Command};
ghost use Rattle.era_gate.specs.Calls.{has_gone, has_lane};
ghost use Rattle.era_stripe.specs.Stripes.{IsAtRest};
ghost use Rattle.era_stripe_scripts.specs.Benches.{IsBench, IsBlank};

use era_base::{CmdId, Disk, Geometry, Memory};
use era_gate::{Gate, KeeperSeat, Pass};
use era_model::Event;
use era_stripe::Stripe;
use std::alloc::Global;

/// The command that marks.
const MARKING: CmdId = CmdId { lane: 0, number: 0 };

/// Asks for the mark of a block in era 1, marks it, and sets its bit.
fn mark(gate: &Gate, keeper: &mut KeeperSeat, pass: &mut Pass, block: u32)
    requires tables { (keeper.old.table ≡ gate.now.table) × (pass.old.table ≡ gate.now.table) }
    requires era { (1 ≡ keeper.old.part.state.era) × (keeper.old.part.state.switched ≡ true) }
    requires pass { (has_lane 0 pass.old.part.lanes ≡ true) × (9 < pass.old.part.budget) }
    requires block { block < gate.now.plan.blocks }
    ensures keeper { (keeper.new.table ≡ keeper.old.table)
        × (1 ≡ keeper.new.part.state.era) × (keeper.new.part.state.switched ≡ true) }
    ensures pass { (pass.new.table ≡ pass.old.table) × (has_lane 0 pass.new.part.lanes ≡ true)
        × (pass.old.part.budget ≤ pass.new.part.budget + 2) }
    ensures gone { (i : Command) → has_gone i pass.new.part.lanes ≡ has_gone i pass.old.part.lanes }
{
    let tried = Event::Tried {
        id: MARKING,
        block,
        era: 1,
    };
    gate.draw_keeper(keeper, pass, &tried);
    let marked = Event::Mark {
        id: MARKING,
        block,
        era: 1,
    };
    gate.draw_keeper(keeper, pass, &marked);
    gate.set(keeper, block);
}

/// The gate, the stripe and a pass over a blank disk of 20 sectors. The first and the last block are marked.
pub fn start<D: Disk + Drop>(alloc: Global, disk: D) -> Result<(Gate, Stripe<D>, Pass), Memory>
    requires size { D.sectors disk ≡ 20 }
    requires blank { Now D.Disk IsBlank disk }
    ensures bench { IfOk result (λ r. IsBench D.Disk 2 6 r.0 r.1 r.2) }
    ensures rest { IfOk result (λ r. IsAtRest r.1) }
{
    let Ok(geometry) = Geometry::new(20, 8) else {
        return Err(Memory);
    };
    let (gate, mut keeper, mut seats, mut pass) = Gate::make(alloc, geometry, 1, 1)?;
    let seat = seats.remove(0);
    mark(&gate, &mut keeper, &mut pass, 0);
    mark(&gate, &mut keeper, &mut pass, 2);
    let stripe = Stripe::start(disk, 0, 0, 3, geometry, seat);
    Ok((gate, stripe, pass))
}
