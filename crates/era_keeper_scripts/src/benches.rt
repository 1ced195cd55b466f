//! A keeper of 64 blocks over a metadata disk, behind a gate with one stripe.

ghost use Rattle.std.specs.Prelude.{IfOk, IfSome};
ghost use Rattle.era_keeper_scripts.specs.Benches.{IsBench, IsOutside};

use era_base::{Disk, Geometry, Memory};
use era_gate::{Gate, Pass, StripeSeat};
use era_keeper::Keeper;
use era_meta::Meta;
use std::alloc::Global;

/// A gate with its stripe's seat, the keeper, and a pass.
#[derive(Drop)]
pub struct Bench<D> {
    pub gate: Gate,
    pub stripe: StripeSeat,
    pub keeper: Keeper<D>,
    pub pass: Pass,
}

/// The bench over a disk that is opened for an origin of 512 sectors in blocks of 8; none where that is refused.
pub fn start<D: Disk + Drop>(alloc: Global, disk: D) -> Result<Option<Bench<D>>, Memory>
    ensures bench { IfOk result (λ made. IfSome made (λ bench. IsBench D.Disk 0 bench.gate
        bench.keeper bench.pass)) }
    ensures outside { IfOk result (λ made. IfSome made (λ bench. IsOutside bench.gate
        bench.stripe)) }
{
    let Ok(asked) = Geometry::new(512, 8) else {
        return Ok(None);
    };
    let Ok(meta) = Meta::start(alloc, disk, asked) else {
        return Ok(None);
    };
    let (gate, seat, mut stripes, pass) = Gate::make(alloc, asked, meta.era(), 1)?;
    let keeper = Keeper::start(meta, seat);
    let stripe = stripes.remove(0);
    Ok(Some(Bench {
        gate,
        stripe,
        keeper,
        pass,
    }))
}
