//! What a session has.

use era_base::Geometry;
use era_gate::{Gate, Pass, StripeSeat};
use era_keeper::Keeper;
use era_stripe::Stripe;

/// A session over an origin and its metadata. Each stripe but the last has `each` blocks. The pass is that of all lanes.
/// `seats` and `parts` are empty: they have room for what is handed back at the end.
#[derive(Drop)]
pub struct Session<D> {
    pub gate: Gate,
    pub keeper: Keeper<D>,
    pub stripes: Vec<Stripe<D>>,
    pub pass: Pass,
    pub geometry: Geometry,
    pub each: u32,
    pub seats: Vec<StripeSeat>,
    pub parts: Vec<D>,
}
