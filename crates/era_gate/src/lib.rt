//! The gate: eras, writers and the order of events under the few words that threads share.
#![tactic(auto)]

mod about;
mod board;
mod close;
pub mod example_laws;
mod gate;
pub mod invariant;
pub mod laws;
mod make;
mod parts;
pub mod pass_laws;
mod passes;
mod plan;
mod plays;
mod rolled;
mod seats;
mod shows;
pub mod state_laws;
mod states;
mod stays;
mod steps;
mod words;

pub use gate::Gate;
pub use parts::{KeeperPart, LanePart, PassPart, StripePart, View};
pub use plan::Plan;
pub use rolled::Rolled;
pub use seats::{KeeperSeat, Pass, StripeSeat};
pub use states::{KeeperState, StripeState};
pub use stays::{Miss, Receipt, Stay, Told};
