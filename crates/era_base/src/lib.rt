//! What eractl stands on: the geometry of an origin, names and small lists, and the traits of the outside.
#![tactic(auto)]

mod bay;
mod bay_error;
mod bits;
mod bytes;
mod disk;
mod faults;
mod geometry;
mod ids;
mod items;
pub mod laws;
mod limits;
mod pace;
mod run_source;
mod runs;
mod streams;
mod synced;
mod trail;

pub use bay::Bay;
pub use bay_error::BayError;
pub use bits::has_bit;
pub use bytes::{Bytes, Name};
pub use disk::Disk;
pub use faults::{Failed, Memory};
pub use geometry::{GeomError, Geometry};
pub use ids::CmdId;
pub use items::{Items, ReservedList};
pub use limits::{LAST_ERA, MOST_BLOCKS, MOST_COMMANDS, MOST_SETS, MOST_STRIPES};
pub use pace::{Pace, Point};
pub use run_source::RunSource;
pub use runs::Runs;
pub use streams::{Sink, Source};
pub use synced::write_synced;
pub use trail::Trail;
