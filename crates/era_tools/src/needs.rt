//! The command that tells how many metadata blocks an origin needs.

ghost use Rattle.std.specs.Prelude.{◌≡◌};
ghost use Rattle.era_tools.specs.Needs.{TellsNeed};
ghost use Rattle.era_tools.specs.Printing.{HasSinkCause};

use crate::printing::print_number;
use crate::refusal::Refusal;
use crate::refusing::refuse;
use crate::status::Status;
use era_base::{Geometry, Sink};

/// Tells how many metadata blocks of 4,096 bytes an origin of `sectors` sectors in blocks of `block_sectors` sectors
/// needs, or why these are no geometry. It takes no memory.
pub fn need<K: Sink>(sectors: u64, block_sectors: u64, sink: &mut K) -> Status
    ensures told { TellsNeed sectors block_sectors (K.given sink.old) (K.given sink.new) result }
    ensures sink { HasSinkCause (K.faults sink.old) (K.faults sink.new) result }
{
    match Geometry::new(sectors, block_sectors) {
        Ok(geometry) => print_number(sink, b"need ", u64::from(geometry.need()), Status::Done),
        Err(error) => refuse(
            sink,
            Refusal::NoGeometry {
                error,
                size: block_sectors,
            },
        ),
    }
}
