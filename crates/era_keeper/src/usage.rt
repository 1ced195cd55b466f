//! How many metadata blocks a status may tell.

ghost use Rattle.std.specs.Prelude.{◌≡◌, ◌≤◌};
ghost use Rattle.era_meta.specs.Held.{snapshot_marks};
ghost use Rattle.era_meta.specs.InMemory.{FitTogether};
ghost use Rattle.era_model.specs.Usage.{IsUsage, pages_of_marks};

use era_base::{Disk, Geometry};
use era_meta::{LiveMarks, Meta};

/// The metadata blocks that the pages of marks of an origin take.
fn pages_of(geometry: &Geometry, marks: &LiveMarks) -> u32
    requires sectors { geometry.now.sectors ≡ marks.now.sectors }
    requires block_sectors { geometry.now.block_sectors ≡ marks.now.block_sectors }
    ensures value { result ≡ pages_of_marks marks.now }
    ensures most { result ≤ 98 }
{
    marks.are_valid();
    let _blocks = geometry.blocks();
    geometry.array_pages() + geometry.bit_pages() * (1 + marks.archive().len() as u32)
}

/// The used metadata blocks that a status tells: so many as were counted, kept within what the marks and the snapshot in
/// memory can take. That changes no count that is a usage of them.
pub(crate) fn usage_within<D: Disk>(meta: &Meta<D>, counted: u32) -> u32
    requires { FitTogether D.Disk meta.now }
    ensures usage { IsUsage meta.now.marks (snapshot_marks meta.now.snapshot) result }
    ensures same { IsUsage meta.now.marks (snapshot_marks meta.now.snapshot) counted
        → result ≡ counted }
{
    let alone = 2 + pages_of(&meta.root.geometry, &meta.marks);
    if meta.snapshot.is_held {
        let least = alone + 1;
        let most = least + pages_of(&meta.root.geometry, &meta.snapshot.marks);
        counted.max(least).min(most)
    } else {
        alone
    }
}
