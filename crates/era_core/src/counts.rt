//! Counts of faults that the session told.

ghost use Rattle.std.specs.Prelude.{◌≡◌, ◌↔◌, IsTrue, List, ◌∷◌, reverse};
ghost use Rattle.era_core.specs.Present.{HaveStripes, disk_of};
ghost use Rattle.era_model.specs.Counts.{CountAscends, PartCountAscends, count_of_fault, fault_of, last_count, part_fault};
ghost use Rattle.era_base.specs.declared.ids.CmdId.{CmdId};
ghost use Rattle.era_model.specs.declared.event.Event.TheVariants.{Refused};
ghost use Rattle.era_model.specs.declared.event.Kind.{Kind};
ghost use Rattle.era_model.specs.declared.history.Happening.{Happening};

use crate::disk::FailedDisk;
use crate::present::written_stripe_of;
use era_model::{Event, Happening, Why};

/// The last count of the disk after a happening, where `before` is that of the earlier ones.
fn follow_count(
    before: Option<u64>,
    earlier: &[Happening],
    happening: &Happening,
    disk: FailedDisk,
) -> Option<u64>
    requires { HaveStripes (reverse earlier.now) }
    ensures { before ≡ last_count (reverse earlier.now) (disk_of disk)
        → result ≡ last_count (happening.now ∷ reverse earlier.now) (disk_of disk) }
{
    match happening {
        Happening::Happened(event) => count_of_event(before, earlier, event, disk),
        _ => None,
    }
}

/// The count that the event tells of the disk, if it tells one, else the one before.
fn count_of_event(
    before: Option<u64>,
    earlier: &[Happening],
    event: &Event,
    disk: FailedDisk,
) -> Option<u64>
    requires { HaveStripes (reverse earlier.now) }
    ensures { result
        ≡ count_of_fault (disk_of disk) (fault_of (reverse earlier.now) event.now) before }
{
    match event {
        Event::Cut { id, faults } => count_of_part(
            before,
            written_stripe_of(earlier, *id),
            *faults,
            disk,
        ),
        Event::Unsettled { by: _, cut, faults } => count_of_part(
            before,
            written_stripe_of(earlier, *cut),
            *faults,
            disk,
        ),
        Event::Refused {
            id: _,
            kind: _,
            why,
        } => count_of_refusal(before, *why, disk),
        _ => before,
    }
}

/// The count that the refusal tells of the disk, if it tells one, else the one before.
fn count_of_refusal(before: Option<u64>, why: Why, disk: FailedDisk) -> Option<u64>
    ensures { (h : List Happening) (id : CmdId) (kind : Kind)
        → result ≡ count_of_fault (disk_of disk) (fault_of h (Refused id kind why)) before }
{
    match why {
        Why::DataFault { stripe, count } => count_of_part(before, Some(stripe), count, disk),
        Why::MetaFault(count) => match disk {
            FailedDisk::Metadata => Some(count),
            FailedDisk::Part(_) => before,
        },
        _ => before,
    }
}

/// The count where it is of the disk's stripe, else the one before.
fn count_of_part(
    before: Option<u64>,
    stripe: Option<u32>,
    count: u64,
    disk: FailedDisk,
) -> Option<u64>
    ensures { result ≡ count_of_fault (disk_of disk) (part_fault count stripe) before }
{
    match stripe {
        Some(stripe) => match disk {
            FailedDisk::Metadata => before,
            FailedDisk::Part(other) => if stripe == other { Some(count) } else { before },
        },
        None => before,
    }
}

/// The last count of the disk that the session told, or `None`.
fn last_count_of(h: &[Happening], disk: FailedDisk) -> Option<u64>
    requires { HaveStripes (reverse h.now) }
    ensures { result ≡ last_count (reverse h.now) (disk_of disk) }
{
    let mut found = None;
    for (index, happening) in h.iter().enumerate() {
        found = follow_count(found, h.split_at(index).0, happening, disk);
    }
    found
}

/// Whether the count of the disk is above the last one that the session told.
pub fn count_ascends(h: &[Happening], disk: FailedDisk, count: u64) -> bool
    requires { HaveStripes (reverse h.now) }
    ensures { IsTrue result ↔ CountAscends (reverse h.now) (disk_of disk) count }
{
    match last_count_of(h, disk) {
        Some(before) => before.saturating_add(1) <= count,
        None => true,
    }
}

/// Whether the count of the part, where it is known, is above the last one that the session told.
pub fn part_count_ascends(h: &[Happening], stripe: Option<u32>, count: u64) -> bool
    requires { HaveStripes (reverse h.now) }
    ensures { IsTrue result ↔ PartCountAscends (reverse h.now) stripe count }
{
    match stripe {
        Some(stripe) => count_ascends(h, FailedDisk::Part(stripe), count),
        None => false,
    }
}
