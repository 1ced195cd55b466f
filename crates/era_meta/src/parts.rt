//! Reads all that the root of an opened disk reaches into memory.

ghost use Rattle.std.specs.Prelude.{◌≡◌, ◌+◌, ◌*◌, ◌≤◌, ◌∷◌, true, false, length, IfOk};
ghost use Rattle.era_base.specs.declared.limits.TheConstants.{MOST_SETS};
ghost use Rattle.era_layout.specs.Root.{fields_of, IsValidRoot};
ghost use Rattle.era_model.specs.Marks.{no_marks};
ghost use Rattle.era_meta.specs.Areas.{HasPageLists};
ghost use Rattle.era_meta.specs.Content.{blocks_of_root};
ghost use Rattle.era_meta.specs.Damage.{HeldRoot, HeldSize, held_in, page_tests, held_tests, root_tests};
ghost use Rattle.era_meta.specs.InMemory.{IsSnapshotBeside};
ghost use Rattle.era_meta.specs.Meaning.{pages_in};
ghost use Rattle.era_meta.specs.Parts.{FitRoot, IsRoomOf, SayRoot, SaysSnapshot};
ghost use Rattle.era_meta.specs.Stored.{HasBlocks};
ghost use Rattle.era_meta.specs.Walks.{Walked};

use crate::areas::SpareLists;
use crate::finding::Finding;
use crate::live_marks::LiveMarks;
use crate::marks_reading::read_marks;
use crate::rooms::{list_room, root_room};
use crate::roots_reading::read_held_root;
use crate::snapshot::Snapshot;
use era_base::{Disk, Geometry, MOST_SETS, Memory};
use era_layout::Root;
use era_layout::laws::root_is_read_back;
use era_slots::Slots;
use std::alloc::Global;

/// As many lists of pages as the archived sets of three roots have: the committed one, the next one and the held one.
const LISTS: usize = 3 * MOST_SETS as usize;

/// The parts in memory of the metadata of an opened disk, without its slots.
#[derive(Drop)]
pub struct Parts {
    /// The newest root.
    pub root: Root,
    /// Room for the next root.
    pub next: Root,
    /// The marks that the root says.
    pub marks: LiveMarks,
    /// The snapshot that the root holds, or room for one.
    pub snapshot: Snapshot,
    /// Lists of pages that neither root has.
    pub spare: SpareLists,
}

/// Room for a snapshot of marks of this geometry.
pub(crate) fn snapshot_room(alloc: Global, geometry: &Geometry) -> Result<Snapshot, Memory>
    ensures none { IfOk result (λ snapshot. snapshot.is_held ≡ false) }
    ensures root { IfOk result (λ snapshot. IsRoomOf geometry.now.sectors
        geometry.now.block_sectors (fields_of snapshot.root)) }
    ensures marks { IfOk result (λ snapshot. snapshot.marks
        ≡ no_marks geometry.now.sectors geometry.now.block_sectors 1) }
{
    let root = root_room(alloc, geometry)?;
    let marks = LiveMarks::new(alloc, geometry)?;
    Ok(Snapshot {
        is_held: false,
        root,
        marks,
    })
}

/// Reads the snapshot of a root that holds one.
fn read_snapshot<D: Disk>(
    alloc: Global,
    slots: &mut Slots<D>,
    root: &Root,
) -> Result<Snapshot, Finding>
    requires held { root.now.held ≡ true }
    requires room { HasBlocks (fields_of root.now) (D.sectors slots.old.disk) }
    ensures walked { Walked D.Disk (HeldRoot ∷ HeldSize root.now.geometry.sectors
        root.now.geometry.block_sectors
        ∷ page_tests (held_in (D.history slots.old.disk).now.seen)) slots.old slots.new result }
    ensures beside { IfOk result (IsSnapshotBeside (fields_of root.now)) }
    ensures says { IfOk result (λ snapshot. D.tells ≡ true
        → SaysSnapshot (pages_in (D.history slots.old.disk).now.seen) (fields_of root.now)
        snapshot) }
{
    root_is_read_back();
    let held = match read_held_root(alloc, slots, root) {
        Ok(held) => held,
        Err(finding) => return Err(finding),
    };
    match read_marks(alloc, slots, &held) {
        Ok(marks) => Ok(Snapshot {
            is_held: true,
            root: held,
            marks,
        }),
        Err(finding) => Err(finding),
    }
}

/// Reads the snapshot that a root holds, or takes the room for one.
fn read_held<D: Disk>(alloc: Global, slots: &mut Slots<D>, root: &Root) -> Result<Snapshot, Finding>
    requires room { HasBlocks (fields_of root.now) (D.sectors slots.old.disk) }
    ensures walked { Walked D.Disk (held_tests (fields_of root.now)
        (held_in (D.history slots.old.disk).now.seen)) slots.old slots.new result }
    ensures beside { IfOk result (IsSnapshotBeside (fields_of root.now)) }
    ensures says { IfOk result (λ snapshot. D.tells ≡ true
        → SaysSnapshot (pages_in (D.history slots.old.disk).now.seen) (fields_of root.now)
        snapshot) }
{
    if root.held {
        return read_snapshot(alloc, slots, root);
    }
    match snapshot_room(alloc, &root.geometry) {
        Ok(snapshot) => Ok(snapshot),
        Err(_) => Err(Finding::Memory),
    }
}

/// Room for the next root, and as many lists as the archived sets of a root, of its snapshot and of the next root leave.
fn next_room(alloc: Global, root: &Root, archived: usize) -> Result<(Root, SpareLists), Memory>
    requires { archived ≤ 2 * MOST_SETS }
    ensures { IfOk result (λ room.
        HasPageLists (blocks_of_root (fields_of root.now)) (fields_of room.0) room.1
        × (archived + (length room.0.archive + length room.1) ≡ 3 * MOST_SETS)) }
{
    let next = root_room(alloc, &root.geometry)?;
    let spare = list_room(alloc, root.geometry.bit_pages(), LISTS - archived)?;
    Ok((next, spare))
}

/// Reads all that a root reaches, in the order of the tests, and takes the memory for the calls that follow.
pub(crate) fn read_parts<D: Disk>(
    alloc: Global,
    slots: &mut Slots<D>,
    root: Root,
) -> Result<Parts, Finding>
    requires valid { IsValidRoot (fields_of root) }
    requires room { HasBlocks (fields_of root) (D.sectors slots.old.disk) }
    ensures walked { Walked D.Disk (root_tests (fields_of root)
        (held_in (D.history slots.old.disk).now.seen)) slots.old slots.new result }
    ensures fit { IfOk result (FitRoot (fields_of root)) }
    ensures says { IfOk result (λ parts. D.tells ≡ true
        → SayRoot (pages_in (D.history slots.old.disk).now.seen) (fields_of root) parts) }
{
    let marks = match read_marks(alloc, slots, &root) {
        Ok(marks) => marks,
        Err(finding) => return Err(finding),
    };
    let snapshot = match read_held(alloc, slots, &root) {
        Ok(snapshot) => snapshot,
        Err(finding) => return Err(finding),
    };
    let archived = root.archive.len() + snapshot.root.archive.len();
    match next_room(alloc, &root, archived) {
        Ok((next, spare)) => Ok(Parts {
            root,
            next,
            marks,
            snapshot,
            spare,
        }),
        Err(_) => Err(Finding::Memory),
    }
}
