//! Roots from bytes, with the first damage where the bytes are none.

ghost use Rattle.std.specs.Prelude.{◌≡◌, ◌↔◌, ◌<◌, ◌≤◌, ℕ, List, [], ◌∷◌, length, true, IsTrue, IfOk, IfErr, IfSome, MatchResult, MatchOption};
ghost use Rattle.era_layout.specs.Damage.{Passes};
ghost use Rattle.era_layout.specs.Root.{fields_of, root_bytes};
ghost use Rattle.era_slots.specs.Opening.{IsOther};
ghost use Rattle.era_slots.specs.Slot.{other, body_of, SlotIsOpen};
ghost use Rattle.era_meta.specs.Damage.{SlotRoot, HeldRoot, HeldSize, IsRootDamage, held_body};
ghost use Rattle.era_meta.specs.Meaning.{IsRootBody};
ghost use Rattle.era_meta.specs.Reading.{IsRootOf, HasRoots, HasHeldRoot, IsHeldBy};
ghost use Rattle.era_meta.specs.Walks.{Walked, IsDamageOrMemory, IsNoFault, IsRootFinding};

use crate::finding::Finding;
use era_base::{Bytes, Disk, Geometry};
use era_layout::laws::{root_is_read_back, undamaged_bytes_are_a_root};
use era_layout::{DamageKind, Root, RootError, check_root, decode_held_root, decode_root};
use era_slots::Slots;
use std::alloc::Global;

/// The bytes in front of a root in its block.
const FRONT: usize = 520;

/// The block of the held root.
const HELD: u32 = 2;

/// What is found where a root's bytes in a block are refused so.
fn root_finding(error: RootError, block: u32) -> Finding
    ensures { IsRootFinding block error result }
{
    match DamageKind::of_root(error) {
        Some(kind) => Finding::Damage { kind, block },
        None => Finding::Memory,
    }
}

/// The root that the 3,576 bytes of a slot's body are.
fn decode_slot(alloc: Global, body: &[u8], slot: u32) -> Result<Root, Finding>
    requires { length body.now ≡ 3576 }
    ensures { MatchResult result (IsRootOf body.now)
        (IsDamageOrMemory slot (IsRootDamage (Passes body.now))) }
{
    match decode_root(alloc, body) {
        Ok(root) => Ok(root),
        Err(error) => Err(root_finding(error, slot)),
    }
}

/// Whether 3,576 bytes of a slot's body are a root.
fn check_slot(body: &[u8], slot: u32) -> Result<(), Finding>
    requires { length body.now ≡ 3576 }
    ensures { MatchResult result (λ _. IsRootBody body.now)
        (IsDamageOrMemory slot (IsRootDamage (Passes body.now))) }
{
    undamaged_bytes_are_a_root();
    match check_root(body) {
        Ok(_) => Ok(()),
        Err(error) => Err(root_finding(error, slot)),
    }
}

/// Whether the body under the other gate, if that is open, is a root.
fn check_beside(body: &Option<Bytes>, slot: u32) -> Result<(), Finding>
    requires { IfSome body.now (λ bytes. length bytes ≡ 3576) }
    ensures { MatchResult result (λ _. IfSome body.now IsRootBody)
        (λ finding. MatchOption body.now ⊥ (λ bytes.
        IsDamageOrMemory slot (IsRootDamage (Passes bytes)) finding)) }
{
    match body {
        None => Ok(()),
        Some(bytes) => check_slot(bytes.as_slice(), slot),
    }
}

/// The root of slot 0, which is the active one, and a test of the other slot's, if its gate is open.
fn decode_first(alloc: Global, body: &[u8], beside: &Option<Bytes>) -> Result<Root, Finding>
    requires { (length body.now ≡ 3576) × IfSome beside.now (λ bytes. length bytes ≡ 3576) }
    ensures found { (seen : List ℕ) → SlotIsOpen 0 seen → body.now ≡ body_of 0 seen
        → IsOther 1 seen beside.now → HasRoots seen result }
    ensures root { IfOk result (IsRootOf body.now) }
    ensures fault { IfErr result IsNoFault }
{
    match decode_slot(alloc, body, 0) {
        Ok(root) => match check_beside(beside, 1) {
            Ok(()) => Ok(root),
            Err(finding) => Err(finding),
        },
        Err(finding) => Err(finding),
    }
}

/// A test of the root of slot 0, if its gate is open, and the root of slot 1, which is the active one.
fn decode_second(alloc: Global, body: &[u8], beside: &Option<Bytes>) -> Result<Root, Finding>
    requires { (length body.now ≡ 3576) × IfSome beside.now (λ bytes. length bytes ≡ 3576) }
    ensures found { (seen : List ℕ) → SlotIsOpen 1 seen → body.now ≡ body_of 1 seen
        → IsOther 0 seen beside.now → HasRoots seen result }
    ensures root { IfOk result (IsRootOf body.now) }
    ensures fault { IfErr result IsNoFault }
{
    match check_beside(beside, 0) {
        Ok(()) => match decode_slot(alloc, body, 1) {
            Ok(root) => Ok(root),
            Err(finding) => Err(finding),
        },
        Err(finding) => Err(finding),
    }
}

/// The root of the active slot, and a test of the other slot's, if its gate is open. The slots are tested in their order,
/// whichever is the active one.
pub fn decode_roots(
    alloc: Global,
    active: u32,
    body: &[u8],
    beside: &Option<Bytes>,
) -> Result<Root, Finding>
    requires active { active < 2 }
    requires size { (length body.now ≡ 3576)
        × IfSome beside.now (λ bytes. length bytes ≡ 3576) }
    ensures found { (seen : List ℕ) → SlotIsOpen active seen → body.now ≡ body_of active seen
        → IsOther (other active) seen beside.now → HasRoots seen result }
    ensures root { IfOk result (IsRootOf body.now) }
    ensures fault { IfErr result IsNoFault }
{
    if active == 0 {
        decode_first(alloc, body, beside)
    } else {
        decode_second(alloc, body, beside)
    }
}

/// Whether two geometries are one.
pub(crate) fn same_size(one: &Geometry, other: &Geometry) -> bool
    ensures { IsTrue result ↔ ((one.now.sectors ≡ other.now.sectors)
        × (one.now.block_sectors ≡ other.now.block_sectors)) }
{
    one.sectors == other.sectors && one.block_sectors == other.block_sectors
}

/// The held root of a root, from the 3,576 bytes of its place.
fn decode_held(alloc: Global, body: &[u8], root: &Root) -> Result<Root, Finding>
    requires { length body.now ≡ 3576 }
    ensures found { (seen : List ℕ) → body.now ≡ held_body seen
        → HasHeldRoot seen (fields_of root.now) result }
    ensures held { IfOk result (λ held. IsHeldBy (fields_of root.now) (fields_of held)) }
    ensures fault { IfErr result IsNoFault }
{
    root_is_read_back();
    match decode_held_root(alloc, body) {
        Ok(held) => {
            if !same_size(&held.geometry, &root.geometry) {
                return Err(Finding::Damage {
                    kind: DamageKind::HeldGeometry,
                    block: HELD,
                });
            }
            Ok(held)
        }
        Err(error) => Err(root_finding(error, HELD)),
    }
}

/// Reads the held root of a root from its block, by one read, and tests it.
pub fn read_held_root<D: Disk>(
    alloc: Global,
    slots: &mut Slots<D>,
    root: &Root,
) -> Result<Root, Finding>
    requires room { 24 ≤ D.sectors slots.old.disk }
    ensures walked { Walked D.Disk (HeldRoot ∷ HeldSize root.now.geometry.sectors
        root.now.geometry.block_sectors ∷ []) slots.old slots.new result }
    ensures says { IfOk result (λ held. D.tells ≡ true
        → held_body (D.history slots.old.disk).now.seen ≡ root_bytes (fields_of held)) }
    ensures held { IfOk result (λ held. IsHeldBy (fields_of root.now) (fields_of held)) }
{
    let mut page = [0; 4_096];
    match slots.read_page(HELD, &mut page) {
        Ok(()) => match decode_held(alloc, page.split_at(FRONT).1, root) {
            Ok(held) => Ok(held),
            Err(finding) => Err(finding),
        },
        Err(count) => Err(Finding::Fault(count)),
    }
}
