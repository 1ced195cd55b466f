//! Begins an era on a metadata disk on which a slot is the active one.

ghost use Rattle.std.specs.Prelude.{◌≡◌, ◌^◌, ◌<◌, ◌++◌, ℕ, List, IfOk, IfErr, MatchResult};
ghost use Rattle.era_base.specs.Calls.{EachMoment, Now};
ghost use Rattle.era_base.specs.CrashModel.{IsClean};
ghost use Rattle.era_base.specs.declared.limits.TheConstants.{LAST_ERA};
ghost use Rattle.era_layout.specs.Root.{fields_of};
ghost use Rattle.era_slots.specs.Calls.{StandFor};
ghost use Rattle.era_slots.specs.Opening.{AreBeside, OpensWhole};
ghost use Rattle.era_slots.specs.Slot.{commit_number};
ghost use Rattle.era_meta.specs.Damage.{HasSize, newest_slot, root_in};
ghost use Rattle.era_meta.specs.Openings.{HasErrorCause, IsLooked, opened_disk, refusal_of};
ghost use Rattle.era_meta.specs.Starting.{IsBegun, LeavesOpening, Started};
ghost use Rattle.era_meta.specs.Trials.{EndsOpening, HoldAll, begin_trials, metadata_blocks, opened_trials};

use crate::laws::image_stands_for_one_meaning;
use crate::looking::look_whole;
use crate::metadata::Meta;
use crate::refusal::{MetaError, MetaRefusal};
use crate::roots_reading::same_size;
use era_base::{Bytes, Disk, Geometry, LAST_ERA};
use era_model::{last_eras_are_bounded, switch_keeps_last_eras};
use era_slots::Slots;
use std::alloc::Global;

/// From this number of a commit on no era begins.
const NUMBERS_END: u64 = 1 << 62;

/// Why no era of an origin of a geometry may begin on metadata, if it may not.
fn can_begin<D: Disk>(meta: &Meta<D>, asked: &Geometry) -> Result<(), MetaError>
    ensures found { (have : ℕ) (seen : List ℕ) → root_in seen ≡ fields_of meta.now.root
        → (root_in seen).era ≡ meta.now.marks.era
        → commit_number (newest_slot seen) seen ≡ meta.now.slots.number
        → MatchResult result (λ _. HoldAll have seen (begin_trials asked.now))
        (EndsOpening have seen (begin_trials asked.now) 0) }
    ensures ok { IfOk result (λ _.
        HasSize (fields_of meta.now.root) asked.now.sectors asked.now.block_sectors
        × (meta.now.marks.era < LAST_ERA) × (meta.now.slots.number < 2 ^ 62)) }
    ensures quiet { (count : ℕ) → IfErr result (HasErrorCause count count) }
{
    if !same_size(&meta.root.geometry, asked) {
        return Err(MetaError::WrongGeometry {
            kept: meta.root.geometry,
            asked: *asked,
        });
    }
    if meta.marks.era() >= LAST_ERA {
        return Err(MetaError::EraEnd);
    }
    if meta.slots.number >= NUMBERS_END {
        return Err(MetaError::SequenceEnd(meta.slots.number));
    }
    Ok(())
}

/// Begins an era of an origin of a geometry on metadata that was looked at, by one commit.
fn begin_era<D: Disk>(mut meta: Meta<D>, asked: &Geometry) -> Result<Meta<D>, MetaRefusal<D>>
    requires looked { IsLooked D.Disk meta.slots.disk meta }
    ensures started { Started D.Disk (λ seen. begin_trials asked.now) meta.slots.disk
        (opened_disk result) (refusal_of result) }
    ensures moments { EachMoment D.Disk (LeavesOpening asked.now) meta.slots.disk
        (opened_disk result) }
    ensures begun { IfOk result (IsBegun D.Disk asked.now meta.slots.disk) }
{
    image_stands_for_one_meaning();
    switch_keeps_last_eras();
    last_eras_are_bounded();
    meta.marks.are_valid();
    match can_begin(&meta, asked) {
        Ok(()) => {}
        Err(error) => {
            return Err(MetaRefusal {
                error,
                disk: meta.into_disk(),
            });
        }
    }
    match meta.roll() {
        Ok(()) => Ok(meta),
        Err(count) => Err(MetaRefusal {
            error: MetaError::Fault(count),
            disk: meta.into_disk(),
        }),
    }
}

/// Reads an opened disk on which a slot is the active one, and begins an era on it.
pub(crate) fn start_whole<D: Disk>(
    alloc: Global,
    slots: Slots<D>,
    have: u64,
    active: u32,
    body: &Bytes,
    beside: &Option<Bytes>,
    asked: &Geometry,
) -> Result<Meta<D>, MetaRefusal<D>>
    requires have { have ≡ metadata_blocks (D.sectors slots.disk) }
    requires shape { AreBeside slots active body.now beside.now slots.number }
    requires stands { Now D.Disk (StandFor slots) slots.disk }
    requires opened { Now D.Disk (λ now. IsClean now
        × OpensWhole now.seen slots active body.now beside.now slots.number) slots.disk }
    ensures started { Started D.Disk (λ seen. opened_trials seen ++ begin_trials asked.now)
        slots.disk (opened_disk result) (refusal_of result) }
    ensures moments { EachMoment D.Disk (LeavesOpening asked.now) slots.disk
        (opened_disk result) }
    ensures begun { IfOk result (IsBegun D.Disk asked.now slots.disk) }
{
    match look_whole(alloc, slots, have, active, body, beside) {
        Ok(meta) => begin_era(meta, asked),
        Err(refusal) => Err(refusal),
    }
}
