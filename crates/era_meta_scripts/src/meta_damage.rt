//! One byte of a disk changed, and the damage that a look finds first.

ghost use Rattle.std.specs.Prelude.{◌≡◌, IfOk, IfSome};
ghost use Rattle.era_disks.specs.MemDisk.{sectors_of};

use crate::meta_disks::{Seen, blank, damaged, look_of, put};
use era_base::{Geometry, Memory};
use era_disks::MemDisk;
use era_layout::DamageKind;
use era_meta::Meta;
use std::alloc::Global;
use std::test::Fail;

/// A metadata block, an offset in it, the byte that is put there, and what a look finds then.
type Row = (u64, usize, u8, Seen);

/// A disk of 57 metadata blocks with the marks of era 2 in blocks 21 to 23 and a snapshot of those of era 1 in blocks 3
/// and 4; none where a call failed. Slot 0 has the number 3, slot 1 the number 2.
fn held(alloc: Global) -> Result<Option<MemDisk>, Memory>
    ensures { IfOk result (λ disk. IfSome disk (λ disk. sectors_of disk ≡ 456)) }
{
    let disk = blank(alloc, 57)?;
    let Ok(asked) = Geometry::new(512, 8) else {
        return Ok(None);
    };
    let Ok(mut meta) = Meta::start(alloc, disk, asked) else {
        return Ok(None);
    };
    if meta.held() || meta.era() > 9 {
        return Ok(None);
    }
    let Ok(()) = meta.take_snap() else {
        return Ok(None);
    };
    let Ok(()) = meta.roll() else {
        return Ok(None);
    };
    Ok(Some(meta.into_disk()))
}

/// What a look finds where the row's byte is put on such a disk.
fn found_by(alloc: Global, row: &Row) -> Result<Option<Seen>, Fail> {
    let (block, offset, byte, _) = *row;
    let Some(mut disk) = held(alloc)? else {
        return Ok(None);
    };
    if block >= 57 || offset >= 4_096 {
        return Ok(None);
    }
    put(&mut disk, block, offset, byte)?;
    Ok(Some(look_of(alloc, disk)))
}

/// The first of the rows where a look finds anything else than it says, or `None`.
fn first_unmet(alloc: Global, rows: &[Row]) -> Result<Option<Row>, Fail> {
    for row in rows {
        if found_by(alloc, row)? != Some(row.3) {
            return Ok(Some(*row));
        }
    }
    Ok(None)
}

/// What is found where nothing is damaged.
const WHOLE: Seen = Seen::Stored {
    era: 2,
    sequence: 3,
    is_held: true,
};

#[test]
fn numbers_are_damaged(rt: HostRuntime) -> Result<(), Fail> {
    let rows = [
        (0, 512, 3, WHOLE),
        (0, 512, 0, damaged(DamageKind::BadSequence, 0)),
        (0, 519, 0x7f, WHOLE_LATER),
        (0, 519, 0x80, damaged(DamageKind::BadSequence, 0)),
        (1, 519, 0x80, damaged(DamageKind::BadSequence, 1)),
        (0, 512, 2, damaged(DamageKind::SequenceTie, 1)),
    ];
    assert_eq!(rt; first_unmet(rt.alloc(), rows.as_slice())?, None);
    Ok(())
}

/// The same under the greatest number but for its lower bytes.
const WHOLE_LATER: Seen = Seen::Stored {
    era: 2,
    sequence: 0x7f00_0000_0000_0003,
    is_held: true,
};

#[test]
fn roots_are_damaged(rt: HostRuntime) -> Result<(), Fail> {
    let rows = [
        (0, 520, 0, damaged(DamageKind::BadMagic, 0)),
        (1, 520, 0, damaged(DamageKind::BadMagic, 1)),
        (2, 520, 0, damaged(DamageKind::BadMagic, 2)),
        (0, 528, 2, damaged(DamageKind::BadVersion, 0)),
        (1, 532, 12, damaged(DamageKind::BadGeometry, 1)),
        (2, 544, 0, damaged(DamageKind::BadEra, 2)),
        (0, 548, 1, damaged(DamageKind::BadHeld, 0)),
        (2, 548, 2, damaged(DamageKind::BadHeld, 2)),
        (1, 552, 17, damaged(DamageKind::ArchiveOrder, 1)),
        (0, 560, 2, damaged(DamageKind::PageRange, 0)),
        (0, 560, 57, damaged(DamageKind::PageRange, 0)),
        (0, 560, 22, damaged(DamageKind::PageTwice, 0)),
        (2, 556, 1, damaged(DamageKind::TailNotZero, 2)),
        (1, 4_095, 1, damaged(DamageKind::TailNotZero, 1)),
        (2, 536, 1, damaged(DamageKind::HeldGeometry, 2)),
    ];
    assert_eq!(rt; first_unmet(rt.alloc(), rows.as_slice())?, None);
    Ok(())
}

#[test]
fn pages_are_damaged(rt: HostRuntime) -> Result<(), Fail> {
    let rows = [
        (21, 0, 1, WHOLE),
        (21, 0, 2, damaged(DamageKind::EraFuture, 21)),
        (21, 252, 1, WHOLE),
        (21, 256, 1, damaged(DamageKind::EntryPastEnd, 21)),
        (22, 7, 0x80, WHOLE),
        (22, 8, 1, damaged(DamageKind::BitPastEnd, 22)),
        (23, 7, 0x80, WHOLE),
        (23, 8, 1, damaged(DamageKind::BitPastEnd, 23)),
        (3, 0, 1, damaged(DamageKind::EraFuture, 3)),
        (3, 4_092, 1, damaged(DamageKind::EntryPastEnd, 3)),
        (4, 4_095, 0x80, damaged(DamageKind::BitPastEnd, 4)),
        (5, 0, 1, WHOLE),
    ];
    assert_eq!(rt; first_unmet(rt.alloc(), rows.as_slice())?, None);
    Ok(())
}
