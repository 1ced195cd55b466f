//! Roots and pages against bytes that were written down by hand.

ghost use Rattle.std.specs.Prelude.{◌≡◌, ◌+◌, ◌≤◌, length, vec_len, IfOk};

use era_base::{MOST_SETS, Memory};
use era_layout::{
    ArchiveList, Archived, DamageKind, PageError, PageList, Root, RootError, bit_at,
    check_array_page, check_bits_page, check_held_root, check_root, decode_held_root, decode_root,
    encode_array_page, encode_bits_page, encode_root, era_at, renumber,
};
use std::alloc::{AllocError, Global};
use std::test::*;

/// The bytes of a root, of a page.
const ROOT: usize = 3_576;

const PAGE: usize = 4_096;

/// So many bytes 0.
fn zeros(alloc: Global, size: usize) -> Result<Vec<u8>, AllocError>
    ensures { IfOk result (λ bytes. vec_len bytes ≡ size) }
{
    vec![in alloc; 0; size]
}

/// Puts a number at an offset, the lowest byte first.
fn put(bytes: &mut Vec<u8>, offset: usize, number: u32)
    requires { offset + 4 ≤ vec_len bytes.old }
    ensures { vec_len bytes.new ≡ vec_len bytes.old }
{
    bytes[offset] = (number & 0xff) as u8;
    bytes[offset + 1] = (number >> 8 & 0xff) as u8;
    bytes[offset + 2] = (number >> 16 & 0xff) as u8;
    bytes[offset + 3] = (number >> 24) as u8;
}

/// The magic, the version, a geometry of `sectors` sectors in blocks of `block_sectors`, and an era.
fn head(alloc: Global, sectors: u32, block_sectors: u32, era: u32) -> Result<Vec<u8>, AllocError>
    ensures { IfOk result (λ bytes. vec_len bytes ≡ 3576) }
{
    let mut bytes = zeros(alloc, ROOT)?;
    put(&mut bytes, 0, 0x6461_7265);
    put(&mut bytes, 4, 0x316b_7369);
    put(&mut bytes, 8, 1);
    put(&mut bytes, 12, block_sectors);
    put(&mut bytes, 16, sectors);
    put(&mut bytes, 24, era);
    Ok(bytes)
}

/// A root of 64 blocks in era 5, with a snapshot and with sets of eras 1 and 3.
fn two_sets(alloc: Global) -> Result<Vec<u8>, AllocError>
    ensures { IfOk result (λ bytes. vec_len bytes ≡ 3576) }
{
    let mut bytes = head(alloc, 512, 8, 5)?;
    put(&mut bytes, 28, 2);
    put(&mut bytes, 32, 2);
    put(&mut bytes, 40, 56);
    put(&mut bytes, 44, 4);
    put(&mut bytes, 48, 1);
    put(&mut bytes, 52, 5);
    put(&mut bytes, 56, 3);
    put(&mut bytes, 60, 6);
    Ok(bytes)
}

/// The root that bytes are, which is encoded to the same bytes.
fn there_and_back(alloc: Global, bytes: &Vec<u8>) -> Result<Root, Fail>
    requires { vec_len bytes.now ≡ 3576 }
{
    let root = match decode_root(alloc, bytes) {
        Ok(root) => root,
        Err(_) => return Err("the bytes are a root".into()),
    };
    let mut again = zeros(alloc, ROOT)?;
    encode_root(&root, &mut again);
    if again.as_slice() != bytes.as_slice() {
        return Err("the root has other bytes".into());
    }
    Ok(root)
}

#[test]
fn smallest_root(rt: HostRuntime) -> Result<(), Fail> {
    let mut bytes = head(rt.alloc(), 512, 8, 1)?;
    put(&mut bytes, 40, 3);
    put(&mut bytes, 44, 4);
    assert_eq!(rt;
        &bytes[..16],
        b"eradisk1\x01\x00\x00\x00\x08\x00\x00\x00".as_slice()
    );
    assert_eq!(rt;
        &bytes[16..28],
        b"\x00\x02\x00\x00\x00\x00\x00\x00\x01\x00\x00\x00".as_slice()
    );
    let root = there_and_back(rt.alloc(), &bytes)?;
    assert_eq!(rt; root.geometry.sectors, 512);
    assert_eq!(rt; root.geometry.block_sectors, 8);
    assert_eq!(rt; root.era, 1);
    assert!(rt; !root.held);
    assert_eq!(rt; root.array.as_slice(), [3].as_slice());
    assert_eq!(rt; root.current.as_slice(), [4].as_slice());
    assert_eq!(rt; root.archive.as_slice().len(), 0);
    Ok(())
}

#[test]
fn greatest_root_takes_496_bytes(rt: HostRuntime) -> Result<(), Fail> {
    let mut bytes = head(rt.alloc(), 8_388_608, 128, 17)?;
    put(&mut bytes, 32, 16);
    for page in 0..66_u32 {
        put(&mut bytes, 40 + 4 * page as usize, 3 + page);
    }
    for set in 0..16_u32 {
        let offset = 304 + 12 * set as usize;
        put(&mut bytes, offset, 1 + set);
        put(&mut bytes, offset + 4, 69 + 2 * set);
        put(&mut bytes, offset + 8, 70 + 2 * set);
    }
    let root = there_and_back(rt.alloc(), &bytes)?;
    assert_eq!(rt; root.array.as_slice().len(), 64);
    assert_eq!(rt; root.archive.as_slice().len(), 16);
    put(&mut bytes, 496, 1);
    assert_eq!(rt;
        decode_root(rt.alloc(), &bytes).err(),
        Some(RootError::TailNotZero)
    );
    Ok(())
}

/// What to put where, and the kind that it makes.
const DAMAGE: [(RootError, usize, u32); 17] = [
    (RootError::BadMagic, 4, 0x326b_7369),
    (RootError::BadVersion, 8, 2),
    (RootError::BadGeometry, 12, 12),
    (RootError::BadGeometry, 16, 0),
    (RootError::BadGeometry, 20, 1),
    (RootError::BadEra, 24, 0),
    (RootError::BadHeld, 28, 1),
    (RootError::ArchiveOrder, 32, 17),
    (RootError::ArchiveOrder, 48, 0),
    (RootError::ArchiveOrder, 48, 3),
    (RootError::ArchiveOrder, 56, 5),
    (RootError::PageRange, 40, 2),
    (RootError::PageRange, 44, 57),
    (RootError::PageTwice, 60, 4),
    (RootError::TailNotZero, 36, 0x100),
    (RootError::TailNotZero, 64, 1),
    (RootError::TailNotZero, 3_572, 0x0100_0000),
];

#[test]
fn first_damage_is_told(rt: HostRuntime) -> Result<(), Fail> {
    let root = there_and_back(rt.alloc(), &two_sets(rt.alloc())?)?;
    assert!(rt; root.held);
    for (index, first) in DAMAGE.iter().enumerate() {
        for second in &DAMAGE[index..] {
            let mut bytes = two_sets(rt.alloc())?;
            if second.1 <= ROOT - 4 && first.1 <= ROOT - 4 {
                put(&mut bytes, second.1, second.2);
                put(&mut bytes, first.1, first.2);
            }
            assert_eq!(rt; decode_root(rt.alloc(), &bytes).err(), Some(first.0));
        }
    }
    Ok(())
}

/// What to put where in a held root, and the kind that it makes.
const HELD_DAMAGE: [(RootError, usize, u32); 11] = [
    (RootError::BadMagic, 4, 0x326b_7369),
    (RootError::BadVersion, 8, 2),
    (RootError::BadGeometry, 12, 12),
    (RootError::BadEra, 24, 0),
    (RootError::BadHeld, 28, 1),
    (RootError::BadHeld, 28, 2),
    (RootError::ArchiveOrder, 32, 17),
    (RootError::PageRange, 40, 2),
    (RootError::PageTwice, 60, 4),
    (RootError::TailNotZero, 36, 0x100),
    (RootError::TailNotZero, 64, 1),
];

#[test]
fn first_damage_of_a_held_root_is_told(rt: HostRuntime) -> Result<(), Fail> {
    for (index, first) in HELD_DAMAGE.iter().enumerate() {
        for second in &HELD_DAMAGE[index..] {
            let mut bytes = two_sets(rt.alloc())?;
            put(&mut bytes, 28, 0);
            if second.1 <= ROOT - 4 && first.1 <= ROOT - 4 {
                put(&mut bytes, second.1, second.2);
                put(&mut bytes, first.1, first.2);
            }
            assert_eq!(rt; check_held_root(&bytes).err(), Some(first.0));
        }
    }
    Ok(())
}

#[test]
fn held_root_holds_no_snapshot(rt: HostRuntime) -> Result<(), Fail> {
    let mut bytes = two_sets(rt.alloc())?;
    assert!(rt; check_root(&bytes).is_ok());
    assert_eq!(rt;
        decode_held_root(rt.alloc(), &bytes).err(),
        Some(RootError::BadHeld)
    );
    put(&mut bytes, 28, 0);
    let Ok(root) = decode_held_root(rt.alloc(), &bytes) else {
        return Err("the bytes are a held root".into());
    };
    assert!(rt; !root.held && root.era == 5 && root.archive.len() == 2);
    Ok(())
}

#[test]
fn kinds_of_errors(rt: HostRuntime) -> Result<(), Fail> {
    assert_eq!(rt;
        DamageKind::of_root(RootError::PageTwice),
        Some(DamageKind::PageTwice)
    );
    assert_eq!(rt; DamageKind::of_root(RootError::Memory), None);
    assert_eq!(rt;
        DamageKind::of_page(PageError::EraFuture),
        DamageKind::EraFuture
    );
    Ok(())
}

/// Sets of eras 1 to 16 with two pages each, from page 3 on.
fn sixteen_sets(alloc: Global) -> Result<ArchiveList, Memory>
    ensures { IfOk result (λ sets. length sets ≡ 16) }
{
    let mut sets = ArchiveList::with_room(alloc)?;
    for index in 0..MOST_SETS {
        let mut pages = PageList::repeat(alloc, 0, 2)?;
        renumber(&mut pages, 3 + 2 * index);
        sets.push_reserved(Archived {
            era: 1 + index,
            pages,
        });
    }
    Ok(sets)
}

#[test]
fn oldest_set_hands_its_pages_on(rt: HostRuntime) -> Result<(), Fail> {
    let mut sets = sixteen_sets(rt.alloc())?;
    let mut set = sets.take_first();
    assert!(rt; set.era == 1 && set.pages.as_slice() == [3, 4].as_slice());
    set.era = 17;
    renumber(&mut set.pages, 35);
    sets.push_reserved(set);
    let first = &sets.as_slice()[0];
    assert!(rt; first.era == 2 && first.pages.as_slice() == [5, 6].as_slice());
    let last = &sets.as_slice()[15];
    assert!(rt; last.era == 17 && last.pages.as_slice() == [35, 36].as_slice());
    Ok(())
}

#[test]
fn pages_of_a_list(rt: HostRuntime) -> Result<(), Fail> {
    let mut pages = PageList::new(rt.alloc());
    assert!(rt; pages.is_empty());
    pages.push(7)?;
    pages.push(9)?;
    assert!(rt; pages.len() == 2 && pages.as_slice() == [7, 9].as_slice());
    pages.copy_from(&[4, 8]);
    pages.set(1, 5);
    assert!(rt; pages.as_slice() == [4, 5].as_slice());
    Ok(())
}

#[test]
fn entries_of_a_page(rt: HostRuntime) -> Result<(), Fail> {
    let mut page = zeros(rt.alloc(), PAGE)?;
    encode_array_page(&[1, 0x0102_0304, 3], &mut page);
    assert_eq!(rt;
        &page[..13],
        b"\x01\x00\x00\x00\x04\x03\x02\x01\x03\x00\x00\x00\x00".as_slice()
    );
    assert_eq!(rt; era_at(&page, 1), 0x0102_0304);
    assert_eq!(rt; era_at(&page, 1_023), 0);
    assert_eq!(rt; check_array_page(&page, 3, 0x0102_0304), Ok(()));
    assert_eq!(rt; check_array_page(&page, 2, 3), Err(PageError::EntryPastEnd));
    assert_eq!(rt;
        check_array_page(&page, 3, 0x0102_0303),
        Err(PageError::EraFuture)
    );
    Ok(())
}

#[test]
fn bits_of_a_page(rt: HostRuntime) -> Result<(), Fail> {
    let mut page = zeros(rt.alloc(), PAGE)?;
    encode_bits_page(&[0x8000_0000_0000_0201, 2], &mut page);
    assert_eq!(rt;
        &page[..10],
        b"\x01\x02\x00\x00\x00\x00\x00\x80\x02\x00".as_slice()
    );
    assert!(rt; bit_at(&page, 0) && bit_at(&page, 9) && bit_at(&page, 63) && bit_at(&page, 65));
    assert!(rt; !bit_at(&page, 1) && !bit_at(&page, 64) && !bit_at(&page, 32_767));
    assert_eq!(rt; check_bits_page(&page, 66), Ok(()));
    assert_eq!(rt; check_bits_page(&page, 65), Err(PageError::BitPastEnd));
    Ok(())
}
