//! The marks of 64 blocks, by a reading of the disk's bytes that uses nothing of the metadata's own.

use crate::calls::Call;
use crate::runs::serve;
use crate::sweeps::page_of;
use era_base::Disk;
use era_disks::MemDisk;
use std::test::Fail;

/// A metadata block.
type Page = [u8; 4_096];

/// The present era, how many sets are archived, and a word of 64 bits that tells of each block whether it was ever marked.
#[derive(Clone, Copy, Debug, PartialEq, Eq)]
struct Marked {
    era: u32,
    sets: u32,
    blocks: u64,
}

/// The four bytes of a page from an offset as a number, the least byte first.
fn number_at(page: &Page, offset: usize) -> u32 {
    let at = offset.min(4_092);
    u32::from_le_bytes([page[at], page[at + 1], page[at + 2], page[at + 3]])
}

/// The page of the slot whose gate is open over the greater number.
fn root_of<D: Disk>(disk: &mut D) -> Page {
    let zero = page_of(disk, 0);
    let one = page_of(disk, 1);
    if one[0] != 1 || (zero[0] == 1 && number_at(&zero, 512) > number_at(&one, 512)) {
        zero
    } else {
        one
    }
}

/// The first 64 bits of a page of a write set.
fn bits_of(page: &Page) -> u64 {
    u64::from(number_at(page, 0)) | (u64::from(number_at(page, 4)) << 32)
}

/// The bits of the blocks whose entries in a page of the era array aren't 0.
fn entries_of(page: &Page) -> u64 {
    let mut bits = 0;
    for block in 0..64_usize {
        if number_at(page, 4 * block) != 0 {
            bits |= 1 << block;
        }
    }
    bits
}

/// The bits of so many archived sets of a root, which has one page for each.
fn sets_of<D: Disk>(disk: &mut D, root: &Page, sets: u32) -> u64 {
    let mut bits = 0;
    for index in 0..sets.min(16) {
        let page = page_of(disk, number_at(root, 572 + 8 * index as usize));
        bits |= bits_of(&page);
    }
    bits
}

/// Reads the marks of a disk.
fn read_marks<D: Disk>(disk: &mut D) -> Marked {
    let root = root_of(disk);
    let array = page_of(disk, number_at(&root, 560));
    let current = page_of(disk, number_at(&root, 564));
    let sets = number_at(&root, 552);
    let archived = sets_of(disk, &root, sets);
    Marked {
        era: number_at(&root, 544),
        sets,
        blocks: entries_of(&array) | bits_of(&current) | archived,
    }
}

#[test]
fn seventeen_eras_behind_a_mark_are_on_the_disk(rt: HostRuntime) -> Result<(), Fail> {
    let mut calls = [Call::Roll; 18];
    calls[0] = Call::Mark(3);
    let disk = MemDisk::new(rt.alloc(), "meta", 456)?;
    let mut ran = serve(rt.alloc(), disk, 512, &calls, false);
    let marked = read_marks(&mut ran.disk);
    let wanted = Marked {
        era: 18,
        sets: 16,
        blocks: 8,
    };
    assert_eq!(rt; ran.steps, 19);
    assert_eq!(rt; marked, wanted);
    Ok(())
}
