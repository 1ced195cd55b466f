//! Pages of write sets and of the era array, against bytes that were written down by hand.

use era_array::EraArray;
use era_meta::PageSource;
use era_sets::BitSet;
use std::test::Fail;

const PAGE: usize = 4_096;

#[test]
fn page_of_a_set(rt: HostRuntime) -> Result<(), Fail> {
    let mut set = BitSet::new(rt.alloc(), 200)?;
    for block in [0, 63, 64, 65, 199] {
        if block < set.len() {
            set.mark(block);
        }
    }
    let mut page = vec![in rt.alloc(); 9; PAGE]?;
    set.encode_page(0, &mut page);
    let bytes = [
        1, 0, 0, 0, 0, 0, 0, 128, 3, 0, 0, 0, 0, 0, 0, 0, 0, 0, 0, 0, 0, 0, 0, 0, 128, 0,
    ];
    assert_eq!(rt; page.get(..26), Some(bytes.as_slice()));
    Ok(())
}

#[test]
fn last_page_of_an_array(rt: HostRuntime) -> Result<(), Fail> {
    let mut array = EraArray::new(rt.alloc(), 1_025)?;
    if array.as_slice().len() == 1_025 {
        array.transcribe_page(1, [1].as_slice(), 0x0102_0304);
    }
    let mut page = vec![in rt.alloc(); 9; PAGE]?;
    array.encode_page(1, &mut page);
    assert_eq!(rt; page.get(..8), Some([4, 3, 2, 1, 0, 0, 0, 0].as_slice()));
    Ok(())
}
