//! The era array: pages that are transcribed, and what was written since an era.

use era_array::EraArray;
use std::test::Fail;

#[test]
fn last_page_of_one_block(rt: HostRuntime) -> Result<(), Fail> {
    let mut array = EraArray::new(rt.alloc(), 1_025)?;
    assert_eq!(rt; array.as_slice().len(), 1_025);
    array.transcribe_page(1, [u64::MAX; 16].as_slice(), 7);
    assert_eq!(rt; (array.get(1_023), array.get(1_024)), (0, 7));
    array.transcribe_page(0, [0; 16].as_slice(), 8);
    assert_eq!(rt;
        array.since(rt.alloc(), 0)?.as_slice(),
        [(1_024, 1_024)].as_slice()
    );
    array.transcribe_page(0, [u64::MAX; 16].as_slice(), 6);
    assert_eq!(rt;
        array.since(rt.alloc(), 6)?.as_slice(),
        [(0, 1_024)].as_slice()
    );
    assert_eq!(rt;
        array.since(rt.alloc(), 7)?.as_slice(),
        [(1_024, 1_024)].as_slice()
    );
    assert_eq!(rt; array.since(rt.alloc(), u32::MAX)?.as_slice().len(), 0);
    Ok(())
}

#[test]
fn words_that_are_lacking_count_as_0(rt: HostRuntime) -> Result<(), Fail> {
    let mut array = EraArray::new(rt.alloc(), 200)?;
    array.transcribe_page(0, [1 << 63 | 1, 3].as_slice(), 5);
    array.transcribe_page(0, [2].as_slice(), 9);
    array.transcribe_page(0, [].as_slice(), 11);
    assert_eq!(rt;
        array.since(rt.alloc(), 1)?.as_slice(),
        [(0, 1), (63, 65)].as_slice()
    );
    assert_eq!(rt; array.since(rt.alloc(), 6)?.as_slice(), [(1, 1)].as_slice());
    assert_eq!(rt; (array.get(0), array.get(1), array.get(199)), (5, 9, 0));
    Ok(())
}
