//! Text goes out in pieces: of few bytes only where the first line, a round or the run ends.

use crate::row::SERVE;
use crate::run::{Ran, add_write, run_over};
use era_disks::{MemBay, TextSink, TextSource};
use std::alloc::Global;
use std::sync::Wait;
use std::test::Fail;
use std::thread::Threads;

/// A stream of writes to every other block, behind each of them many lists: some 200,000 bytes of text in one round.
fn lists_of_runs(alloc: Global) -> Result<Vec<u8>, Fail> {
    let mut stream = Vec::new(alloc);
    for block in 0..32u32 {
        let sector = block * 16;
        let sector = format!(in alloc; "{sector}")?;
        add_write(&mut stream, sector.as_str(), "aa", 1)?;
        for _list in 0..100 {
            stream.extend_from_slice(b"0 list 1\n")?;
        }
    }
    Ok(stream)
}

/// Serves a stream over an origin of 512 sectors.
fn serve<R: Threads + Wait + Sync>(
    rt: &R,
    alloc: Global,
    stream: &[u8],
    sink: TextSink,
) -> Result<Ran, Fail> {
    let mut bay = MemBay::new(alloc);
    bay.add("origin", 512)?;
    run_over(rt, alloc, SERVE, TextSource::new(alloc, stream)?, sink, bay)
}

#[test]
fn a_give_has_4_kib_or_ends_something(rt: HostRuntime) -> Result<(), Fail> {
    let alloc = rt.alloc();
    let stream = lists_of_runs(alloc)?;
    let ran = serve(&rt, alloc, stream.as_slice(), TextSink::new(alloc))?;
    assert!(rt; ran.status == 0 && ran.text.len() > 100_000);
    assert!(rt; ran.gives <= ran.text.len() as u64 / 4_096 + 3, "too many");
    Ok(())
}

#[test]
fn a_piece_that_fails_leaves_a_front_of_the_text(rt: HostRuntime) -> Result<(), Fail> {
    let alloc = rt.alloc();
    let stream = lists_of_runs(alloc)?;
    let ran = serve(&rt, alloc, stream.as_slice(), TextSink::new(alloc))?;
    let whole = ran.text.as_slice();
    // the first line has 10 bytes
    for (number, taken, count) in [(1, 0, 10), (4, 100, 12_398), (5, 4_096, 20_490)] {
        let mut sink = TextSink::new(alloc);
        sink.fail(number, taken)?;
        let cut = serve(&rt, alloc, stream.as_slice(), sink)?;
        assert!(rt; cut.status == 8 && Some(cut.text.as_slice()) == whole.get(..count));
    }
    Ok(())
}
