//! A session over a real image.

use crate::row::Sent::{self, Text, Write};
use crate::run::{holds, spell};
use era_disks::{FileBay, FreePace, TextSink, TextSource};
use era_top::era_top;
use std::test::Fail;
use std::{env, fs, process};

/// Writes to three blocks of eight, and lists of two eras.
static SMALL: [Sent<'static>; 7] = [
    Write("0", "aa", 1),
    Write("1", "bb", 1),
    Write("8", "cc", 1),
    Write("64", "dd", 1),
    Text("0 checkpoint\n"),
    Write("56", "ff", 8),
    Text("0 list 1\n0 list 2\n"),
];

/// A path that no other test has.
fn path_of(rt: &HostRuntime, name: &str) -> Result<String, Fail> {
    let folder = env::temp_dir(rt)?;
    let folder = folder.as_str();
    let id = process::id(rt.process());
    Ok(format!(in rt.alloc(); "{folder}/era_rows_{id}_{name}")?)
}

#[test]
fn a_small_image_is_served(rt: HostRuntime) -> Result<(), Fail> {
    let alloc = rt.alloc();
    let path = path_of(&rt, "origin")?;
    fs::write(&rt, path.as_str(), [0u8; 32_768].as_slice())?;
    let stream = spell(alloc, SMALL.as_slice())?;
    let image = path.as_str();
    let words = [
        String::from_str(alloc, "serve")?,
        format!(in alloc; "0 64 era meta {image} 8")?,
    ];
    let mut source = TextSource::new(alloc, stream.as_slice())?;
    let mut sink = TextSink::new(alloc);
    let mut bay = FileBay::new(rt, alloc);
    let status = era_top(
        &rt,
        alloc,
        &words,
        &mut source,
        &mut sink,
        &mut bay,
        &FreePace,
    );
    let expected =
        b"open 1 8\n1 ok t0 m1 g2 d3\n2 ok g4 d5\n3 ok t6 m7 g8 d9\n4 range\n5 era 2 e10\n6 ok t11 m12 g13 d14\n7 blocks 0-1,7 l15\n8 blocks 7 l16\nend 2 17\n";
    assert_eq!(rt; sink.given(), expected.as_slice());
    assert_eq!(rt; status, 0);
    let bytes = fs::read(&rt, path.as_str())?;
    let ranges = [
        (0, 512, 170),
        (512, 1_024, 187),
        (1_024, 4_096, 0),
        (4_096, 4_608, 204),
        (4_608, 28_672, 0),
        (28_672, 32_768, 255),
    ];
    assert!(rt; ranges.iter().all(|range| holds(bytes.as_slice(), range)));
    fs::remove_file(&rt, path.as_str())?;
    Ok(())
}
