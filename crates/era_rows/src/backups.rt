//! Backups of an image's blocks: what an origin of a session holds there, and what is answered in their place.

use crate::row::Sent::{self, Digits, Text, Write};
use crate::row::TABLE;
use crate::run::spell;
use era_disks::{DiskCall, FreePace, MemBay, TextSink, TextSource};
use era_top::era_top;
use std::alloc::Global;
use std::sync::Wait;
use std::test::Fail;
use std::thread::Threads;

/// The marks that a session with an era switch between its writes leaves.
const DUMP: &str = "eradump 1 512 8 2\narray\nset 1\n0 1\n5 5\ncurrent\n1 1\nend\n";

/// The writes of that session.
static WRITES: [Sent<'static>; 5] = [
    Write("0", "a1", 8),
    Write("8", "a2", 8),
    Write("40", "a3", 8),
    Text("0 checkpoint\n"),
    Write("8", "a4", 8),
];

/// One call of the program, and what it answers.
#[derive(Drop)]
struct Call<'a> {
    words: &'a [&'a str],
    sent: &'a [Sent<'a>],
    text: &'a [Sent<'a>],
    status: u8,
}

/// A backup of what was written since the last era switch.
const LAST: Call<'static> = Call {
    words: &["backup", "meta", "origin", "--written-since", "2"],
    sent: &[],
    text: &[
        Text("erabackup 1 512 8 2 2\n1 "),
        Digits("a4", 8),
        Text("\nend 1\n"),
    ],
    status: 0,
};

static COPIES: [Call<'static>; 5] = [
    Call { ..LAST },
    Call {
        words: &["backup", "meta", "origin", "--written-since=0"],
        text: &[
            Text("erabackup 1 512 8 1 2\n0 "),
            Digits("a1", 8),
            Text("\n1 "),
            Digits("a4", 8),
            Text("\n5 "),
            Digits("a3", 8),
            Text("\nend 3\n"),
        ],
        ..LAST
    },
    Call {
        words: &["backup", "meta", "origin", "--written-since=3"],
        text: &[Text("erabackup 1 512 8 3 2\nend 0\n")],
        ..LAST
    },
    Call {
        words: &["restore", "meta"],
        sent: &[Text("eradump 1 508 16 2\narray\ncurrent\n31 31\nend\n")],
        text: &[Text("restored 2\n")],
        ..LAST
    },
    Call {
        words: &["backup", "meta", "origin", "--written-since=1"],
        text: &[
            Text("erabackup 1 508 16 1 2\n31 "),
            Digits("00", 12),
            Text("\nend 1\n"),
        ],
        ..LAST
    },
];

static REFUSALS: [Call<'static>; 5] = [
    Call {
        words: &["backup", "origin", "origin", "--written-since=1"],
        text: &[Text("refused SameDevice\n")],
        status: 6,
        ..LAST
    },
    Call {
        words: &["backup", "nothing", "origin", "--written-since=1"],
        text: &[Text("fault bay 1\n")],
        status: 4,
        ..LAST
    },
    Call {
        words: &["backup", "blank", "nothing", "--written-since=1"],
        text: &[Text("refused Unformatted\n")],
        status: 6,
        ..LAST
    },
    Call {
        words: &["backup", "meta", "nothing", "--written-since=1"],
        text: &[Text("fault bay 2\n")],
        status: 4,
        ..LAST
    },
    Call {
        words: &["backup", "meta", "blank", "--written-since=1"],
        text: &[Text("refused OriginSmall 456 512\n")],
        status: 6,
        ..LAST
    },
];

/// Whether a call over a bay answers what it says.
fn answers<R: Threads + Wait + Sync>(
    rt: &R,
    alloc: Global,
    call: &Call<'_>,
    bay: &mut MemBay,
) -> Result<bool, Fail> {
    let sent = spell(alloc, call.sent)?;
    let expected = spell(alloc, call.text)?;
    let mut source = TextSource::new(alloc, sent.as_slice())?;
    let mut sink = TextSink::new(alloc);
    let mut words = Vec::new(alloc);
    for word in call.words {
        words.push(String::from_str(alloc, word)?)?;
    }
    let words = words.as_slice();
    let status = era_top(rt, alloc, words, &mut source, &mut sink, bay, &FreePace);
    Ok(status == call.status && sink.given() == expected.as_slice())
}

/// A bay after that session, with its marks on the metadata device.
fn written_bay<R: Threads + Wait + Sync>(rt: &R, alloc: Global) -> Result<MemBay, Fail> {
    let mut bay = MemBay::new(alloc);
    bay.add("origin", 512)?;
    bay.add("meta", 456)?;
    bay.add("blank", 456)?;
    let session = Call {
        words: &["serve", TABLE],
        sent: WRITES.as_slice(),
        ..LAST
    };
    answers(rt, alloc, &session, &mut bay)?;
    let restored = Call {
        words: &["restore", "meta"],
        sent: &[Text(DUMP)],
        text: &[Text("restored 2\n")],
        ..LAST
    };
    let bay = if answers(rt, alloc, &restored, &mut bay)? {
        Some(bay)
    } else {
        None
    };
    Ok(bay.ok_or("not restored")?)
}

/// The number of the first call that doesn't answer what it says, or how many there are.
fn first_unmet<R: Threads + Wait + Sync>(
    rt: &R,
    alloc: Global,
    calls: &[Call<'_>],
) -> Result<usize, Fail> {
    let mut bay = written_bay(rt, alloc)?;
    for (index, call) in calls.iter().enumerate() {
        if !answers(rt, alloc, call, &mut bay)? {
            return Ok(index);
        }
    }
    Ok(calls.len())
}

#[test]
fn blocks_are_backed_up(rt: HostRuntime) -> Result<(), Fail> {
    let met = first_unmet(&rt, rt.alloc(), COPIES.as_slice())?;
    assert_eq!(rt; met, COPIES.len());
    Ok(())
}

#[test]
fn refusals_come_in_order(rt: HostRuntime) -> Result<(), Fail> {
    let met = first_unmet(&rt, rt.alloc(), REFUSALS.as_slice())?;
    assert_eq!(rt; met, REFUSALS.len());
    Ok(())
}

/// Whether a backup answers so once a call of the origin's disk fails.
fn fails_so<R: Threads + Wait + Sync>(
    rt: &R,
    alloc: Global,
    failing: DiskCall,
    number: u64,
    text: &[Sent<'_>],
) -> Result<bool, Fail> {
    let mut bay = written_bay(rt, alloc)?;
    bay.fail_disk("origin", failing, number)?;
    let call = Call {
        text,
        status: 4,
        words: &["backup", "meta", "origin", "--written-since=1"],
        sent: &[],
    };
    answers(rt, alloc, &call, &mut bay)
}

/// What is answered where the sync fails.
static UNSYNCED: [Sent<'static>; 1] = [Text("fault data 1\n")];

/// What is answered where the second read fails.
static UNREAD: [Sent<'static>; 3] = [
    Text("erabackup 1 512 8 1 2\n0 "),
    Digits("a1", 8),
    Text("\nfault data 1\n"),
];

#[test]
fn a_failing_origin_is_told(rt: HostRuntime) -> Result<(), Fail> {
    let alloc = rt.alloc();
    assert!(rt; fails_so(&rt, alloc, DiskCall::Sync, 0, UNSYNCED.as_slice())?);
    assert!(rt; fails_so(&rt, alloc, DiskCall::Read, 1, UNREAD.as_slice())?);
    Ok(())
}
