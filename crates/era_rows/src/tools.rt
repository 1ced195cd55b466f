//! The tools on closed images: calls one after another over one bay, and what each of them answers.

use crate::row::Fails;
use era_disks::{DiskCall, MemBay, TextSink, TextSource};
use era_top::era_tool;
use std::alloc::Global;
use std::test::Fail;

/// Calls of tools over one bay in memory, whose device `meta` begins with zeros.
struct ToolRow<'a> {
    shows: &'a str,
    /// Sectors of the metadata device.
    meta: u64,
    calls: &'a [Call<'a>],
}

/// One call of a tool. A call of a disk that fails is the metadata device's.
struct Call<'a> {
    words: &'a [&'a str],
    fails: &'a [Fails],
    sent: &'a str,
    text: &'a str,
    status: u8,
}

/// A check of a device without metadata.
const CHECK: Call<'static> = Call {
    words: &["check", "meta"],
    fails: &[],
    sent: "",
    text: "refused Unformatted\n",
    status: 6,
};

/// A dump of marks with an archived set, which is restored.
const RESTORE: Call<'static> = Call {
    words: &["restore", "meta"],
    sent: DUMP,
    text: "restored 2\n",
    status: 0,
    ..CHECK
};

const DUMP: &str = "eradump 1 512 8 2\narray\nset 1\n0 1\n5 5\ncurrent\n1 1\nend\n";

/// The same marks with the archived set merged into the era array.
const LOGICAL: &str = "eradump 1 512 8 2\narray\n0 1 1\n5 5 1\ncurrent\n1 1\nend\n";

/// A list of what that dump marks.
const LIST: Call<'static> = Call {
    words: &["invalidate", "meta", "--written-since", "1"],
    text: "blocks 3\n0-1\n5\n",
    status: 0,
    ..CHECK
};

/// A dump of what was restored.
const DUMPED: Call<'static> = Call {
    words: &["dump", "meta"],
    text: DUMP,
    status: 0,
    ..CHECK
};

/// A text that is refused, over the image of that dump.
const REFUSED: Call<'static> = Call {
    sent: "eradump 1 512 8 2\narray\ncurrent\n",
    text: "line 4 Truncated\n",
    status: 3,
    ..RESTORE
};

static IMAGES: [ToolRow<'static>; 5] = [
    ToolRow {
        shows: "a device of zeros has no metadata",
        meta: 456,
        calls: &[
            Call { ..CHECK },
            Call {
                words: &["dump", "meta"],
                ..CHECK
            },
            Call {
                words: &["invalidate", "meta", "--written-since=1"],
                ..CHECK
            },
        ],
    },
    ToolRow {
        shows: "a device of too few metadata blocks",
        meta: 448,
        calls: &[
            Call {
                text: "refused MetaSmall 56 57\n",
                ..CHECK
            },
            Call {
                text: "refused MetaSmall 56 57\n",
                status: 6,
                ..RESTORE
            },
        ],
    },
    ToolRow {
        shows: "a dump is restored and dumped again",
        meta: 456,
        calls: &[
            Call { ..RESTORE },
            Call {
                text: "clean 2 5\n",
                status: 0,
                ..CHECK
            },
            Call { ..DUMPED },
            Call {
                words: &["dump", "meta", "--logical"],
                text: LOGICAL,
                ..DUMPED
            },
            Call { ..LIST },
            Call {
                words: &["invalidate", "meta", "--written-since", "0"],
                ..LIST
            },
            Call {
                words: &["invalidate", "meta", "--written-since", "2"],
                text: "blocks 1\n1\n",
                ..LIST
            },
            Call {
                words: &["invalidate", "meta", "--written-since=3"],
                text: "blocks 0\n",
                ..LIST
            },
            Call {
                words: &[
                    "invalidate",
                    "meta",
                    "--metadata-snapshot",
                    "--written-since=1",
                ],
                text: "refused NoSnap\n",
                status: 6,
                ..LIST
            },
        ],
    },
    ToolRow {
        shows: "a logical dump is restored over another image",
        meta: 456,
        calls: &[
            Call { ..RESTORE },
            Call {
                sent: LOGICAL,
                ..RESTORE
            },
            Call {
                text: LOGICAL,
                ..DUMPED
            },
            Call { ..LIST },
        ],
    },
    ToolRow {
        shows: "the last era but one is restored",
        meta: 456,
        calls: &[Call {
            sent: "eradump 1 512 8 4294967294\narray\ncurrent\nend\n",
            text: "restored 4294967294\n",
            ..RESTORE
        }],
    },
];

static REFUSALS: [ToolRow<'static>; 3] = [
    ToolRow {
        shows: "a refused text leaves the image",
        meta: 456,
        calls: &[
            Call { ..RESTORE },
            Call { ..REFUSED },
            Call {
                sent: "eradump 1 512 8 3\narray\n0 0 1\n1 1 1\ncurrent\nend\n",
                text: "line 4 Order\n",
                ..REFUSED
            },
            Call {
                sent: "eradump 1 512 8 3\narray\n0 64 1\n1 1 1\ncurrent\nend\n",
                text: "line 3 PastEnd\n",
                ..REFUSED
            },
            Call {
                sent: "eradump 1 512 8 3\narray\n0 0 3\n1 1 1\ncurrent\nend\n",
                text: "line 3 BadEra\n",
                ..REFUSED
            },
            Call {
                sent: "eradump 1 512 8 2\narray\ncurrent\nend\nend\n",
                text: "line 5 Trailing\n",
                ..REFUSED
            },
            Call {
                sent: "",
                text: "line 1 Truncated\n",
                ..REFUSED
            },
            Call {
                sent: "eradump 1 512 16 2\n",
                text: "line 2 Truncated\n",
                ..REFUSED
            },
            Call { ..DUMPED },
        ],
    },
    ToolRow {
        shows: "a source that fails leaves the image",
        meta: 456,
        calls: &[
            Call { ..RESTORE },
            Call {
                fails: &[Fails::Take(0)],
                text: "fault source 1\n",
                status: 7,
                ..RESTORE
            },
            Call { ..DUMPED },
        ],
    },
    ToolRow {
        shows: "a device that fails, and one that isn't there",
        meta: 456,
        calls: &[
            Call {
                fails: &[Fails::Disk(DiskCall::Sync, 0)],
                text: "fault meta 1\n",
                status: 4,
                ..RESTORE
            },
            Call { ..CHECK },
            Call { ..RESTORE },
            Call {
                words: &["restore", "nothing"],
                text: "fault bay 1\n",
                status: 4,
                ..RESTORE
            },
            Call {
                words: &["check", "nothing"],
                text: "fault bay 2\n",
                status: 4,
                ..CHECK
            },
            Call { ..DUMPED },
        ],
    },
];

static SINKS: [ToolRow<'static>; 1] = [ToolRow {
    shows: "an output that can't be written isn't done",
    meta: 456,
    calls: &[
        Call { ..RESTORE },
        Call {
            fails: &[Fails::Give(0, 4)],
            text: "erad",
            status: 8,
            ..DUMPED
        },
        Call {
            fails: &[Fails::Give(0, 0)],
            text: "",
            status: 8,
            ..LIST
        },
        Call {
            fails: &[Fails::Give(0, 0)],
            text: "",
            status: 8,
            ..RESTORE
        },
        Call { ..DUMPED },
    ],
}];

/// Lets a call of a tool fail where it says so.
fn set_fails(
    fails: &[Fails],
    source: &mut TextSource,
    sink: &mut TextSink,
    bay: &mut MemBay,
) -> Result<(), Fail> {
    for fails in fails {
        match *fails {
            Fails::Disk(call, number) => bay.fail_disk("meta", call, number)?,
            Fails::Bay(call, number) => bay.fail(call, number)?,
            Fails::Take(number) => source.fail(number)?,
            Fails::Give(number, taken) => sink.fail(number, taken)?,
        }
    }
    Ok(())
}

/// Whether a call over a bay answers what it says.
fn answers(alloc: Global, call: &Call<'_>, bay: &mut MemBay) -> Result<bool, Fail> {
    let mut source = TextSource::new(alloc, call.sent.as_bytes())?;
    let mut sink = TextSink::new(alloc);
    set_fails(call.fails, &mut source, &mut sink, bay)?;
    let mut words = Vec::new(alloc);
    for word in call.words {
        words.push(String::from_str(alloc, word)?)?;
    }
    let status = era_tool(alloc, words.as_slice(), &mut source, &mut sink, bay);
    Ok(status == call.status && sink.given() == call.text.as_bytes())
}

/// Whether all calls of a row answer what they say.
fn is_met(alloc: Global, row: &ToolRow<'_>) -> Result<bool, Fail> {
    let mut bay = MemBay::new(alloc);
    bay.add("meta", row.meta)?;
    for call in row.calls {
        if !answers(alloc, call, &mut bay)? {
            return Ok(false);
        }
    }
    Ok(true)
}

/// What the first row shows that isn't met, or `None`.
fn first_unmet<'a>(alloc: Global, rows: &[ToolRow<'a>]) -> Result<Option<&'a str>, Fail> {
    for row in rows {
        if !is_met(alloc, row)? {
            return Ok(Some(row.shows));
        }
    }
    Ok(None)
}

#[test]
fn images_are_restored_and_told(rt: HostRuntime) -> Result<(), Fail> {
    let unmet = first_unmet(rt.alloc(), IMAGES.as_slice())?;
    assert_eq!(rt; unmet, None);
    Ok(())
}

#[test]
fn refused_restores_leave_the_image(rt: HostRuntime) -> Result<(), Fail> {
    let unmet = first_unmet(rt.alloc(), REFUSALS.as_slice())?;
    assert_eq!(rt; unmet, None);
    Ok(())
}

#[test]
fn unwritten_output_is_told(rt: HostRuntime) -> Result<(), Fail> {
    let unmet = first_unmet(rt.alloc(), SINKS.as_slice())?;
    assert_eq!(rt; unmet, None);
    Ok(())
}
