//! Whole dumps: each is read, and written again as it was.

use crate::texts::rewrite;
use std::test::*;

/// Texts that are written again as they were.
static WHOLE: [&str; 7] = [
    "eradump 1 512 8 2\narray\nset 1\n0 1\n5 5\ncurrent\n1 1\nend\n",
    "eradump 1 512 8 2\narray\n0 1 1\n5 5 1\ncurrent\n1 1\nend\n",
    "eradump 1 512 8 1\narray\ncurrent\nend\n",
    "eradump 1 1 128 4294967295\narray\n0 0 4294967294\ncurrent\n0 0\nend\n",
    "eradump 1 8388608 128 2\narray\n0 65535 1\nset 1\n0 65535\ncurrent\n0 65535\nend\n",
    "eradump 1 512 8 5\narray\n0 0 3\n1 3 2\n4 4 3\n6 6 3\nset 3\nset 4\ncurrent\n0 0\n2 2\nend\n",
    "eradump 1 512 8 17\narray\n63 63 1\nset 1\nset 2\nset 3\nset 4\nset 5\nset 6\nset 7\nset 8\n\
    set 9\nset 10\nset 11\nset 12\nset 13\nset 14\nset 15\nset 16\n0 63\ncurrent\nend\n",
];

/// Texts, and the logical dumps of what they spell.
static LOGICAL: [(&str, &str); 4] = [
    (
        "eradump 1 512 8 2\narray\nset 1\n0 1\n5 5\ncurrent\n1 1\nend\n",
        "eradump 1 512 8 2\narray\n0 1 1\n5 5 1\ncurrent\n1 1\nend\n",
    ),
    (
        "eradump 1 512 8 9\narray\n0 3 1\nset 3\n1 1\nset 7\n1 2\n63 63\ncurrent\nend",
        "eradump 1 512 8 9\narray\n0 0 1\n1 2 7\n3 3 1\n63 63 7\ncurrent\nend\n",
    ),
    (
        "eradump 1 512 8 4\narray\nset 2\n0 0\nset 3\n0 0\ncurrent\nend\n",
        "eradump 1 512 8 4\narray\n0 0 3\ncurrent\nend\n",
    ),
    (
        "eradump 1 512 8 4\narray\n5 6 3\nset 3\n7 9\ncurrent\n3 3\nend\n",
        "eradump 1 512 8 4\narray\n5 9 3\ncurrent\n3 3\nend\n",
    ),
];

#[test]
fn whole_dumps_are_written_again(rt: HostRuntime) -> Result<(), Fail> {
    for text in &WHOLE {
        let sink = rewrite(rt.alloc(), text, false)?;
        assert_eq!(rt; sink.given(), text.as_bytes(), "at {text}");
    }
    Ok(())
}

#[test]
fn logical_dumps_keep_last_eras(rt: HostRuntime) -> Result<(), Fail> {
    for (text, logical) in &LOGICAL {
        let sink = rewrite(rt.alloc(), text, true)?;
        assert_eq!(rt; sink.given(), logical.as_bytes(), "at {text}");
    }
    Ok(())
}
