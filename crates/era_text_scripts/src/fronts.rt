//! Fronts of dump texts, behind which lines are tried.

/// The first line: 64 blocks in era 5.
pub const HEAD: &str = "eradump 1 512 8 5\n";

/// Behind a run of the array.
pub const ARRAY: &str = "eradump 1 512 8 5\narray\n0 1 3\n";

/// Behind a run of an archived set.
pub const SET: &str = "eradump 1 512 8 5\narray\n0 1 3\nset 3\n0 1\n";

/// Behind a run of the current set.
pub const CURRENT: &str = "eradump 1 512 8 5\narray\ncurrent\n0 1\n";

/// Behind the last line.
pub const ENDED: &str = "eradump 1 512 8 5\narray\ncurrent\nend\n";

/// Behind sixteen archived sets, in era 99.
pub const SIXTEEN: &str = "eradump 1 512 8 99\narray\nset 1\nset 2\nset 3\nset 4\nset 5\nset 6\n\
    set 7\nset 8\nset 9\nset 10\nset 11\nset 12\nset 13\nset 14\nset 15\nset 16\n";
