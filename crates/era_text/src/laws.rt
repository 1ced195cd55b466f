//! What holds of dumps whatever reads or writes them. The functions do nothing; their clauses are the laws.

ghost use Rattle.era_text.specs.DumpLaws.{DumpsReadBack, HaveOneDump, LogicalDumpsReadBack, MergingKeepsLasts, ReadMarksAreValid, ReadOneWay};

/// The dump of valid marks is read as these marks.
pub fn dump_reads_back()
    ensures { DumpsReadBack }
{}

/// Lines are read as one marks at most: what the dump of marks is read as is nothing else.
pub fn lines_are_read_one_way()
    ensures { ReadOneWay }
{}

/// Marks have one dump: its runs are maximal, and such runs are known by their blocks.
pub fn marks_have_one_dump()
    ensures { HaveOneDump }
{}

/// The marks of a logical dump are valid, and the last marked era of each block is as before.
pub fn merging_keeps_last_eras()
    ensures { MergingKeepsLasts }
{}

/// The logical dump of valid marks is read as the merged marks.
pub fn logical_dump_reads_back()
    ensures { LogicalDumpsReadBack }
{}

/// What lines are read as are valid marks of a metadata image.
pub fn read_marks_are_valid()
    ensures { ReadMarksAreValid }
{}
