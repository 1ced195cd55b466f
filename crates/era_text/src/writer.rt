//! Writes the dump text of marks. Text goes out in pieces; only the logical dump takes memory.

ghost use Rattle.std.specs.Prelude.{◌≡◌, ◌++◌, List, ℕ, Some, codes, true, MatchResult, IsErrOf};
ghost use Rattle.era_base.specs.Faults.{HasCause};
ghost use Rattle.era_line.specs.TextBuffer.{Adds};
ghost use Rattle.era_text.specs.Pieces.{ended, lines_text_of, set_text, sets_text, current_text, lists_text};
ghost use Rattle.era_text.specs.Dumps.{AreSetRuns, dumped_marks};
ghost use Rattle.era_text.specs.Written.{GivesDump, HasWriteCause};

use crate::lines::{give_array, give_head, give_runs, give_set_line};
use crate::merge::fold;
use crate::text_end::TextEnd;
use era_base::{Failed, Geometry, Sink};
use era_line::TextBuffer;
use era_model::{MarkedSet, Marks};
use std::alloc::Global;

/// Gives the lines of an archived set.
fn give_set<K: Sink>(text: &mut TextBuffer, sink: &mut K, set: &MarkedSet) -> Result<(), Failed>
    ensures added { Adds (K.given sink.old) text.old (K.given sink.new) text.new
        (set_text set.now) result }
    ensures cause { HasCause (K.faults sink.old) (K.faults sink.new) result }
{
    let Ok(()) = give_set_line(text, sink, set.era) else {
        return Err(Failed);
    };
    give_runs(text, sink, set.blocks.as_slice())
}

/// Gives the lines of archived sets.
fn give_sets<K: Sink>(text: &mut TextBuffer, sink: &mut K, sets: &[MarkedSet]) -> Result<(), Failed>
    ensures added { Adds (K.given sink.old) text.old (K.given sink.new) text.new
        (sets_text sets.now) result }
    ensures cause { HasCause (K.faults sink.old) (K.faults sink.new) result }
{
    for set in sets {
        let Ok(()) = give_set(text, sink, set) else {
            return Err(Failed);
        };
    }
    Ok(())
}

/// Gives the lines of the current set, up to the end.
fn give_current<K: Sink>(
    text: &mut TextBuffer,
    sink: &mut K,
    runs: &[(u32, u32)],
) -> Result<(), Failed>
    ensures added { Adds (K.given sink.old) text.old (K.given sink.new) text.new
        (current_text runs.now) result }
    ensures cause { HasCause (K.faults sink.old) (K.faults sink.new) result }
{
    let Ok(()) = text.add(sink, b"current\n") else {
        return Err(Failed);
    };
    let Ok(()) = give_runs(text, sink, runs) else {
        return Err(Failed);
    };
    text.add(sink, b"end\n")
}

/// Gives all lines of a dump.
fn give_lists<K: Sink>(
    text: &mut TextBuffer,
    sink: &mut K,
    head: (&Geometry, u32),
    array: &[(u32, u32, u32)],
    archive: &[MarkedSet],
    current: &[(u32, u32)],
) -> Result<(), Failed>
    ensures added { Adds (K.given sink.old) text.old (K.given sink.new) text.new
        (lists_text head.entry.0.now.sectors head.entry.0.now.block_sectors head.entry.1
        array.now archive.now current.now) result }
    ensures cause { HasCause (K.faults sink.old) (K.faults sink.new) result }
{
    let Ok(()) = give_head(text, sink, head.0, head.1) else {
        return Err(Failed);
    };
    let Ok(()) = give_array(text, sink, array) else {
        return Err(Failed);
    };
    let Ok(()) = give_sets(text, sink, archive) else {
        return Err(Failed);
    };
    give_current(text, sink, current)
}

/// Looks at the runs of each set, which are maximal by their type. It does nothing else.
fn see_runs(sets: &[MarkedSet])
    ensures { AreSetRuns sets.now }
{
    for set in sets {
        let _runs = set.blocks.as_slice();
    }
}

/// Writes the dump of marks as they are.
fn write_marks<K: Sink>(marks: &Marks, sink: &mut K) -> Result<(), TextEnd>
    ensures given { GivesDump marks.now (K.given sink.old) (K.given sink.new) result }
    ensures memory { IsErrOf result TextEnd.Memory → ⊥ }
    ensures cause { HasWriteCause (K.faults sink.old) (K.faults sink.new) result }
{
    see_runs(marks.archive.as_slice());
    let mut text = TextBuffer::new();
    let Ok(()) = give_lists(
        &mut text,
        sink,
        (&marks.geometry, marks.era),
        marks.array.as_slice(),
        marks.archive.as_slice(),
        marks.current.as_slice(),
    ) else {
        return Err(TextEnd::Sink(sink.faults()));
    };
    let Ok(()) = text.flush(sink) else {
        return Err(TextEnd::Sink(sink.faults()));
    };
    Ok(())
}

/// Writes the dump of marks: as they are, or for the logical dump with the archived sets merged into the era array.
/// Where the sink fails it was given a front of the text; where memory is refused, which only a logical dump asks
/// for, it was given nothing.
pub fn write_dump<K: Sink>(
    alloc: Global,
    marks: &Marks,
    logical: bool,
    sink: &mut K,
) -> Result<(), TextEnd>
    ensures given { GivesDump (dumped_marks marks.now logical)
        (K.given sink.old) (K.given sink.new) result }
    ensures memory { IsErrOf result TextEnd.Memory → logical ≡ true }
    ensures cause { HasWriteCause (K.faults sink.old) (K.faults sink.new) result }
{
    if !logical {
        return write_marks(marks, sink);
    }
    let Ok(folded) = fold(alloc, marks) else {
        return Err(TextEnd::Memory);
    };
    write_marks(&folded, sink)
}
