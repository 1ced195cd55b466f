//! Gives the lines of a dump. It takes no memory.

ghost use Rattle.std.specs.Prelude.{◌++◌, codes};
ghost use Rattle.era_base.specs.Faults.{HasCause};
ghost use Rattle.era_line.specs.TextBuffer.{Adds};
ghost use Rattle.era_text.specs.DumpLines.{era_run_line, head_line, run_line, set_line};
ghost use Rattle.era_text.specs.Pieces.{ended, lines_text_of};

use era_base::{Failed, Geometry, Sink};
use era_line::{Part, TextBuffer, give_parts};

/// Gives the first line, and the line before the array.
pub fn give_head<K: Sink>(
    text: &mut TextBuffer,
    sink: &mut K,
    geometry: &Geometry,
    era: u32,
) -> Result<(), Failed>
    ensures added { Adds (K.given sink.old) text.old (K.given sink.new) text.new
        (ended (head_line geometry.now.sectors geometry.now.block_sectors era)
        ++ codes "array\n") result }
    ensures cause { HasCause (K.faults sink.old) (K.faults sink.new) result }
{
    give_parts(
        text,
        sink,
        &[
            Part::Text(b"eradump 1 "),
            Part::Number(geometry.sectors()),
            Part::Text(b" "),
            Part::Number(u64::from(geometry.block_sectors())),
            Part::Text(b" "),
            Part::Number(u64::from(era)),
            Part::Text(b"\narray\n"),
        ],
    )
}

/// Gives the line of a run of the array.
fn give_era_run<K: Sink>(
    text: &mut TextBuffer,
    sink: &mut K,
    run: (u32, u32, u32),
) -> Result<(), Failed>
    ensures added { Adds (K.given sink.old) text.old (K.given sink.new) text.new
        (ended (era_run_line run)) result }
    ensures cause { HasCause (K.faults sink.old) (K.faults sink.new) result }
{
    give_parts(
        text,
        sink,
        &[
            Part::Number(u64::from(run.0)),
            Part::Text(b" "),
            Part::Number(u64::from(run.1)),
            Part::Text(b" "),
            Part::Number(u64::from(run.2)),
            Part::Text(b"\n"),
        ],
    )
}

/// Gives the line of a run of a set.
fn give_run<K: Sink>(text: &mut TextBuffer, sink: &mut K, run: (u32, u32)) -> Result<(), Failed>
    ensures added { Adds (K.given sink.old) text.old (K.given sink.new) text.new
        (ended (run_line run)) result }
    ensures cause { HasCause (K.faults sink.old) (K.faults sink.new) result }
{
    give_parts(
        text,
        sink,
        &[
            Part::Number(u64::from(run.0)),
            Part::Text(b" "),
            Part::Number(u64::from(run.1)),
            Part::Text(b"\n"),
        ],
    )
}

/// Gives the line before the runs of an archived set.
pub fn give_set_line<K: Sink>(text: &mut TextBuffer, sink: &mut K, era: u32) -> Result<(), Failed>
    ensures added { Adds (K.given sink.old) text.old (K.given sink.new) text.new
        (ended (set_line era)) result }
    ensures cause { HasCause (K.faults sink.old) (K.faults sink.new) result }
{
    give_parts(
        text,
        sink,
        &[
            Part::Text(b"set "),
            Part::Number(u64::from(era)),
            Part::Text(b"\n"),
        ],
    )
}

/// Gives the lines of the runs of the array.
pub fn give_array<K: Sink>(
    text: &mut TextBuffer,
    sink: &mut K,
    runs: &[(u32, u32, u32)],
) -> Result<(), Failed>
    ensures added { Adds (K.given sink.old) text.old (K.given sink.new) text.new
        (lines_text_of era_run_line runs.now) result }
    ensures cause { HasCause (K.faults sink.old) (K.faults sink.new) result }
{
    for run in runs {
        let Ok(()) = give_era_run(text, sink, *run) else {
            return Err(Failed);
        };
    }
    Ok(())
}

/// Gives the lines of the runs of a set.
pub fn give_runs<K: Sink>(
    text: &mut TextBuffer,
    sink: &mut K,
    runs: &[(u32, u32)],
) -> Result<(), Failed>
    ensures added { Adds (K.given sink.old) text.old (K.given sink.new) text.new
        (lines_text_of run_line runs.now) result }
    ensures cause { HasCause (K.faults sink.old) (K.faults sink.new) result }
{
    for run in runs {
        let Ok(()) = give_run(text, sink, *run) else {
            return Err(Failed);
        };
    }
    Ok(())
}
