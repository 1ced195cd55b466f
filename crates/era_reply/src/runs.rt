//! Gives lists of blocks as their runs. It takes no memory.

ghost use Rattle.std.specs.Prelude.{◌≡◌, ◌++◌, codes};
ghost use Rattle.era_base.specs.Faults.{HasCause};
ghost use Rattle.era_line.specs.TextBuffer.{Adds};
ghost use Rattle.era_model.specs.Transcript.{more_runs_text, run_text, runs_text};

use era_base::{Failed, Sink};
use era_line::Part::{Number, Text};
use era_line::{TextBuffer, give_parts};

/// Gives a run of blocks: its first and its last one, or the one that it has.
fn give_run<K: Sink>(
    text: &mut TextBuffer,
    sink: &mut K,
    first: u32,
    last: u32,
) -> Result<(), Failed>
    ensures added { Adds (K.given sink.old) text.old (K.given sink.new) text.new
        (run_text (first, last)) result }
    ensures cause { HasCause (K.faults sink.old) (K.faults sink.new) result }
{
    if first == last {
        give_parts(text, sink, &[Number(u64::from(first))])
    } else {
        give_parts(
            text,
            sink,
            &[
                Number(u64::from(first)),
                Text(b"-"),
                Number(u64::from(last)),
            ],
        )
    }
}

/// Gives a further run, behind a comma.
fn give_next_run<K: Sink>(
    text: &mut TextBuffer,
    sink: &mut K,
    first: u32,
    last: u32,
) -> Result<(), Failed>
    ensures added { Adds (K.given sink.old) text.old (K.given sink.new) text.new
        (codes "," ++ run_text (first, last)) result }
    ensures cause { HasCause (K.faults sink.old) (K.faults sink.new) result }
{
    let Ok(()) = text.add(sink, b",") else {
        return Err(Failed);
    };
    give_run(text, sink, first, last)
}

/// Gives further runs, each behind a comma.
fn give_more_runs<K: Sink>(
    text: &mut TextBuffer,
    sink: &mut K,
    runs: &[(u32, u32)],
) -> Result<(), Failed>
    ensures added { Adds (K.given sink.old) text.old (K.given sink.new) text.new
        (more_runs_text runs.now) result }
    ensures cause { HasCause (K.faults sink.old) (K.faults sink.new) result }
{
    for run in runs {
        let Ok(()) = give_next_run(text, sink, run.0, run.1) else {
            return Err(Failed);
        };
    }
    Ok(())
}

/// Gives runs of blocks, joined by commas, and a dash where there are none.
pub fn give_runs<K: Sink>(
    text: &mut TextBuffer,
    sink: &mut K,
    runs: &[(u32, u32)],
) -> Result<(), Failed>
    ensures added { Adds (K.given sink.old) text.old (K.given sink.new) text.new
        (runs_text runs.now) result }
    ensures cause { HasCause (K.faults sink.old) (K.faults sink.new) result }
{
    let Some((run, more)) = runs.split_first() else {
        return text.add(sink, b"-");
    };
    let Ok(()) = give_run(text, sink, run.0, run.1) else {
        return Err(Failed);
    };
    give_more_runs(text, sink, more)
}
