//! Gives lists of blocks, a line for each run. It takes no memory.

ghost use Rattle.std.specs.Prelude.{◌≡◌, ◌<◌, ◌≤◌, ◌^◌};
ghost use Rattle.era_base.specs.Faults.{HasCause};
ghost use Rattle.era_base.specs.Runs.{AreRuns};
ghost use Rattle.era_line.specs.TextBuffer.{Adds};
ghost use Rattle.era_tools.specs.Printing.{HasSinkCause, Prints};
ghost use Rattle.era_tools.specs.ToolLines.{block_count, blocks_line, blocks_text, run_line, run_lines};

use crate::status::Status;
use era_base::{Failed, Runs, Sink};
use era_line::Part::{Number, Text};
use era_line::{TextBuffer, give_parts};

/// How many blocks runs have.
fn count_blocks(runs: &[(u32, u32)]) -> u64
    requires { AreRuns runs.now }
    ensures { result ≡ block_count runs.now }
{
    let mut count: u64 = 0;
    for run in runs {
        count += u64::from(run.1) + 1 - u64::from(run.0);
    }
    count
}

/// Gives the line of a run: its first and its last block, or the one that it has.
fn give_run<K: Sink>(text: &mut TextBuffer, sink: &mut K, run: (u32, u32)) -> Result<(), Failed>
    ensures added { Adds (K.given sink.old) text.old (K.given sink.new) text.new
        (run_line run) result }
    ensures cause { HasCause (K.faults sink.old) (K.faults sink.new) result }
{
    if run.0 == run.1 {
        give_parts(text, sink, &[Number(u64::from(run.0)), Text(b"\n")])
    } else {
        give_parts(
            text,
            sink,
            &[
                Number(u64::from(run.0)),
                Text(b"-"),
                Number(u64::from(run.1)),
                Text(b"\n"),
            ],
        )
    }
}

/// Gives the lines of runs.
fn give_runs<K: Sink>(
    text: &mut TextBuffer,
    sink: &mut K,
    runs: &[(u32, u32)],
) -> Result<(), Failed>
    ensures added { Adds (K.given sink.old) text.old (K.given sink.new) text.new
        (run_lines runs.now) result }
    ensures cause { HasCause (K.faults sink.old) (K.faults sink.new) result }
{
    for run in runs {
        let Ok(()) = give_run(text, sink, *run) else {
            return Err(Failed);
        };
    }
    Ok(())
}

/// Gives the number of blocks, and the lines of their runs.
fn give_blocks<K: Sink>(
    text: &mut TextBuffer,
    sink: &mut K,
    runs: &[(u32, u32)],
) -> Result<(), Failed>
    requires { AreRuns runs.now }
    ensures added { Adds (K.given sink.old) text.old (K.given sink.new) text.new
        (blocks_text runs.now) result }
    ensures cause { HasCause (K.faults sink.old) (K.faults sink.new) result }
{
    let count = count_blocks(runs);
    let Ok(()) = give_parts(text, sink, &[Text(b"blocks "), Number(count), Text(b"\n")]) else {
        return Err(Failed);
    };
    give_runs(text, sink, runs)
}

/// Gives a list of blocks: how many they are, and a line for each of their runs.
pub fn print_blocks<K: Sink>(sink: &mut K, runs: &Runs) -> Status
    ensures printed { Prints (K.given sink.old) (K.given sink.new)
        (blocks_text runs.now) Status.Done result }
    ensures sink { HasSinkCause (K.faults sink.old) (K.faults sink.new) result }
{
    let mut text = TextBuffer::new();
    let Ok(()) = give_blocks(&mut text, sink, runs.as_slice()) else {
        return Status::Sink;
    };
    let Ok(()) = text.flush(sink) else {
        return Status::Sink;
    };
    Status::Done
}
