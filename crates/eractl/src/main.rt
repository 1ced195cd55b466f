//! The program: one command over image files and the standard streams. Standard output holds only what the command
//! answers; standard error says in words what an answer means, and why a file or a stream failed first.
#![tactic(auto)]

mod explain;

ghost use Rattle.std.specs.Prelude.{◌≡◌, ◌≢◌, ◌⊎◌, ℕ, List, ◌++◌, Some};
ghost use Rattle.era_base.specs.Streams.{GivesFront};
ghost use Rattle.era_top.specs.Top.{EndsBySink};

use era_base::Sink;
use era_disks::{FileBay, FreePace, StdSink, StdSource};
use era_top::era_top;
use explain::words_for;
use std::process::ExitCode;
use std::{env, io};

/// Why there are no words to run.
#[derive(Clone, Copy, Debug)]
enum NoWords {
    /// A word isn't text.
    Usage,
    /// Memory was refused.
    Memory,
}

fn main(rt: HostRuntime) -> ExitCode {
    let mut source = StdSource::new(rt.stdin());
    let mut sink = StdSink::new(rt.stdout());
    let mut bay = FileBay::new(rt, rt.alloc());
    let status = match words_of(&rt) {
        Ok(words) => {
            let words = words.as_slice();
            era_top(
                &rt,
                rt.alloc(),
                words,
                &mut source,
                &mut sink,
                &mut bay,
                &FreePace,
            )
        }
        Err(NoWords::Usage) => answer(&mut sink, "refused Usage\n", 2),
        Err(NoWords::Memory) => answer(&mut sink, "memory\n", 5),
    };
    if let Some(words) = words_for(status, sink.lines()) {
        let _ = eprintln!(rt; "eractl: {words}");
    }
    if let Some((name, reason)) = bay.first_failure() {
        let _ = eprintln!(rt; "eractl: {}: {reason}", name.as_str());
    }
    tell(&rt, "standard input", source.first_failure());
    tell(&rt, "standard output", sink.first_failure());
    ExitCode::from(status)
}

/// The words behind the program's name.
fn words_of<R: env::Env + AllocGlobal>(rt: &R) -> Result<Vec<String>, NoWords> {
    match env::args(rt) {
        Ok(args) => match args.skip(1).collect::<Vec<String>>(rt.alloc()) {
            Ok(words) => Ok(words),
            Err(_) => Err(NoWords::Memory),
        },
        Err(reason) if reason.kind() == io::ErrorKind::OutOfMemory => Err(NoWords::Memory),
        Err(_) => Err(NoWords::Usage),
    }
}

/// Gives an answer that needs no device: the status where all of the text was given; 8 exactly where the sink failed,
/// whose count of faults rose, after a front of the text.
fn answer<K: Sink>(sink: &mut K, text: &str, status: u8) -> u8
    requires { status ≢ 8 }
    ensures number { (result ≡ status) ⊎ (result ≡ 8) }
    ensures given { (before : List ℕ) → K.given sink.old ≡ Some before → result ≡ status
        → K.given sink.new ≡ Some (before ++ text.now) }
    ensures front { (before : List ℕ) → K.given sink.old ≡ Some before → result ≡ 8
        → GivesFront before text.now (K.given sink.new) }
    ensures sink { EndsBySink (K.faults sink.old) (K.faults sink.new) result }
{
    match sink.give(text.as_bytes()) {
        Ok(()) => status,
        Err(_) => 8,
    }
}

/// One line on standard error where a stream has failed.
fn tell<R: Eprint>(rt: &R, name: &str, failure: Option<io::Error>) {
    if let Some(reason) = failure {
        let _ = eprintln!(rt; "eractl: {name}: {reason}");
    }
}
