//! The replay program. `replay` replays a trace of allocations, frees and names, and prints a table in the manner of `vmstat -z`. `steps`
//! plays a schedule of the reclamation clock, and prints what each step sees. `gen` makes a trace from a number. `bulk` replays such a
//! trace, and prints what no schedule changes.
//!
//! ```
//! ./umarun replay < examples/box.trace
//! ./umarun gen 7 4 1000 > made.trace
//! ```
//!
//! # What is promised
//!
//! - A run prints exactly the text of its command (`run`: `replay`, `steps`, `made`, `bulk`), and ends with the status of its fault
//!   (`ends`).
//! - Every replay obeys the rule of safe reuse: an item that is freed in a zone with readers comes back only after the sections that were
//!   open at its free have ended (`run`: `headline`).
//!
//! `run` may return `Memory` for any words, because `clap`'s calls allocate.
#![tactic(auto)]

ghost use Rattle.std.specs.Prelude.{◌≡◌, ◌≢◌};
ghost use Rattle.std.specs.Process.{exit_status};
ghost use Rattle.umarun.specs.Ending.{exit_code};

mod bulk;
mod cache_names;
mod fault;
mod reclaim;
mod replaying;
mod run;
mod summary;

use fault::Fault;
use replaying::{Ending, Finish};
use run::run;
use std::io::ErrorKind;
use std::process::ExitCode;
use std::rt::Env;
use std::sync::Wait;
use std::thread::Threads;
use std::{env, io};
use uma_io::{StdSink, StdSource};
use uma_replay::FreeGate;

fn main(rt: HostRuntime) -> ExitCode {
    end(&rt, &program(&rt))
}

/// Tells standard error the fault of the run, if there is one, and answers how the process ends.
fn end<R: Eprint>(rt: &R, finish: &Finish) -> ExitCode
    ensures { exit_status result ≡ exit_code finish.now.status }
{
    let Ending { code, told } = finish.ending();
    if let Some(fault) = told {
        // Where standard error takes nothing either, the exit status alone tells.
        let _ = eprintln!(rt; "umarun: {fault}");
    }
    ExitCode::from(code)
}

/// Runs on the words and the standard streams of the process.
fn program<R: Env + AllocGlobal + Input + Print + Threads + Wait + Sync>(rt: &R) -> Finish {
    match words(rt) {
        Ok(words) => {
            let mut source = StdSource::new(rt.reader());
            let mut sink = StdSink::new(io::writer(rt));
            run(rt, rt.alloc(), &words, &mut source, &mut sink, &FreeGate)
        }
        Err(fault) => Finish::refused(fault),
    }
}

/// The words after the program's name.
fn words<R: Env + AllocGlobal>(rt: &R) -> Result<Vec<String>, Fault> {
    let args = env::args(rt).map_err(|error| words_fault(error.kind()))?;
    Ok(args.skip(1).collect(rt.alloc())?)
}

/// Why the words weren't taken. One that is no UTF-8 is no command's; else memory was wanting.
fn words_fault(kind: ErrorKind) -> Fault
    ensures usage { kind ≡ ErrorKind.InvalidData → result ≡ Fault.Usage }
    ensures memory { kind ≢ ErrorKind.InvalidData → result ≡ Fault.Memory }
{
    match kind {
        ErrorKind::InvalidData => Fault::Usage,
        _ => Fault::Memory,
    }
}
