//! The program vtlprod: it makes the real shelf, sink and gate, and runs the top call on them.
//!
//! The contract of `run_vtlprod`, of the crate `commands`, says what is written and with which status the program ends.
#![tactic(auto)]

ghost use Rattle.std.specs.Prelude.{◌≡◌};
ghost use Rattle.std.specs.Process.{exit_status};

use commands::call::{Outcome, run_vtlprod};
use outside::{FolderShelf, OpenGate, StdoutSink};
use std::process::ExitCode;
use std::{env, io};
use vtl_values::Word;

// The words after the program's name.
fn arguments(rt: &HostRuntime) -> io::Result<Vec<String>> {
    let mut words = Vec::new(rt.alloc());
    for word in env::args(rt)?.skip(1) {
        words.push(word)?;
    }
    Ok(words)
}

// The code that the process ends with: the status of the outcome.
fn exit_code(outcome: Outcome) -> ExitCode
    ensures { exit_status result ≡ outcome.status }
{
    ExitCode::from(outcome.into_status())
}

fn main(rt: HostRuntime) -> ExitCode {
    let (Ok(words), Ok(last)) = (arguments(&rt), Word::from_str(rt.alloc(), "")) else {
        return ExitCode::from(7);
    };
    let mut shelf = FolderShelf {
        rt: &rt,
        faults: 0,
        last,
        kept: 0,
    };
    let mut out = StdoutSink {
        inner: rt.stdout(),
        faults: 0,
    };
    exit_code(run_vtlprod(&rt, &words, &mut shelf, &mut out, &OpenGate))
}
