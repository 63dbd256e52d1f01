// Cases of the top call, over a shelf and a sink in memory. A file has sections:
//
// - `words`: the words of the program, one a line;
// - `file NAME`: the bytes that the shelf has under the name;
// - `shelf fails at`, `sink fails at`: the numbers of their calls that fail, from 0, one a line;
// - `case TITLE`: the sections up to the next of these are those of a case, beside the ones before the first.
//
// Of a case its title, the status and the bytes that the sink took are written.
mod setup;

use crate::program::setup::Setup;
use anyhow::Result;
use case_files::sections::{Section, sections};
use commands::call::run_vtlprod;
use outside::{MemoryShelf, MemorySink, OpenGate};
use std::marker::Sync;
use std::rt::Files;
use std::sync::Wait;
use std::thread::Threads;
use std::{fs, str};
use vtl_values::Word;

fn run_case<R: AllocGlobal + Print + Threads + Wait + Sync>(rt: &R, setup: Setup) -> Result<()> {
    let mut shelf = MemoryShelf {
        files: setup.files,
        calls: 0,
        fail_at: setup.shelf_fails,
        faults: 0,
        last: Word::from_str(rt.alloc(), "")?,
        kept: 0,
    };
    let mut sink = MemorySink {
        taken: Vec::new(rt.alloc()),
        calls: 0,
        fail_at: setup.sink_fails,
        faults: 0,
    };
    let outcome = run_vtlprod(rt, &setup.words, &mut shelf, &mut sink, &OpenGate);
    let (title, status) = (setup.title.as_str(), outcome.into_status());
    println!(rt; "==== {title}\nstatus {status}")?;
    let taken = str::from_utf8(sink.taken.as_slice())?;
    print!(rt; "{taken}")?;
    Ok(())
}

// The cases of a file: those sections that begin with the title of a case, beside the common ones.
fn run_cases<R: AllocGlobal + Print + Threads + Wait + Sync>(
    rt: &R,
    sections: &[Section],
) -> Result<()> {
    let mut common: &[Section] = &[];
    for part in sections.chunk_by(|_, next| !next.title.starts_with("case ")) {
        if part
            .iter()
            .any(|section| section.title.starts_with("case "))
        {
            run_case(rt, Setup::of(rt.alloc(), common, part)?)?;
        } else {
            common = part;
        }
    }
    Ok(())
}

/// Writes the rule of a file, and what comes of each of its cases.
pub fn run_file<R: AllocGlobal + Files + Print + Threads + Wait + Sync>(
    rt: &R,
    name: &str,
) -> Result<()> {
    let bytes = fs::read(rt, name)?;
    let sections = sections(rt.alloc(), bytes.as_slice())?;
    if let Some(first) = sections.first() {
        let rule = str::from_utf8(first.body.as_slice())?;
        print!(rt; "{rule}")?;
    }
    run_cases(rt, sections.as_slice())
}
