//! Answers all cases: those of the program, which are its top call over a shelf and a sink in memory, and calls of a
//! production; and those of values and of the language, whose answers are in crates of their own.
//!
//! `data/` holds the cases, and `stdout` what must come of them by the rules that their files name. The folder of a file
//! says of what its cases are, and for cases of the program the module of the same name says what is written of them.
#![tactic(auto)]

mod program;
mod rounds;

use anyhow::{Result, bail};
use case_files::lines::answer_file;
use serde_json::Value as Json;
use std::alloc::Global;
use std::env;
use std::marker::Sync;
use std::rt::Files;
use std::sync::Wait;
use std::thread::Threads;

fn answer_cases<R: AllocGlobal + Files + Print + Threads + Wait + Sync>(
    rt: &R,
    name: &str,
) -> Result<()> {
    let Some((folder, _)) = name.split_once("/") else {
        bail!("{name} is in no folder");
    };
    match folder {
        "values" => answer_file(
            rt,
            name,
            &|alloc: Global, call: &str, words: &[Json]| {
                value_cases::answer(rt, alloc, call, words)
            },
        ),
        "program" => program::run_file(rt, name),
        "rounds" => answer_file(
            rt,
            name,
            &|alloc: Global, script: &str, words: &[Json]| {
                rounds::answer(rt, alloc, script, words)
            },
        ),
        _ => language_cases::answer_cases(rt, folder, name),
    }
}

fn main(rt: HostRuntime) -> Result<()> {
    for name in env::args(&rt)?.skip(1) {
        answer_cases(&rt, name.as_str())?;
    }
    Ok(())
}
