//! Cases of values and of data: how values are read, written and ordered, arithmetic on numbers, operators on texts,
//! patterns, the combination of viral codes, structure files, held operands, and the real shelf and sink.
//!
//! The cases themselves are data of the program that answers them (`program_cases`).
#![tactic(auto)]

mod decimals;
mod edges;
mod held;
mod structures;
mod texts;
mod values;
mod viral;

use anyhow::{Result, bail};
use serde_json::Value;
use std::alloc::Global;
use std::rt::Files;

/// The answer of the call that a case names. An error tells what the case lacks, or that there is no such call.
pub fn answer<R: Files>(rt: &R, alloc: Global, call: &str, words: &[Value]) -> Result<String> {
    match call {
        "files" => edges::files(rt, alloc, words),
        "writes" => edges::writes(alloc, words),
        "held" => held::answer(alloc, words),
        "read" => values::read(alloc, words),
        "order" => values::order(alloc, words),
        "combine" => viral::combined(alloc, words),
        "structures" => structures::structures(alloc, words),
        "many sets" => structures::many_sets(alloc, words),
        "many components" => structures::many_components(alloc, words),
        "+" | "-" | "*" | "/" | "mod" => decimals::two(alloc, call, words),
        "ratio" => decimals::share(alloc, words),
        "mean" => decimals::mean_of(alloc, words),
        "ceil" | "floor" => decimals::whole(alloc, call, words),
        "round" | "trunc" => decimals::places(alloc, call, words),
        _ => text_answer(alloc, call, words),
    }
}

fn text_answer(alloc: Global, call: &str, words: &[Value]) -> Result<String> {
    match call {
        "trim" | "ltrim" | "rtrim" | "upper" | "lower" => texts::one(alloc, call, words),
        "length" | "instr" => texts::counted(alloc, call, words),
        "||" => texts::joined(alloc, words),
        "substr" => texts::part(alloc, words),
        "replace" => texts::replaced(alloc, words),
        "match_characters" => texts::matched(alloc, words),
        _ => bail!("no call {call}"),
    }
}
