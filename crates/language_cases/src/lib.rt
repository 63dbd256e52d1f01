//! Cases of the language: scripts and their faults, scalar expressions, and expressions on data sets.
//!
//! The cases themselves are data of the program that answers them (`program_cases`). The folder of a file says of what its
//! cases are, and the module of the same name what is written of them.
#![tactic(auto)]

mod data_sets;
mod expressions;
mod parsing;
mod scripts;
mod words;

use anyhow::{Result, bail};
use case_files::lines::answer_file;
use serde_json::Value as Json;
use std::alloc::Global;
use std::fs;
use std::rt::Files;
use structure_files::read_structures;
use vtl_values::Structures;

// The structures of the data sets that cases are on.
fn case_structures<R: AllocGlobal + Files>(rt: &R) -> Result<Structures> {
    let bytes = fs::read(rt, "data_sets/structures.json")?;
    match read_structures(rt.alloc(), bytes.as_slice()) {
        Ok(structures) => Ok(structures),
        Err(_) => bail!("no structures"),
    }
}

fn answer_data_sets<R: AllocGlobal + Files + Print>(rt: &R, name: &str) -> Result<()> {
    let structures = case_structures(rt)?;
    answer_file(
        rt,
        name,
        &|alloc: Global, text: &str, words: &[Json]| {
            data_sets::answer(alloc, &structures, text, words)
        },
    )
}

/// Writes the cases of a file and their answers. The folder that it is in is given beside its name. An error tells the line
/// that has no answer, or that there are no cases of such a folder.
pub fn answer_cases<R: AllocGlobal + Files + Print>(
    rt: &R,
    folder: &str,
    name: &str,
) -> Result<()> {
    match folder {
        "scripts" => scripts::answer_scripts(rt, name),
        "expressions" => answer_file(rt, name, &expressions::answer),
        "data_sets" => answer_data_sets(rt, name),
        _ => bail!("no cases of {folder}"),
    }
}
