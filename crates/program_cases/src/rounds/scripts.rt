// Scripts, and productions of them.
ghost use Rattle.std.specs.Prelude.{◌≡◌, ◌≤◌, IfOk};
ghost use Rattle.program_cases.specs.Limits.{AreAllowed};

use anyhow::{Result, bail};
use built_scripts::{CheckedScript, runnable};
use commands::script::typed_script;
use data_set_trees::checked::TypedScript;
use round_core::{ENTRY_LIMIT, FIELD_LIMIT, Limits, Production, SCRIPT_LIMIT};
use serde_json::Value as Json;
use sqlite_items::Items;
use std::alloc::Global;
use structure_files::read_structures;
use vtl_values::Structures;

// The script of these inputs that has no statement.
fn no_statements(alloc: Global, inputs: Structures) -> Result<CheckedScript> {
    match runnable(TypedScript::of(inputs, Items::new(alloc), Items::new(alloc))) {
        Some(script) => Ok(script),
        None => bail!("no statement is built"),
    }
}

// A limit that is at most the program's.
fn limit_at(words: &[Json], at: usize, most: u64) -> Result<u64>
    ensures { IfOk result (λ limit. limit ≤ most) }
{
    match words.get(at).and_then(Json::as_u64) {
        Some(limit) if limit <= most => Ok(limit),
        _ => bail!("no limit at {at}"),
    }
}

/// The limits of a production: its entries, its fields and its scripts.
pub fn limits_at(words: &[Json], at: usize) -> Result<Limits>
    ensures { IfOk result AreAllowed }
{
    let entries = limit_at(words, at, ENTRY_LIMIT)?;
    let fields = limit_at(words, at.saturating_add(1), FIELD_LIMIT)?;
    let scripts = limit_at(words, at.saturating_add(2), SCRIPT_LIMIT)?;
    if scripts == 0 {
        bail!("no script is allowed");
    }
    Ok(Limits {
        entries,
        fields,
        scripts,
    })
}

// The inputs of a case that names none: A and B, each with the string Id and the number Me.
const A_AND_B: &str =
    "{\"datasets\":[{\"name\":\"A\",\"components\":[{\"name\":\"Id\",\"role\":\"identifier\",\"type\":\"string\"},{\"name\":\"Me\",\"role\":\"measure\",\"type\":\"number\"}]},{\"name\":\"B\",\"components\":[{\"name\":\"Id\",\"role\":\"identifier\",\"type\":\"string\"},{\"name\":\"Me\",\"role\":\"measure\",\"type\":\"number\"}]}]}";

/// A script over these inputs that may be run.
pub fn script_of(alloc: Global, inputs: &Structures, script: &str) -> Result<CheckedScript>
    ensures { IfOk result (λ script. script.inputs ≡ inputs.now) }
{
    if script.len() > 1000 {
        bail!("a long script");
    }
    let Ok(script) = typed_script(alloc, inputs.copy(alloc)?, script.as_bytes()) else {
        bail!("a script that is refused");
    };
    match runnable(script) {
        Some(script) => Ok(script),
        None => bail!("a script that isn't built"),
    }
}

fn structures_of(alloc: Global, file: &str) -> Result<Structures> {
    match read_structures(alloc, file.as_bytes()) {
        Ok(structures) => Ok(structures),
        Err(_) => bail!("structures that are refused"),
    }
}

/// A production of a script over the inputs A and B.
pub fn of_script(alloc: Global, script: &str, limits: Limits) -> Result<Production>
    requires { AreAllowed limits }
{
    let inputs = structures_of(alloc, A_AND_B)?;
    Ok(Production::new(alloc, script_of(alloc, &inputs, script)?, limits)?)
}

/// A production without statements, over the structures of a file.
pub fn of_structures(alloc: Global, structures: Option<&Json>, limits: Limits) -> Result<Production>
    requires { AreAllowed limits }
{
    let Some(json) = structures else {
        bail!("no structures");
    };
    let text = json.to_string(alloc)?;
    let script = no_statements(alloc, structures_of(alloc, text.as_str())?)?;
    Ok(Production::new(alloc, script, limits)?)
}
