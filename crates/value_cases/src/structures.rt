// Structure files.
use anyhow::{Result, bail};
use case_files::lines::integer_at;
use serde_json::Value as Json;
use std::alloc::{AllocError, Global};
use structure_files::{StructureStop, read_structures};
use vtl_values::{Codes, Component, Structures};

// A text is the file itself, and anything else is the JSON of the file.
fn file_text(alloc: Global, words: &[Json]) -> Result<String> {
    match words.get(1) {
        Some(Json::String(text)) => Ok(text.clone()?),
        Some(json) => Ok(json.to_string(alloc)?),
        None => bail!("no file"),
    }
}

fn push_component(out: &mut String, component: &Component) -> Result<(), AllocError> {
    let (name, role, kind) = (component.name.as_str(), component.role, component.kind);
    write!(out, " ({name} {role:?} {kind:?}")?;
    if let Codes::Listed(codes) = &component.codes {
        for code in codes.as_slice() {
            write!(out, " {:?}", code.as_str())?;
        }
    }
    out.push_str(")")
}

// Each data set with its number and its components.
fn told(alloc: Global, structures: &Structures) -> Result<String> {
    let mut out = String::new(alloc);
    for number in 0..structures.len() {
        let Some((name, _)) = structures.nth(number) else {
            bail!("no data set {number}");
        };
        let Some(structure) = structures.get(name) else {
            bail!("no data set of the name");
        };
        let found = structures.number_of(name);
        write!(out, "{} {found:?}", name.as_str())?;
        for component in structure.components() {
            push_component(&mut out, component)?;
        }
        out.push_str(";")?;
    }
    Ok(out)
}

fn answer(alloc: Global, text: &str) -> Result<String> {
    match read_structures(alloc, text.as_bytes()) {
        Ok(structures) => told(alloc, &structures.copy(alloc)?),
        Err(StructureStop::Refused(refusal)) => {
            let (fault, path) = (refusal.fault, refusal.path.text(alloc)?);
            let path = path.as_str();
            Ok(format!(in alloc; "{fault:?} {path}")?)
        }
        Err(StructureStop::Memory) => bail!("out of memory"),
    }
}

/// The structures of a file, or its first fault and the fault's path.
pub fn structures(alloc: Global, words: &[Json]) -> Result<String> {
    answer(alloc, file_text(alloc, words)?.as_str())
}

/// The same of a file with so many data sets, each of an identifier.
pub fn many_sets(alloc: Global, words: &[Json]) -> Result<String> {
    let mut text = String::from_str(alloc, "{\"datasets\":[")?;
    for number in 0..integer_at(words, 1)? {
        let comma = if number > 0 { "," } else { "" };
        write!(
            text,
            "{comma}{{\"name\":\"A{number}\",\"components\":[{{\"name\":\"I\",\"role\":\"identifier\",\"type\":\"string\"}}]}}"
        )?;
    }
    text.push_str("]}")?;
    answer(alloc, text.as_str())
}

/// The same of a file with a data set of so many components.
pub fn many_components(alloc: Global, words: &[Json]) -> Result<String> {
    let mut text = String::from_str(alloc, "{\"datasets\":[{\"name\":\"A\",\"components\":[")?;
    for number in 0..integer_at(words, 1)? {
        let comma = if number > 0 { "," } else { "" };
        write!(
            text,
            "{comma}{{\"name\":\"I{number}\",\"role\":\"identifier\",\"type\":\"string\"}}"
        )?;
    }
    text.push_str("]}]}")?;
    answer(alloc, text.as_str())
}
