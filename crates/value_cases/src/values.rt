// Values: how they are read, written and ordered.
use anyhow::{Result, bail};
use case_files::lines::text_at;
use serde_json::Value as Json;
use std::alloc::Global;
use std::cmp::Ordering;
use vtl_values::{Kind, ReadStop, Value, read_value, show_value};

fn kind(name: &str) -> Result<Kind> {
    match name {
        "integer" => Ok(Kind::Integer),
        "number" => Ok(Kind::Number),
        "string" => Ok(Kind::Text),
        "boolean" => Ok(Kind::Truth),
        _ => bail!("no kind {name}"),
    }
}

/// A text in quotes, so that its blanks are seen.
pub fn quoted(alloc: Global, text: &str) -> Result<String> {
    Ok(format!(in alloc; "{text:?}")?)
}

/// What a field of a kind means, as it is written again, or why it means nothing.
pub fn read(alloc: Global, words: &[Json]) -> Result<String> {
    match read_value(alloc, kind(text_at(words, 1)?)?, text_at(words, 2)?) {
        Ok(value) => quoted(alloc, show_value(alloc, &value)?.as_str()),
        Err(ReadStop::Bad(fault)) => Ok(format!(in alloc; "{fault:?}")?),
        Err(ReadStop::Memory) => bail!("out of memory"),
    }
}

// The value that the kind at a place and the text after it mean.
fn value_at(alloc: Global, words: &[Json], place: usize) -> Result<Value> {
    let kind = kind(text_at(words, place)?)?;
    match read_value(alloc, kind, text_at(words, place.saturating_add(1))?) {
        Ok(value) => Ok(value),
        Err(_) => bail!("no value at {place}"),
    }
}

/// How the first value stands to the second.
pub fn order(alloc: Global, words: &[Json]) -> Result<String> {
    let (first, second) = (value_at(alloc, words, 1)?, value_at(alloc, words, 3)?);
    let sign = match first.order(&second) {
        Ordering::Less => "<",
        Ordering::Equal => "=",
        Ordering::Greater => ">",
    };
    Ok(String::from_str(alloc, sign)?)
}
