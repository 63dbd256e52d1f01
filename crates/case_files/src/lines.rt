// Files of cases of a line each.
use anyhow::{Context, Result, bail};
use serde_json::Value;
use std::alloc::Global;
use std::fs;
use std::rt::Files;

/// Writes the rule of a file, and each of its cases with its answer. An error names the line that has no answer.
pub fn answer_file<R, F>(rt: &R, name: &str, answer: &F) -> Result<()>
where
    R: AllocGlobal + Files + Print,
    F: Fn(Global, &str, &[Value]) -> Result<String>,
    requires { F.IsAlwaysCallable answer.now }
{
    let text = fs::read_to_string(rt, name)?;
    for (before, line) in text.lines().enumerate() {
        let number = before.saturating_add(1);
        answer_line(rt, line, answer).context(format_args!("{name}, line {number}"))?;
    }
    Ok(())
}

// Writes a line, and after it its answer if it is a case.
fn answer_line<R, F>(rt: &R, line: &str, answer: &F) -> Result<()>
where
    R: AllocGlobal + Print,
    F: Fn(Global, &str, &[Value]) -> Result<String>,
    requires { F.IsAlwaysCallable answer.now }
{
    if !line.starts_with('[') {
        println!(rt; "{line}")?;
        return Ok(());
    }
    let case = Value::from_str(rt.alloc(), line)?;
    let words = items(&case)?;
    let answered = answer(rt.alloc(), text_at(words, 0)?, words)?;
    println!(rt; "{line} -> {answered}")?;
    Ok(())
}

/// The items of a list.
pub fn items(value: &Value) -> Result<&[Value]> {
    match value.as_array() {
        Some(items) => Ok(items.as_slice()),
        None => bail!("no list"),
    }
}

/// The text at a place of a list.
pub fn text_at(words: &[Value], place: usize) -> Result<&str> {
    match words.get(place).and_then(Value::as_str) {
        Some(text) => Ok(text),
        None => bail!("no text at {place}"),
    }
}

/// The integer at a place of a list.
pub fn integer_at(words: &[Value], place: usize) -> Result<i64> {
    match words.get(place).and_then(Value::as_i64) {
        Some(integer) => Ok(integer),
        None => bail!("no integer at {place}"),
    }
}

/// The list at a place of a list.
pub fn list_at(words: &[Value], place: usize) -> Result<&[Value]> {
    match words.get(place) {
        Some(list) => items(list),
        None => bail!("no list at {place}"),
    }
}
