// Operators on texts. What they give is written in quotes, so that blanks are seen.
use anyhow::{Result, bail};
use case_files::lines::{integer_at, text_at};
use scalar_texts::{
    Pattern, PatternStop, concat, instr, length, lower, ltrim, replace, rtrim, substr, trim, upper,
};
use serde_json::Value as Json;
use std::alloc::Global;

fn quoted(alloc: Global, text: &str) -> Result<String> {
    Ok(format!(in alloc; "{text:?}")?)
}

/// A text without blanks at its ends, or in other letters.
pub fn one(alloc: Global, call: &str, words: &[Json]) -> Result<String> {
    let text = text_at(words, 1)?;
    let made = match call {
        "trim" => trim(alloc, text)?,
        "ltrim" => ltrim(alloc, text)?,
        "rtrim" => rtrim(alloc, text)?,
        "upper" => upper(alloc, text)?,
        _ => lower(alloc, text)?,
    };
    quoted(alloc, made.as_str())
}

/// The number of characters, and the place of a part, from 1 on.
pub fn counted(alloc: Global, call: &str, words: &[Json]) -> Result<String> {
    let text = text_at(words, 1)?;
    let count = match call {
        "length" => length(text),
        _ => instr(text, text_at(words, 2)?),
    };
    Ok(format!(in alloc; "{count}")?)
}

/// Two texts as one.
pub fn joined(alloc: Global, words: &[Json]) -> Result<String> {
    let made = concat(alloc, text_at(words, 1)?, text_at(words, 2)?)?;
    quoted(alloc, made.as_str())
}

/// A part from a place on, of so many characters where a number is given.
pub fn part(alloc: Global, words: &[Json]) -> Result<String> {
    let (text, start) = (text_at(words, 1)?, integer_at(words, 2)?);
    let count = match words.get(3) {
        Some(_) => Some(integer_at(words, 3)?),
        None => None,
    };
    quoted(alloc, substr(alloc, text, start, count)?.as_str())
}

/// A text in which each occurrence of a part becomes another one.
pub fn replaced(alloc: Global, words: &[Json]) -> Result<String> {
    let (old, new) = (text_at(words, 2)?, text_at(words, 3)?);
    let made = replace(alloc, text_at(words, 1)?, old, new)?;
    quoted(alloc, made.as_str())
}

// Asks for a proof that threads may share the value.
fn share<T: Send + Sync>(_value: &T) {}

fn share_pattern(pattern: &Pattern) {
    share(pattern);
}

/// Whether a text matches a pattern, or that this is none.
pub fn matched(alloc: Global, words: &[Json]) -> Result<String> {
    match Pattern::build(alloc, text_at(words, 2)?) {
        Ok(pattern) => {
            share_pattern(&pattern);
            let matches = pattern.matches(text_at(words, 1)?)?;
            Ok(format!(in alloc; "{matches}")?)
        }
        Err(PatternStop::BadPattern) => Ok(String::from_str(alloc, "no pattern")?),
        Err(PatternStop::Memory) => Ok(String::from_str(alloc, "out of memory")?),
    }
}
