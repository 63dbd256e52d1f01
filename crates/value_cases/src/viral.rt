// Viral attributes of two codes.
ghost use Rattle.std.specs.Prelude.{◌≡◌, ◌≢◌, ◌↔◌, ◌∷◌, [], IfOk, IsTrue};
ghost use Rattle.viral_attributes.specs.Combination.{IsCodeOrNull};

use anyhow::{Result, bail};
use case_files::lines::{list_at, text_at};
use serde_json::Value as Json;
use sqlite_items::Items;
use std::alloc::{AllocError, Global};
use viral_attributes::{Ranks, combine};
use vtl_values::{Value, Word};

fn ranks_of(alloc: Global, low: Word, high: Word) -> Result<Ranks, AllocError>
    requires { low ≢ high }
    ensures { IfOk result (λ ranks. ranks ≡ low ∷ high ∷ []) }
{
    let codes = vec![in alloc; low, high]?;
    Ok(Ranks::of(Items::from_vec(codes)))
}

fn is_code_or_null(ranks: &Ranks, value: &Value) -> bool
    ensures { IsTrue result ↔ IsCodeOrNull ranks.now value.now }
{
    match value {
        Value::Null => true,
        Value::Text(code) => ranks.codes().contains(code),
        _ => false,
    }
}

// Texts, and nulls.
fn values_of(alloc: Global, listed: &[Json]) -> Result<Vec<Value>> {
    let mut values = Vec::new(alloc);
    for value in listed {
        match value.as_str() {
            Some(text) => values.push(Value::Text(Word::from_str(alloc, text)?))?,
            None => values.push(Value::Null)?,
        }
    }
    Ok(values)
}

/// The place of the combined value, from 0 on: of two codes, the lower first, and a list of values.
pub fn combined(alloc: Global, words: &[Json]) -> Result<String> {
    let (low, high) = (text_at(words, 1)?, text_at(words, 2)?);
    let (low, high) = (Word::from_str(alloc, low)?, Word::from_str(alloc, high)?);
    if low == high {
        bail!("one code twice");
    }
    let ranks = ranks_of(alloc, low, high)?;
    let values = values_of(alloc, list_at(words, 3)?)?;
    if !values.iter().all(|value| is_code_or_null(&ranks, value)) {
        bail!("a value that is no code");
    }
    match combine(&ranks, values.as_slice()) {
        Some(place) => Ok(format!(in alloc; "{place}")?),
        None => Ok(String::from_str(alloc, "none")?),
    }
}
