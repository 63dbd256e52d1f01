// Arithmetic on numbers, which are given as they are written in fields.
use anyhow::{Result, bail};
use case_files::lines::{integer_at, text_at};
use serde_json::Value as Json;
use std::alloc::Global;
use vtl_decimals::{Range, add, ceil, div, floor, mean, modulo, mul, ratio, round, sub, trunc};
use vtl_values::{Decimal, Kind, Value, read_value, show_value};

fn number_at(alloc: Global, words: &[Json], place: usize) -> Result<Decimal> {
    let Ok(value) = read_value(alloc, Kind::Number, text_at(words, place)?) else {
        bail!("no value at {place}");
    };
    match &value {
        Value::Number(number) => Ok(*number),
        _ => bail!("no number at {place}"),
    }
}

fn shown(alloc: Global, number: Decimal) -> Result<String> {
    let word = show_value(alloc, &Value::Number(number))?;
    Ok(String::from_str(alloc, word.as_str())?)
}

// A number or nothing, or what is out of range.
fn outcome(alloc: Global, made: Result<Option<Decimal>, Range>) -> Result<String> {
    match made {
        Ok(Some(number)) => shown(alloc, number),
        Ok(None) => Ok(String::from_str(alloc, "none")?),
        Err(range) => Ok(format!(in alloc; "{range}")?),
    }
}

/// The whole number below or above.
pub fn whole(alloc: Global, call: &str, words: &[Json]) -> Result<String> {
    let number = number_at(alloc, words, 1)?;
    match call {
        "ceil" => shown(alloc, ceil(number)),
        _ => shown(alloc, floor(number)),
    }
}

/// The number to so many digits.
pub fn places(alloc: Global, call: &str, words: &[Json]) -> Result<String> {
    let (number, digits) = (number_at(alloc, words, 1)?, integer_at(words, 2)?);
    if digits < -15 || digits > 6 {
        bail!("no such place");
    }
    match call {
        "round" => shown(alloc, round(number, digits as i32)),
        _ => shown(alloc, trunc(number, digits as i32)),
    }
}

/// An operator on two numbers.
pub fn two(alloc: Global, call: &str, words: &[Json]) -> Result<String> {
    let (a, b) = (number_at(alloc, words, 1)?, number_at(alloc, words, 2)?);
    let made = match call {
        "+" => add(a, b).map(Some),
        "-" => sub(a, b).map(Some),
        "*" => mul(a, b).map(Some),
        "/" => div(a, b),
        _ => Ok(Some(modulo(a, b))),
    };
    outcome(alloc, made)
}

/// The share of a number in a sum.
pub fn share(alloc: Global, words: &[Json]) -> Result<String> {
    let (number, sum) = (number_at(alloc, words, 1)?, number_at(alloc, words, 2)?);
    outcome(alloc, ratio(number, sum.millionths))
}

/// The mean of so many numbers with this sum.
pub fn mean_of(alloc: Global, words: &[Json]) -> Result<String> {
    let (sum, count) = (number_at(alloc, words, 1)?, integer_at(words, 2)?);
    if count < 1 {
        bail!("a mean of nothing");
    }
    shown(alloc, mean(sum.millionths, count as u64))
}
