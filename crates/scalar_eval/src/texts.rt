// Operators on texts.
ghost use Rattle.std.specs.Prelude.{◌≡◌, IfOk, chars, string_bytes};
ghost use Rattle.std.specs.Result.{result_ok};
ghost use Rattle.scalar_texts.specs.Blanks.{trimmed, ltrimmed, rtrimmed};
ghost use Rattle.scalar_texts.specs.Letters.{uppercase, lowercase};
ghost use Rattle.vtl_values.specs.declared.value.Value.TheVariants.{Text as TextOf};
ghost use Rattle.scalar_meaning.specs.Texts as meant;

use crate::matchers::Matchers;
use crate::numbers::integer_of;
use scalar_texts::{concat, instr, length, replace, substr};
use scalar_trees::SharedPattern;
use std::alloc::{AllocError, Global};
use vtl_decimals::Range;
use vtl_values::{Integer, Value, Word};

/// `trim` of VTL.
pub(crate) fn trim(alloc: Global, value: &Value) -> Result<Value, AllocError>
    ensures { IfOk result (λ v. v ≡ meant.of_text trimmed value.now) }
{
    match value {
        Value::Text(word) => made(scalar_texts::trim(alloc, word.as_str())?),
        _ => Ok(Value::Null),
    }
}

/// `ltrim` of VTL.
pub(crate) fn ltrim(alloc: Global, value: &Value) -> Result<Value, AllocError>
    ensures { IfOk result (λ v. v ≡ meant.of_text ltrimmed value.now) }
{
    match value {
        Value::Text(word) => made(scalar_texts::ltrim(alloc, word.as_str())?),
        _ => Ok(Value::Null),
    }
}

/// `rtrim` of VTL.
pub(crate) fn rtrim(alloc: Global, value: &Value) -> Result<Value, AllocError>
    ensures { IfOk result (λ v. v ≡ meant.of_text rtrimmed value.now) }
{
    match value {
        Value::Text(word) => made(scalar_texts::rtrim(alloc, word.as_str())?),
        _ => Ok(Value::Null),
    }
}

/// `upper` of VTL.
pub(crate) fn upper(alloc: Global, value: &Value) -> Result<Value, AllocError>
    ensures { IfOk result (λ v. v ≡ meant.of_text uppercase value.now) }
{
    match value {
        Value::Text(word) => made(scalar_texts::upper(alloc, word.as_str())?),
        _ => Ok(Value::Null),
    }
}

/// `lower` of VTL.
pub(crate) fn lower(alloc: Global, value: &Value) -> Result<Value, AllocError>
    ensures { IfOk result (λ v. v ≡ meant.of_text lowercase value.now) }
{
    match value {
        Value::Text(word) => made(scalar_texts::lower(alloc, word.as_str())?),
        _ => Ok(Value::Null),
    }
}

fn made(text: String) -> Result<Value, AllocError>
    ensures { IfOk result (λ v. v ≡ TextOf (chars (string_bytes text))) }
{
    Ok(Value::Text(Word::from_string(text)?))
}

/// `||` of VTL.
pub(crate) fn joined(alloc: Global, a: &Value, b: &Value) -> Result<Value, AllocError>
    ensures { IfOk result (λ v. v ≡ meant.joined a.now b.now) }
{
    match (a, b) {
        (Value::Text(a), Value::Text(b)) => made(concat(alloc, a.as_str(), b.as_str())?),
        _ => Ok(Value::Null),
    }
}

/// `length` of VTL.
pub(crate) fn characters(value: &Value) -> Result<Value, Range>
    ensures { result_ok result ≡ meant.characters value.now }
{
    match value {
        Value::Text(word) => Ok(Value::Integer(integer_of(i128::from(length(word.as_str())))?)),
        _ => Ok(Value::Null),
    }
}

/// `instr` of VTL.
pub(crate) fn place_in(value: &Value, part: &Value) -> Result<Value, Range>
    ensures { result_ok result ≡ meant.place_in value.now part.now }
{
    match (value, part) {
        (Value::Text(word), Value::Text(part)) => Ok(Value::Integer(integer_of(i128::from(instr(
            word.as_str(),
            part.as_str(),
        )))?)),
        _ => Ok(Value::Null),
    }
}

/// `substr` of VTL, from the first place where none is given.
pub(crate) fn part_of(
    alloc: Global,
    value: &Value,
    start: &Option<Value>,
    count: &Option<Value>,
) -> Result<Value, AllocError>
    ensures { IfOk result (λ v. v ≡ meant.part_of value.now start.now count.now) }
{
    match start {
        Some(start) => cut(alloc, value, start, count),
        None => cut(alloc, value, &Value::Integer(Integer { value: 1 }), count),
    }
}

fn cut(
    alloc: Global,
    value: &Value,
    start: &Value,
    count: &Option<Value>,
) -> Result<Value, AllocError>
    ensures { IfOk result (λ v. v ≡ meant.cut value.now start.now count.now) }
{
    let (Value::Text(word), Value::Integer(start)) = (value, start) else {
        return Ok(Value::Null);
    };
    match count {
        None => made(substr(alloc, word.as_str(), start.value, None)?),
        Some(Value::Integer(count)) => made(substr(
            alloc,
            word.as_str(),
            start.value,
            Some(count.value),
        )?),
        Some(_) => Ok(Value::Null),
    }
}

/// `replace` of VTL, by the empty text where none is given.
pub(crate) fn replacing(
    alloc: Global,
    value: &Value,
    old: &Value,
    new: &Option<Value>,
) -> Result<Value, AllocError>
    ensures { IfOk result (λ v. v ≡ meant.replacing value.now old.now new.now) }
{
    let (Value::Text(word), Value::Text(old)) = (value, old) else {
        return Ok(Value::Null);
    };
    match new {
        None => made(replace(alloc, word.as_str(), old.as_str(), "")?),
        Some(Value::Text(new)) => made(replace(alloc, word.as_str(), old.as_str(), new.as_str())?),
        Some(_) => Ok(Value::Null),
    }
}

/// `match_characters` of VTL.
pub(crate) fn matching<'a>(
    matchers: &mut Matchers<'a>,
    pattern: &'a SharedPattern,
    value: &Value,
) -> Result<Value, AllocError>
    ensures { IfOk result (λ v. v ≡ meant.matching pattern.now value.now) }
{
    match value {
        Value::Text(word) => Ok(Value::Truth(matchers.matches(pattern, word.as_str())?)),
        _ => Ok(Value::Null),
    }
}
