// The lines of verdicts and of failed rounds.
ghost use Rattle.std.specs.Prelude.{◌≡◌, ◌++◌, [], ◌∷◌, map, string_bytes, IfOk};
ghost use Rattle.std.specs.Ffi.{without_last};
ghost use Rattle.operator_meaning.specs.Scripts.{ScriptWrong};
ghost use Rattle.round_core.specs.Faults.{wrong_of};
ghost use Rattle.round_core.specs.Journals.{fault_said};
ghost use Rattle.revision_judge.specs.Fields.{text_in};
ghost use Rattle.round_runs.specs.Eval.{failed_line, name_of, wrong_line};
ghost use Rattle.round_runs.specs.Lines as meant;
ghost use Rattle.round_runs.specs.Lines.{key_text, refused, total_points};

use built_scripts::CheckedScript;
use point_sets::{Key, RawField};
use release_text::{values_row, words_row};
use revision_judge::Refusal;
use round_core::{NodeFault, ScriptFault, Verdict};
use std::alloc::{AllocError, Global};
use vtl_values::{Place, Word};

/// The line of a verdict.
pub fn verdict_line(alloc: Global, verdict: &Verdict) -> Result<Vec<u8>, AllocError>
    ensures { IfOk result (λ text. text.items ≡ meant.verdict_line verdict.now) }
{
    match verdict {
        Verdict::Accepted(receipt) => accepted_line(alloc, *receipt),
        Verdict::Refused {
            set,
            parts,
            refusal,
        } => refused_line(alloc, set, *parts, refusal),
    }
}

fn accepted_line(alloc: Global, receipt: u64) -> Result<Vec<u8>, AllocError>
    ensures { IfOk result (λ text. text.items ≡ meant.accepted receipt) }
{
    Ok(format!(in alloc; "accepted {receipt}\n")?.into_bytes())
}

fn text_of(alloc: Global, field: &RawField) -> Result<Word, AllocError>
    ensures { IfOk result (λ text. text ≡ text_in field.now) }
{
    match field {
        RawField::Empty => Word::from_str(alloc, ""),
        RawField::Given(text) => text.copy(),
    }
}

// The fields of a key as they were written, as a row without its line end.
fn key_text(alloc: Global, fields: &[RawField]) -> Result<Vec<u8>, AllocError>
    ensures { IfOk result (λ text. text.items ≡ key_text fields.now) }
{
    let mut texts = Vec::new(alloc);
    for field in fields {
        texts.push(text_of(alloc, field)?)?;
    }
    let mut row = words_row(alloc, texts.as_slice())?;
    // The line end.
    let _ = row.pop();
    Ok(row)
}

// What stands between the row and the cause.
fn refusal_end(alloc: Global, refusal: &Refusal) -> Result<Vec<u8>, AllocError>
    ensures { IfOk result (λ text. text.items ≡ meant.refusal_end refusal.now) }
{
    if refusal.row == 0 {
        return Ok(Vec::new(alloc));
    }
    let mut text = b" key ".to_vec(alloc)?;
    text.extend_from_slice(key_text(alloc, refusal.key.as_slice())?.as_slice())?;
    Ok(text)
}

fn refused_set(alloc: Global, set: &Word) -> Result<String, AllocError>
    ensures { IfOk result (λ text. string_bytes text ≡ meant.refused_set set.now) }
{
    let set = set.as_str();
    format!(in alloc; "refused {set}")
}

// The part of a refused revision, where there are several.
fn part_text(alloc: Global, parts: u64, part: u64) -> Result<String, AllocError>
    ensures { IfOk result (λ text. string_bytes text ≡ meant.part_text parts part) }
{
    if parts <= 1 {
        return Ok(String::new(alloc));
    }
    format!(in alloc; " part {part}")
}

fn row_text(alloc: Global, row: u64) -> Result<String, AllocError>
    ensures { IfOk result (λ text. string_bytes text ≡ meant.row_text row) }
{
    format!(in alloc; " row {row}")
}

fn cause_end(alloc: Global, cause: u8) -> Result<String, AllocError>
    ensures { IfOk result (λ text. string_bytes text ≡ meant.cause_end cause) }
{
    format!(in alloc; " cause {cause}\n")
}

fn refused_line(
    alloc: Global,
    set: &Word,
    parts: u64,
    refusal: &Refusal,
) -> Result<Vec<u8>, AllocError>
    ensures { IfOk result (λ text. text.items ≡ refused set.now parts refusal.now) }
{
    let mut line = refused_set(alloc, set)?.into_bytes();
    line.extend_from_slice(part_text(alloc, parts, refusal.part)?.as_bytes())?;
    line.extend_from_slice(row_text(alloc, refusal.row)?.as_bytes())?;
    line.extend_from_slice(refusal_end(alloc, refusal)?.as_slice())?;
    line.extend_from_slice(cause_end(alloc, refusal.cause.number())?.as_bytes())?;
    Ok(line)
}

// How the line of a round begins that failed at a statement, whose place is that of its operator.
fn failed_at(alloc: Global, prefix: u64, name: &Word, place: Place) -> Result<String, AllocError>
    ensures { IfOk result (λ text. string_bytes text ≡ meant.failed_at prefix name.now place.line place.column) }
{
    let (name, line, column) = (name.as_str(), place.line, place.column);
    format!(in alloc; "failed prefix {prefix} statement {name} line {line} column {column}")
}

fn range_line(
    alloc: Global,
    prefix: u64,
    name: &Word,
    place: Place,
    key: &Key,
) -> Result<Vec<u8>, AllocError>
    ensures { IfOk result (λ text. text.items ≡ meant.failed_at prefix name.now place.line place.column ++ meant.range_key key.now) }
{
    let mut line = failed_at(alloc, prefix, name, place)?.into_bytes();
    line.extend_from_slice(b" range key ")?;
    line.extend_from_slice(values_row(alloc, key.values())?.as_slice())?;
    Ok(line)
}

fn too_many_line(
    alloc: Global,
    prefix: u64,
    name: &Word,
    place: Place,
) -> Result<Vec<u8>, AllocError>
    ensures { IfOk result (λ text. text.items ≡ meant.failed_at prefix name.now place.line place.column ++ meant.too_many_points) }
{
    let mut line = failed_at(alloc, prefix, name, place)?.into_bytes();
    line.extend_from_slice(b" too many points\n")?;
    Ok(line)
}

fn total_line(alloc: Global, prefix: u64, points: u64) -> Result<Vec<u8>, AllocError>
    ensures { IfOk result (λ text. text.items ≡ total_points prefix points) }
{
    Ok(format!(in alloc; "failed prefix {prefix} total {points} points\n")?.into_bytes())
}

fn statement_line(
    alloc: Global,
    prefix: u64,
    name: &Word,
    fault: &NodeFault,
) -> Result<Vec<u8>, AllocError>
    ensures { IfOk result (λ text. text.items ≡ wrong_line prefix name.now (wrong_of fault.now)) }
{
    match fault {
        NodeFault::Range { place, key } => range_line(alloc, prefix, name, *place, key),
        NodeFault::TooMany { place } => too_many_line(alloc, prefix, name, *place),
    }
}

// The name of a statement.
fn name_at(alloc: Global, script: &CheckedScript, statement: u64) -> Result<Word, AllocError>
    ensures { IfOk result (λ name. name ≡ name_of script.now statement) }
{
    match script.statements().get(statement as usize) {
        Some(statement) => statement.name.copy(),
        None => Word::from_str(alloc, ""),
    }
}

/// The line of a round over so many revisions that failed.
pub fn fault_line(
    alloc: Global,
    prefix: u64,
    script: &CheckedScript,
    fault: &ScriptFault,
) -> Result<Vec<u8>, AllocError>
    ensures { IfOk result (λ text. text.items ≡ failed_line script.now prefix (fault_said fault.now)) }
{
    match fault {
        ScriptFault::At { statement, fault } => {
            let name = name_at(alloc, script, *statement)?;
            statement_line(alloc, prefix, &name, fault)
        }
        ScriptFault::Total(points) => total_line(alloc, prefix, *points),
    }
}
