// Revisions, from their rows between blanks.
use anyhow::{Result, bail};
use case_files::lines::text_at;
use point_sets::{Action, Part, RawField, RawRow, Revision};
use serde_json::Value as Json;
use sqlite_items::Items;
use std::alloc::{AllocError, Global};
use vtl_values::Word;

// The fields between commas.
fn fields(alloc: Global, text: &str) -> Result<Items<RawField>, AllocError> {
    let mut fields = Vec::new(alloc);
    for field in text.split(',') {
        fields.push(if field.is_empty() {
            RawField::Empty
        } else {
            RawField::Given(Word::from_str(alloc, field)?)
        })?;
    }
    Ok(Items::from_vec(fields))
}

fn row(alloc: Global, text: &str) -> Result<RawRow> {
    let (action, given) = match (text.strip_prefix('+'), text.strip_prefix('-')) {
        (Some(put), _) => (Action::Put, put),
        (_, Some(removed)) => (Action::Remove, removed),
        _ => bail!("no row {text}"),
    };
    Ok(RawRow {
        action,
        fields: fields(alloc, given)?,
    })
}

// The rows between blanks.
fn rows(alloc: Global, text: &str) -> Result<Vec<RawRow>> {
    let mut rows = Vec::new(alloc);
    for given in text.split_whitespace() {
        rows.push(row(alloc, given)?)?;
    }
    Ok(rows)
}

// Rows that put so many points.
fn many_rows(alloc: Global, count: i64) -> Result<Vec<RawRow>> {
    let mut rows = Vec::new(alloc);
    for number in 0..count {
        let text = format!(in alloc; "+{number},1")?;
        rows.push(row(alloc, text.as_str())?)?;
    }
    Ok(rows)
}

// The part that stands at this place of a step: a data set, and the rows or how many there are.
fn part_at(alloc: Global, step: &[Json], at: usize) -> Result<Part> {
    let set = Word::from_str(alloc, text_at(step, at)?)?;
    let next = at.saturating_add(1);
    let rows = match step.get(next).and_then(Json::as_i64) {
        Some(count) => many_rows(alloc, count)?,
        None => rows(alloc, text_at(step, next)?)?,
    };
    Ok(Part {
        set,
        rows: Items::from_vec(rows),
    })
}

/// The revision that a step gives, part by part, behind the step's word and the caller.
pub fn revision_at(alloc: Global, step: &[Json]) -> Result<Revision> {
    let mut parts = Vec::new(alloc);
    for pair in 1..step.len() / 2 {
        parts.push(part_at(alloc, step, 2 * pair)?)?;
    }
    Ok(Revision {
        parts: Items::from_vec(parts),
    })
}

/// The revision of one part with one row.
pub fn one_row(alloc: Global, set: &str, text: &str) -> Result<Revision> {
    let part = Part {
        set: Word::from_str(alloc, set)?,
        rows: Items::from_vec(rows(alloc, text)?),
    };
    let mut parts = Vec::new(alloc);
    parts.push(part)?;
    Ok(Revision {
        parts: Items::from_vec(parts),
    })
}
