// Points and keys, from their fields between commas and back.
use anyhow::{Result, bail};
use point_sets::{Key, Point};
use sqlite_items::Items;
use std::alloc::Global;
use vtl_values::{Component, Kind, Role, Value, read_value, show_value};

/// The value that a field of a kind means.
pub fn value_of(alloc: Global, kind: Kind, field: &str) -> Result<Value> {
    match read_value(alloc, kind, field) {
        Ok(value) => Ok(value),
        Err(_) => bail!("no value {field}"),
    }
}

fn fields(alloc: Global, text: &str) -> Result<Vec<String>> {
    let mut fields = Vec::new(alloc);
    for field in text.split(',') {
        fields.push(String::from_str(alloc, field)?)?;
    }
    Ok(fields)
}

/// The rows between blanks.
pub fn rows_in(alloc: Global, text: &str) -> Result<Vec<String>> {
    let mut rows = Vec::new(alloc);
    for row in text.split_whitespace() {
        rows.push(String::from_str(alloc, row)?)?;
    }
    Ok(rows)
}

/// The point with a field for each component.
pub fn point_of(alloc: Global, components: &[Component], text: &str) -> Result<Point> {
    let fields = fields(alloc, text)?;
    if fields.len() != components.len() {
        bail!("no point {text}");
    }
    let (mut key, mut rest) = (Vec::new(alloc), Vec::new(alloc));
    for (component, field) in components.iter().zip(fields.as_slice()) {
        let value = value_of(alloc, component.kind, field.as_str())?;
        if component.role == Role::Identifier {
            key.push(value)?;
        } else {
            rest.push(value)?;
        }
    }
    Ok(Point {
        key: Key::of(alloc, key)?,
        rest: Items::from_vec(rest),
    })
}

/// The key with a field for each identifier; the identifiers are the first components.
pub fn key_of(alloc: Global, components: &[Component], text: &str) -> Result<Key> {
    let fields = fields(alloc, text)?;
    let count = components
        .iter()
        .filter(|component| component.role == Role::Identifier)
        .count();
    if fields.len() != count {
        bail!("no key {text}");
    }
    let mut key = Vec::new(alloc);
    for (component, field) in components.iter().zip(fields.as_slice()) {
        key.push(value_of(alloc, component.kind, field.as_str())?)?;
    }
    Ok(Key::of(alloc, key)?)
}

/// The fields of a point between commas.
pub fn point_text(alloc: Global, point: &Point) -> Result<String> {
    let mut out = String::new(alloc);
    push_values(alloc, &mut out, point.key.values())?;
    push_values(alloc, &mut out, point.rest.as_slice())?;
    Ok(out)
}

// Adds values, with a comma before each but the first of all.
fn push_values(alloc: Global, out: &mut String, values: &[Value]) -> Result<()> {
    for value in values {
        if !out.is_empty() {
            out.push_str(",")?;
        }
        out.push_str(show_value(alloc, value)?.as_str())?;
    }
    Ok(())
}
