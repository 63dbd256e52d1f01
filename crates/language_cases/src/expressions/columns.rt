// The components of a case, and its point.
use anyhow::{Result, bail};
use case_files::lines::{items, text_at};
use serde_json::Value as Json;
use std::alloc::Global;
use vtl_values::{Codes, Component, Kind, Role, Value, Word, read_value};

/// The components that names stand for, and their values in the same order.
#[derive(Drop)]
pub struct Point {
    pub components: Vec<Component>,
    pub values: Vec<Value>,
}

fn kind_of(name: &str) -> Result<Kind> {
    match name {
        "integer" => Ok(Kind::Integer),
        "number" => Ok(Kind::Number),
        "string" => Ok(Kind::Text),
        "boolean" => Ok(Kind::Truth),
        _ => bail!("no kind {name}"),
    }
}

// The value that the third item, a field of the kind, means.
fn value_of(alloc: Global, kind: Kind, column: &[Json]) -> Result<Value> {
    if let Some(Json::Null) = column.get(2) {
        return Ok(Value::Null);
    }
    let field = text_at(column, 2)?;
    match read_value(alloc, kind, field) {
        Ok(value) => Ok(value),
        Err(_) => bail!("no value {field}"),
    }
}

/// The point of components that are each a name, a kind and a field or null.
pub fn point_of(alloc: Global, columns: &[Json]) -> Result<Point> {
    let mut components = Vec::new(alloc);
    let mut values = Vec::new(alloc);
    for column in columns {
        let column = items(column)?;
        let kind = kind_of(text_at(column, 1)?)?;
        components.push(Component {
            name: Word::from_str(alloc, text_at(column, 0)?)?,
            role: Role::Measure,
            kind,
            codes: Codes::Any,
        })?;
        values.push(value_of(alloc, kind, column)?)?;
    }
    Ok(Point { components, values })
}
