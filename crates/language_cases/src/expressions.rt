// Cases of scalar expressions: their kinds and values, or their faults.
//
// A case is an expression, and then the components that its names stand for: each a name, a type, and a field as in a
// table, or null. The lexer and the parser of scripts read the expression; it is checked as a whole one whose null is a
// boolean, and worked out on the point of these values. What is written is:
//
// - its kind and its value, a text in quotes;
// - or `Range`;
// - or its fault after the column of its place, in bytes of the expression from 1 on.
mod columns;

use crate::expressions::columns::{Point, point_of};
use crate::parsing::script_of;
use crate::words::{faulty, kind_word};
use anyhow::{Result, bail};
use component_typing::check_expr;
use operator_typing::scope_of;
use scalar_eval::{EvalStop, Matchers, PointRow, eval};
use scalar_trees::CheckedExpr;
use scalar_trees::typing::{Basis, TypeStop};
use serde_json::Value as Json;
use std::alloc::Global;
use vtl_values::{Kind, Value, show_value};

/// The kind and value of an expression on a point, or its fault.
pub fn answer(alloc: Global, expression: &str, words: &[Json]) -> Result<String> {
    let point = point_of(alloc, words.get(1..).unwrap_or(&[]))?;
    let script = script_of(alloc, expression, "")?;
    let Some(statement) = script.statements.as_slice().first() else {
        bail!("no statement");
    };
    let scope = scope_of(alloc, point.components.as_slice())?;
    let tree = &statement.expr;
    match check_expr(alloc, Kind::Truth, &scope, Basis::Point, tree) {
        Ok((tree, kind)) => valued(alloc, &tree, kind, &point),
        Err(TypeStop::Refused(refusal)) => faulty(alloc, refusal),
        Err(TypeStop::Memory) => bail!("out of memory"),
    }
}

fn valued(alloc: Global, tree: &CheckedExpr, kind: Kind, point: &Point) -> Result<String> {
    let row = PointRow {
        key: &[],
        rest: point.values.as_slice(),
    };
    match eval(alloc, tree, &row, &mut Matchers::new(alloc)) {
        Ok(value) => shown(alloc, kind, &value),
        Err(EvalStop::Range) => Ok(String::from_str(alloc, "Range")?),
        Err(EvalStop::Memory) => bail!("out of memory"),
    }
}

// A text stands in quotes, so that its blanks are seen, and it isn't taken for null.
fn shown(alloc: Global, kind: Kind, value: &Value) -> Result<String> {
    let kind = kind_word(kind);
    match value {
        Value::Null => Ok(format!(in alloc; "{kind} null")?),
        Value::Text(text) => {
            let text = text.as_str();
            Ok(format!(in alloc; "{kind} {text:?}")?)
        }
        _ => {
            let value = show_value(alloc, value)?;
            let value = value.as_str();
            Ok(format!(in alloc; "{kind} {value}")?)
        }
    }
}
