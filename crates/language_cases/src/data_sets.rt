// Cases of expressions on data sets: the structures of their results, or their faults.
//
// A case is an expression, whose names are those of the data sets of `data/structures.json`, and the rulesets that it
// uses, if it does. The lexer and the parser of scripts read it. What is written is:
//
// - the word `ruleset` and the first fault that rulesets have by themselves, after the column of its place;
// - for a data set, its components in their order, each as `name:role:type`;
// - for a scalar, the word `scalar` and its kind, which the literal null doesn't have;
// - or its fault after the column of its place, in bytes of the expression from 1 on.
use crate::parsing::script_of;
use crate::words::{faulty, kind_word, shown};
use anyhow::{Result, bail};
use data_set_trees::Operand;
use ruleset_faults::check_rulesets;
use scalar_trees::typing::TypeStop;
use serde_json::Value as Json;
use statement_typing::{Names, check_expression};
use std::alloc::Global;
use vtl_syntax::Script;
use vtl_values::{Kind, Structures};

// The rulesets stand after the expression.
fn rulesets_of(words: &[Json]) -> &str {
    match words {
        [_, Json::String(text), ..] => text.as_str(),
        _ => "",
    }
}

/// The first fault that rulesets have by themselves, or else the structure of what an expression gives, or its fault.
pub fn answer(
    alloc: Global,
    structures: &Structures,
    expression: &str,
    words: &[Json],
) -> Result<String> {
    let script = script_of(alloc, expression, rulesets_of(words))?;
    match check_rulesets(alloc, script.rulesets.as_slice()) {
        Ok(()) => typed(alloc, structures, &script),
        Err(TypeStop::Refused(refusal)) => {
            let text = faulty(alloc, refusal)?;
            Ok(format!(in alloc; "ruleset {text}")?)
        }
        Err(TypeStop::Memory) => bail!("out of memory"),
    }
}

fn typed(alloc: Global, structures: &Structures, script: &Script) -> Result<String> {
    let Some(statement) = script.statements.as_slice().first() else {
        bail!("no statement");
    };
    let names = Names::new(alloc, structures, script.rulesets.as_slice());
    match check_expression(alloc, &names, &statement.expr) {
        Ok(Operand::DataSet(set)) => shown(alloc, &set.structure),
        Ok(Operand::Scalar(typed)) => scalar(alloc, typed.kind),
        Err(TypeStop::Refused(refusal)) => faulty(alloc, refusal),
        Err(TypeStop::Memory) => bail!("out of memory"),
    }
}

fn scalar(alloc: Global, kind: Option<Kind>) -> Result<String> {
    let word = match kind {
        Some(kind) => kind_word(kind),
        None => "null",
    };
    Ok(format!(in alloc; "scalar {word}")?)
}
