// What names in rules stand for.
ghost use Rattle.std.specs.Prelude.{◌≡◌, filter_map, IfOk};
ghost use Rattle.data_set_trees.specs.rules.Rules as meant;
ghost use Rattle.rule_typing.specs.Named as parts;

use clause_typing::bare_number_of;
use data_set_trees::clauses::Frame;
use operator_typing::columns_of;
use scalar_trees::typing::{Scope, ScopeName};
use sqlite_items::Items;
use std::alloc::{AllocError, Global};
use vtl_syntax::ruleset::Variable;
use vtl_values::Word;

/// Whether each variable is a component.
pub(crate) fn are_known(frame: &Frame, variables: &[Variable]) -> bool
    ensures { result ≡ parts.known_on frame.now variables.now }
{
    variables
        .iter()
        .all(|variable| bare_number_of(frame, &variable.name).is_some())
}

/// What a variable is called in rules: its alias, if it has one.
pub fn name_in_rules(variable: &Variable) -> &Word
    ensures { result.now ≡ meant.name_in_rules variable.now }
{
    match &variable.alias {
        Some(alias) => alias,
        None => &variable.name,
    }
}

fn scope_name(frame: &Frame, variable: &Variable) -> Result<Option<ScopeName>, AllocError>
    ensures { IfOk result (λ name. name ≡ parts.variable_on frame.now variable.now) }
{
    match bare_number_of(frame, &variable.name) {
        Some(number) => Ok(Some(ScopeName {
            alias: None,
            name: name_in_rules(variable).copy()?,
            number,
        })),
        None => Ok(None),
    }
}

fn scope_names(
    alloc: Global,
    frame: &Frame,
    variables: &[Variable],
) -> Result<Items<ScopeName>, AllocError>
    ensures { IfOk result (λ names. names ≡ filter_map (parts.variable_on frame.now) variables.now) }
{
    let mut names = Items::new(alloc);
    for variable in variables {
        if let Some(name) = scope_name(frame, variable)? {
            names.push(name)?;
        }
    }
    Ok(names)
}

/// What names stand for in rules with these variables, or want of memory.
pub(crate) fn scope_of_rules(
    alloc: Global,
    frame: &Frame,
    variables: &[Variable],
) -> Result<Scope, AllocError>
    ensures { IfOk result (λ scope. scope ≡ parts.scope_on frame.now variables.now) }
{
    Ok(Scope {
        names: scope_names(alloc, frame, variables)?,
        columns: columns_of(alloc, frame.components.as_slice())?,
    })
}
