// The outlines of a script.
ghost use Rattle.std.specs.Prelude.{◌≡◌, ◌++◌, map, IfOk, OnOk};
ghost use Rattle.std.specs.List.{flat_map};
ghost use Rattle.operator_faults.specs.Sketches as meant;

use crate::outline::Outline;
use crate::trees::outline_of;
use sqlite_items::Items;
use std::alloc::{AllocError, Global};
use vtl_syntax::{DatapointRule, DefinedOperator, Expr, HierarchyRule, Ruleset, Script, Statement};

/// The outlines of the statements of a script, of the expressions in its rulesets, and of the bodies of its operators,
/// each in their order.
#[derive(Drop)]
pub struct Sketch {
    pub statements: Items<Outline>,
    pub rulesets: Items<Outline>,
    pub bodies: Items<Outline>,
}

impl Sketch {
    pub fn of(alloc: Global, script: &Script) -> Result<Sketch, AllocError>
        ensures { IfOk result (λ s. s ≡ meant.sketch_of script.now) }
    {
        Ok(Sketch {
            statements: statements(alloc, script.statements.as_slice())?,
            rulesets: rulesets(alloc, script.rulesets.as_slice())?,
            bodies: bodies(alloc, script.operators.as_slice())?,
        })
    }
}

fn statements(alloc: Global, statements: &[Statement]) -> Result<Items<Outline>, AllocError>
    ensures { IfOk result (λ outlines. outlines ≡ map meant.of_statement statements.now) }
{
    let mut outlines = Items::new(alloc);
    for statement in statements {
        outlines.push(outline_of(alloc, &statement.expr)?)?;
    }
    Ok(outlines)
}

fn bodies(alloc: Global, operators: &[DefinedOperator]) -> Result<Items<Outline>, AllocError>
    ensures { IfOk result (λ outlines. outlines ≡ map meant.of_operator operators.now) }
{
    let mut outlines = Items::new(alloc);
    for operator in operators {
        outlines.push(outline_of(alloc, &operator.body)?)?;
    }
    Ok(outlines)
}

fn rulesets(alloc: Global, rulesets: &[Ruleset]) -> Result<Items<Outline>, AllocError>
    ensures { IfOk result (λ outlines. outlines ≡ flat_map meant.of_ruleset rulesets.now) }
{
    let mut outlines = Items::new(alloc);
    for ruleset in rulesets {
        match ruleset {
            Ruleset::Datapoint(rules) => {
                put_datapoint(alloc, rules.rules.as_slice(), &mut outlines)?
            }
            Ruleset::Hierarchy(rules) => {
                put_hierarchy(alloc, rules.rules.as_slice(), &mut outlines)?
            }
        }
    }
    Ok(outlines)
}

fn put_datapoint(
    alloc: Global,
    rules: &[DatapointRule],
    out: &mut Items<Outline>,
) -> Result<(), AllocError>
    ensures { OnOk result (out.new ≡ out.old ++ flat_map meant.of_datapoint rules.now) }
{
    for rule in rules {
        put_optional(alloc, &rule.condition, out)?;
        put(alloc, &rule.expr, out)?;
    }
    Ok(())
}

fn put_hierarchy(
    alloc: Global,
    rules: &[HierarchyRule],
    out: &mut Items<Outline>,
) -> Result<(), AllocError>
    ensures { OnOk result (out.new ≡ out.old ++ flat_map meant.of_hierarchy rules.now) }
{
    for rule in rules {
        put_optional(alloc, &rule.condition, out)?;
    }
    Ok(())
}

/// Puts the outline of an expression after those that are there.
fn put(alloc: Global, expr: &Expr, out: &mut Items<Outline>) -> Result<(), AllocError>
    ensures { OnOk result (out.new ≡ out.old ++ meant.of_rule expr.now) }
{
    out.push(outline_of(alloc, expr)?)
}

fn put_optional(
    alloc: Global,
    expr: &Option<Expr>,
    out: &mut Items<Outline>,
) -> Result<(), AllocError>
    ensures { OnOk result (out.new ≡ out.old ++ meant.of_condition expr.now) }
{
    match expr {
        Some(expr) => put(alloc, expr, out),
        None => Ok(()),
    }
}
