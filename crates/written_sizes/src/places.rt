// Where the expressions of a script stand that have outlines.
ghost use Rattle.std.specs.Prelude.{◌≡◌, ◌++◌, map, IfOk, OnOk};
ghost use Rattle.std.specs.List.{flat_map};
ghost use Rattle.written_sizes.specs.Places as meant;

use sqlite_items::Items;
use std::alloc::{AllocError, Global};
use vtl_syntax::{DatapointRule, Expr, HierarchyRule, Ruleset, Script, Statement};
use vtl_values::Place;

/// The places of the statements, and then those of the expressions in rulesets, or want of memory.
pub(crate) fn places_of(alloc: Global, script: &Script) -> Result<Items<Place>, AllocError>
    ensures { IfOk result (λ places. places ≡ meant.places_of script.now) }
{
    let mut places = Items::new(alloc);
    put_statements(script.statements.as_slice(), &mut places)?;
    put_rulesets(script.rulesets.as_slice(), &mut places)?;
    Ok(places)
}

fn put_statements(statements: &[Statement], out: &mut Items<Place>) -> Result<(), AllocError>
    ensures { OnOk result (out.new ≡ out.old ++ map meant.of_statement statements.now) }
{
    for statement in statements {
        out.push(statement.place)?;
    }
    Ok(())
}

fn put_rulesets(rulesets: &[Ruleset], out: &mut Items<Place>) -> Result<(), AllocError>
    ensures { OnOk result (out.new ≡ out.old ++ flat_map meant.of_ruleset rulesets.now) }
{
    for ruleset in rulesets {
        match ruleset {
            Ruleset::Datapoint(rules) => put_datapoint(rules.rules.as_slice(), out)?,
            Ruleset::Hierarchy(rules) => put_hierarchy(rules.rules.as_slice(), out)?,
        }
    }
    Ok(())
}

fn put_datapoint(rules: &[DatapointRule], out: &mut Items<Place>) -> Result<(), AllocError>
    ensures { OnOk result (out.new ≡ out.old ++ flat_map meant.of_datapoint rules.now) }
{
    for rule in rules {
        put_condition(rule.place, &rule.condition, out)?;
        out.push(rule.place)?;
    }
    Ok(())
}

fn put_hierarchy(rules: &[HierarchyRule], out: &mut Items<Place>) -> Result<(), AllocError>
    ensures { OnOk result (out.new ≡ out.old ++ flat_map meant.of_hierarchy rules.now) }
{
    for rule in rules {
        put_condition(rule.place, &rule.condition, out)?;
    }
    Ok(())
}

/// The place, if there is a condition.
fn put_condition(
    place: Place,
    condition: &Option<Expr>,
    out: &mut Items<Place>,
) -> Result<(), AllocError>
    ensures { OnOk result (out.new ≡ out.old ++ meant.of_condition place condition.now) }
{
    match condition {
        Some(_) => out.push(place),
        None => Ok(()),
    }
}
