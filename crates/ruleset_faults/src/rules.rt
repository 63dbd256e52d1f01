// What is wrong with rules.
ghost use Rattle.std.specs.Prelude.{◌≡◌, [], false, nat_eq};
ghost use Rattle.std.specs.Option.{option_map_or};
ghost use Rattle.ruleset_faults.specs.Expressions.{Tells, seen_if};
ghost use Rattle.ruleset_faults.specs.Rulesets as meant;

use crate::expressions::see;
use crate::items::{is_equal, is_first};
use crate::over::is_one_of;
use clause_typing::demands;
use rule_typing::rule_name;
use scalar_trees::typing::{Fault, TypeStop, demand};
use std::alloc::Global;
use vtl_syntax::{DatapointRule, Expr, HierarchyRule};
use vtl_values::Word;

/// What is wrong with a condition, if there is one.
fn see_condition(alloc: Global, names: &[Word], condition: &Option<Expr>) -> Result<(), TypeStop>
    ensures { Tells (seen_if names.now condition.now) result }
{
    match condition {
        Some(condition) => see(alloc, names, condition),
        None => Ok(()),
    }
}

/// What is wrong with a rule of this name, after rules of those names.
fn see_point_rule(
    alloc: Global,
    names: &[Word],
    earlier: &[Word],
    name: &Word,
    rule: &DatapointRule,
) -> Result<(), TypeStop>
    ensures { Tells (meant.point_rule_seen names.now earlier.now name.now rule.now) result }
{
    see_condition(alloc, names, &rule.condition)?;
    see(alloc, names, &rule.expr)?;
    demand(!is_one_of(earlier, name), Fault::NameTwice, rule.place)
}

/// What is wrong with the rules of a datapoint ruleset.
pub(crate) fn see_point_rules(
    alloc: Global,
    names: &[Word],
    rules: &[DatapointRule],
) -> Result<(), TypeStop>
    ensures { Tells (meant.point_rules_seen names.now [] 0 rules.now) result }
{
    let mut earlier = Vec::new(alloc);
    for (n, rule) in rules.iter().enumerate() {
        let name = rule_name(alloc, n as u64 + 1, &rule.name)?;
        see_point_rule(alloc, names, earlier.as_slice(), &name, rule)?;
        earlier.push(name)?;
    }
    Ok(())
}

fn is_number(number: usize, found: Option<usize>) -> bool
    ensures { result ≡ option_map_or (nat_eq number) found false }
{
    match found {
        Some(found) => number == found,
        None => false,
    }
}

/// Whether the rule with this number may stand among those, of which the other one is the first whose left item depends on
/// itself.
fn may_work_out(
    rules: &[HierarchyRule],
    cyclic: Option<usize>,
    number: usize,
    rule: &HierarchyRule,
) -> bool
    ensures { result ≡ meant.may_work_out rules.now cyclic number rule.now }
{
    (!is_equal(rule.relation) || is_first(rules, number, rule)) && !is_number(number, cyclic)
}

/// What is wrong with a rule of this name, after rules of those names.
fn see_item_rule(
    alloc: Global,
    names: &[Word],
    earlier: &[Word],
    name: &Word,
    may_work_out: bool,
    rule: &HierarchyRule,
) -> Result<(), TypeStop>
    ensures { Tells (meant.item_rule_seen names.now earlier.now name.now may_work_out rule.now) result }
{
    see_condition(alloc, names, &rule.condition)?;
    demands(
        rule.place,
        &[
            (!is_one_of(earlier, name), Fault::NameTwice),
            (may_work_out, Fault::BadRuleset),
        ],
    )
}

/// What is wrong with the rules of a hierarchical ruleset, of which this one is the first whose left item depends on itself.
pub(crate) fn see_item_rules(
    alloc: Global,
    names: &[Word],
    rules: &[HierarchyRule],
    cyclic: Option<usize>,
) -> Result<(), TypeStop>
    ensures { Tells (meant.item_rules_seen names.now rules.now cyclic [] 0 rules.now) result }
{
    let mut earlier = Vec::new(alloc);
    for (n, rule) in rules.iter().enumerate() {
        let name = rule_name(alloc, n as u64 + 1, &rule.name)?;
        let may = may_work_out(rules, cyclic, n, rule);
        see_item_rule(alloc, names, earlier.as_slice(), &name, may, rule)?;
        earlier.push(name)?;
    }
    Ok(())
}
