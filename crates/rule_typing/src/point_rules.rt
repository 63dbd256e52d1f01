// Rules of datapoint rulesets.
ghost use Rattle.std.specs.Prelude.{◌≡◌, flat_map, IfOk};
ghost use Rattle.std.specs.Result.{result_ok, result_err};
ghost use Rattle.data_set_trees.specs.rules.Rules as told;
ghost use Rattle.data_set_trees.specs.rules.Datapoints as meant;
ghost use Rattle.rule_typing.specs.PointRules as parts;

use crate::conditions::{boolean_checked, condition_checked};
use crate::faults::{earlier, first_of};
use crate::told::{error_of, rule_name};
use data_set_trees::rules::{PointRule, RuleError};
use scalar_trees::CheckedExpr;
use scalar_trees::typing::{Fault, Scope};
use sqlite_items::Items;
use std::alloc::{AllocError, Global};
use vtl_syntax::ruleset::DatapointRule;
use vtl_values::{Place, Word};

/// The rule, or the first of its faults.
fn point_rule(
    name: Word,
    error: RuleError,
    condition: Result<Option<CheckedExpr>, Fault>,
    value: Result<CheckedExpr, Fault>,
) -> Result<PointRule, Fault>
    ensures { result ≡ parts.point_rule name error condition value }
{
    match condition {
        Ok(condition) => match value {
            Ok(value) => Ok(PointRule {
                name,
                condition,
                value,
                error,
            }),
            Err(fault) => Err(fault),
        },
        Err(fault) => match value {
            Ok(_) => Err(fault),
            Err(other) => Err(first_of(fault, other)),
        },
    }
}

/// The rule at this place, from 1, as it is checked, or the first of its faults. Or want of memory.
fn rule_checked(
    alloc: Global,
    scope: &Scope,
    place: Place,
    number: u64,
    rule: &DatapointRule,
) -> Result<Result<PointRule, Fault>, AllocError>
    ensures rule { IfOk result (λ found. result_ok found ≡ told.given (meant.rule_typed scope.now place number rule.now)) }
    ensures fault { IfOk result (λ found. result_err found ≡ told.first_fault (meant.rule_faults scope.now place rule.now)) }
{
    let name = rule_name(alloc, number, &rule.name)?;
    let error = error_of(&rule.fault)?;
    let condition = condition_checked(alloc, scope, place, &rule.condition)?;
    let value = boolean_checked(alloc, scope, place, &rule.expr)?;
    Ok(point_rule(name, error, condition, value))
}

/// The rules that have no fault as they are checked, and the first of the faults of all others. Or want of memory. It costs
/// what the expressions in the rules do.
pub(crate) fn rules_checked(
    alloc: Global,
    scope: &Scope,
    place: Place,
    rules: &[DatapointRule],
) -> Result<(Items<PointRule>, Option<Fault>), AllocError>
    ensures rules { IfOk result (λ found. found.0 ≡ meant.rules_typed scope.now place rules.now) }
    ensures fault { IfOk result (λ found. found.1 ≡ told.first_fault (flat_map (meant.rule_faults scope.now place) rules.now)) }
{
    let mut checked = Items::new(alloc);
    let mut first = None;
    for (i, rule) in rules.iter().enumerate() {
        match rule_checked(alloc, scope, place, i as u64 + 1, rule)? {
            Ok(rule) => checked.push(rule)?,
            Err(fault) => first = earlier(first, Some(fault)),
        }
    }
    Ok((checked, first))
}
