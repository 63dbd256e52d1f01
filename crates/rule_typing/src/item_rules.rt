// Rules of hierarchical rulesets.
ghost use Rattle.std.specs.Prelude.{◌≡◌, ◌∷◌, flat_map, map, unwrap_or, IfOk};
ghost use Rattle.std.specs.Result.{result_ok, result_err};
ghost use Rattle.vtl_syntax.specs.declared.words.Sign.TheVariants.{Plus};
ghost use Rattle.data_set_trees.specs.rules.Rules as told;
ghost use Rattle.data_set_trees.specs.rules.Hierarchies as meant;

use crate::conditions::condition_checked;
use crate::faults::earlier;
use crate::told::{error_of, rule_name};
use data_set_trees::rules::{ItemRule, SignedItem};
use scalar_trees::typing::{Fault, Scope};
use sqlite_items::Items;
use std::alloc::{AllocError, Global};
use vtl_syntax::ruleset::{HierarchyRule, SignedName};
use vtl_syntax::words::Sign;
use vtl_values::Place;

fn signed(named: &SignedName) -> Result<SignedItem, AllocError>
    ensures { IfOk result (λ item. item ≡ meant.signed named.now) }
{
    Ok(SignedItem {
        sign: named.sign,
        item: named.name.copy()?,
    })
}

/// The item that a rule names first; without a sign it is added.
fn first_item(rule: &HierarchyRule) -> Result<SignedItem, AllocError>
    ensures { IfOk result (λ item. item ≡ record { sign = unwrap_or rule.now.sign Plus; item = rule.now.first }) }
{
    Ok(SignedItem {
        sign: rule.sign.unwrap_or(Sign::Plus),
        item: rule.first.copy()?,
    })
}

/// The items at the right of a rule.
fn items_of(alloc: Global, rule: &HierarchyRule) -> Result<Items<SignedItem>, AllocError>
    ensures { IfOk result (λ items. items ≡ record { sign = unwrap_or rule.now.sign Plus; item = rule.now.first } ∷ map meant.signed rule.now.others) }
{
    let mut items = Items::new(alloc);
    items.push(first_item(rule)?)?;
    for named in rule.others.as_slice() {
        items.push(signed(named)?)?;
    }
    Ok(items)
}

/// The rule at this place, from 1, as it is checked, or its fault. Or want of memory.
fn rule_checked(
    alloc: Global,
    scope: &Scope,
    place: Place,
    number: u64,
    rule: &HierarchyRule,
) -> Result<Result<ItemRule, Fault>, AllocError>
    ensures rule { IfOk result (λ found. result_ok found ≡ told.given (meant.rule_typed scope.now place number rule.now)) }
    ensures fault { IfOk result (λ found. result_err found ≡ told.first_fault (told.fault_in (told.condition_typed scope.now place rule.now.condition))) }
{
    let name = rule_name(alloc, number, &rule.name)?;
    let left = rule.left.copy()?;
    let right = items_of(alloc, rule)?;
    let error = error_of(&rule.fault)?;
    match condition_checked(alloc, scope, place, &rule.condition)? {
        Ok(condition) => Ok(Ok(ItemRule {
            name,
            condition,
            left,
            relation: rule.relation,
            right,
            error,
        })),
        Err(fault) => Ok(Err(fault)),
    }
}

/// The rules that have no fault as they are checked, and the first of the faults of all others. Or want of memory. It costs
/// what the conditions of the rules do.
pub(crate) fn rules_checked(
    alloc: Global,
    scope: &Scope,
    place: Place,
    rules: &[HierarchyRule],
) -> Result<(Items<ItemRule>, Option<Fault>), AllocError>
    ensures rules { IfOk result (λ found. found.0 ≡ meant.rules_typed scope.now place rules.now) }
    ensures fault { IfOk result (λ found. found.1 ≡ told.first_fault (flat_map (λ h. told.fault_in (told.condition_typed scope.now place h.condition)) rules.now)) }
{
    let mut checked = Items::new(alloc);
    let mut first = None;
    for (i, rule) in rules.iter().enumerate() {
        match rule_checked(alloc, scope, place, i as u64 + 1, rule)? {
            Ok(rule) => checked.push(rule)?,
            Err(fault) => first = earlier(first, Some(fault)),
        }
    }
    Ok((checked, first))
}
