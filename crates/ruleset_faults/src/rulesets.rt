// What is wrong with rulesets.
ghost use Rattle.std.specs.Prelude.{◌≡◌, not, Ok, IfOk, IfErr};
ghost use Rattle.scalar_trees.specs.typing.Steps.{Refuses};
ghost use Rattle.data_set_trees.specs.aggregates.Groups as groups;
ghost use Rattle.ruleset_faults.specs.Expressions.{Tells};
ghost use Rattle.ruleset_faults.specs.Rulesets as meant;

use crate::items::depending;
use crate::over::is_one_of;
use crate::rules::{see_item_rules, see_point_rules};
use rule_typing::{name_in_rules, variables_of};
use scalar_trees::typing::{Fault, TypeStop, demand};
use std::alloc::{AllocError, Global};
use vtl_syntax::{DatapointRules, HierarchyRules, Ruleset, Variable};
use vtl_values::Word;

/// What rules call these variables.
fn names_of(alloc: Global, variables: &[Variable]) -> Result<Vec<Word>, AllocError>
    ensures { IfOk result (λ names. names.items ≡ meant.names_of variables.now) }
{
    let mut names = Vec::new(alloc);
    for variable in variables {
        names.push(name_in_rules(variable).copy()?)?;
    }
    Ok(names)
}

/// Whether no two of these are one.
fn all_differ(names: &[Word]) -> bool
    ensures { result ≡ meant.all_differ names.now }
{
    for (n, name) in names.iter().enumerate() {
        if is_one_of(&names[n + 1..], name) {
            return false;
        }
    }
    true
}

fn see_datapoint(alloc: Global, rules: &DatapointRules) -> Result<(), TypeStop>
    ensures { Tells (meant.datapoint_seen rules.now) result }
{
    let names = names_of(alloc, rules.variables.as_slice())?;
    see_point_rules(alloc, names.as_slice(), rules.rules.as_slice())?;
    demand(all_differ(names.as_slice()), Fault::NameTwice, rules.place)
}

fn see_hierarchy(alloc: Global, rules: &HierarchyRules) -> Result<(), TypeStop>
    ensures { Tells (meant.hierarchy_seen rules.now) result }
{
    let names = names_of(alloc, variables_of(rules))?;
    let cyclic = depending(alloc, rules.rules.as_slice())?;
    see_item_rules(alloc, names.as_slice(), rules.rules.as_slice(), cyclic)?;
    demand(all_differ(names.as_slice()), Fault::NameTwice, rules.place)
}

fn see_ruleset(alloc: Global, rules: &Ruleset) -> Result<(), TypeStop>
    ensures { Tells (meant.ruleset_seen rules.now) result }
{
    match rules {
        Ruleset::Datapoint(rules) => see_datapoint(alloc, rules),
        Ruleset::Hierarchy(rules) => see_hierarchy(alloc, rules),
    }
}

/// That nothing is wrong with these rulesets by themselves.
///
/// # Errors
/// The first fault of the first ruleset that has one. In a ruleset its rules come first, in order, and of a rule its
/// condition, the value of a datapoint rule, and then the rule itself, at its place: `NameTwice` where a rule before it has
/// its name, `BadRuleset` where an `=` rule before it works out the same item, or where it is the first rule whose left item
/// depends on itself. Of an expression the parts come first: `UnknownComponent` at a name that is none of the ruleset's
/// variables, `BadConstant` where digits, a reach, an offset or a shift are beyond their limits or a null stands in a set,
/// `BadPattern` where a pattern is none. After all rules `NameTwice` at `define`, where rules call two variables by one name.
/// Else want of memory alone.
///
/// # Costs
/// Each expression is looked at once. The names of rules are compared with those before them, and the items of a hierarchical
/// ruleset with its left items; `depending` says what the rest costs.
pub fn check_rulesets(alloc: Global, rulesets: &[Ruleset]) -> Result<(), TypeStop>
    ensures ok { IfOk result (λ met. meant.rulesets_seen rulesets.now ≡ Ok met) }
    ensures err { IfErr result (Refuses (meant.rulesets_seen rulesets.now)) }
{
    for ruleset in rulesets {
        see_ruleset(alloc, ruleset)?;
    }
    Ok(())
}
