// Literals in rulesets.
ghost use Rattle.std.specs.Prelude.{◌≡◌, true};
ghost use Rattle.std.specs.List.{list_all};
ghost use Rattle.literal_ranges.specs.Ranges.{condition_in_range, datapoint_in_range, hierarchy_in_range, ruleset_in_range};

use crate::literals::see_literals;
use vtl_syntax::Expr;
use vtl_syntax::ruleset::{DatapointRule, HierarchyRule, Ruleset};

fn see_condition(condition: &Option<Expr>)
    ensures { condition_in_range condition.now ≡ true }
{
    match condition {
        Some(condition) => see_literals(condition),
        None => (),
    }
}

fn see_point_rule(rule: &DatapointRule)
    ensures { datapoint_in_range rule.now ≡ true }
{
    see_condition(&rule.condition);
    see_literals(&rule.expr);
}

fn see_point_rules(rules: &[DatapointRule])
    ensures { list_all datapoint_in_range rules.now ≡ true }
{
    for rule in rules {
        see_point_rule(rule);
    }
}

fn see_item_rules(rules: &[HierarchyRule])
    ensures { list_all hierarchy_in_range rules.now ≡ true }
{
    for rule in rules {
        see_condition(&rule.condition);
    }
}

fn see_ruleset(rules: &Ruleset)
    ensures { ruleset_in_range rules.now ≡ true }
{
    match rules {
        Ruleset::Datapoint(rules) => see_point_rules(rules.rules.as_slice()),
        Ruleset::Hierarchy(rules) => see_item_rules(rules.rules.as_slice()),
    }
}

/// Looks at each literal in the expressions of the rulesets. All are in range, since each value is. It costs the size of
/// the expressions, and changes nothing.
pub fn see_rulesets(rulesets: &[Ruleset])
    ensures { list_all ruleset_in_range rulesets.now ≡ true }
{
    for ruleset in rulesets {
        see_ruleset(ruleset);
    }
}
