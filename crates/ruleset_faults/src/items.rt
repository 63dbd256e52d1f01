// What the items of a hierarchical ruleset are worked out from.
ghost use Rattle.std.specs.Prelude.{◌≡◌, ◌++◌, ◌∷◌, [], filter_map, map, IfOk, OnOk, if◌then◌else◌};
ghost use Rattle.ruleset_faults.specs.Items as meant;

use script_graph::in_order;
use shortest_cycles::{Graph, first_cycle};
use sqlite_items::Items;
use std::alloc::{AllocError, Global};
use vtl_syntax::words::Relation;
use vtl_syntax::{HierarchyRule, SignedName};
use vtl_values::Word;

pub(crate) fn is_equal(relation: Relation) -> bool
    ensures { result ≡ meant.is_equal relation }
{
    match relation {
        Relation::Equal => true,
        Relation::Less | Relation::Greater | Relation::AtMost | Relation::AtLeast => false,
    }
}

/// Whether the rule works the item out.
fn works_out(item: &Word, rule: &HierarchyRule) -> bool
    ensures { result ≡ meant.works_out item.now rule.now }
{
    is_equal(rule.relation) && *item == rule.left
}

/// The number of the first rule that works the item out.
fn first_for(rules: &[HierarchyRule], item: &Word) -> Option<usize>
    ensures { result ≡ meant.first_for rules.now item.now }
{
    rules.iter().position(|rule| works_out(item, rule))
}

/// Whether the rule with this number is the first that works its left item out.
pub(crate) fn is_first(rules: &[HierarchyRule], number: usize, rule: &HierarchyRule) -> bool
    ensures { result ≡ meant.is_first rules.now number rule.now }
{
    match first_for(rules, &rule.left) {
        Some(first) => number == first,
        None => false,
    }
}

/// Adds the first rule that works the item out, if one does.
fn put_first(rules: &[HierarchyRule], item: &Word, out: &mut Items<usize>) -> Result<(), AllocError>
    ensures { OnOk result (out.new ≡ out.old ++ filter_map (meant.first_for rules.now) (item.now ∷ [])) }
{
    match first_for(rules, item) {
        Some(number) => out.push(number),
        None => Ok(()),
    }
}

fn put_others(
    rules: &[HierarchyRule],
    others: &[SignedName],
    out: &mut Items<usize>,
) -> Result<(), AllocError>
    ensures { OnOk result (out.new ≡ out.old ++ filter_map (meant.first_for rules.now) (map (λ s. s.name) others.now)) }
{
    for other in others {
        put_first(rules, &other.name, out)?;
    }
    Ok(())
}

/// Adds the first rules that work out what this one adds up.
fn put_right(
    rules: &[HierarchyRule],
    rule: &HierarchyRule,
    out: &mut Items<usize>,
) -> Result<(), AllocError>
    ensures { OnOk result (out.new ≡ out.old ++ filter_map (meant.first_for rules.now) (meant.right_items rule.now)) }
{
    put_first(rules, &rule.first, out)?;
    put_others(rules, rule.others.as_slice(), out)
}

/// Adds the first rules that work out what this one adds up, if it works the item out.
fn put_rule(
    rules: &[HierarchyRule],
    item: &Word,
    rule: &HierarchyRule,
    out: &mut Items<usize>,
) -> Result<(), AllocError>
    ensures { OnOk result (out.new ≡ out.old ++ filter_map (meant.first_for rules.now) (if meant.works_out item.now rule.now then meant.right_items rule.now else [])) }
{
    if works_out(item, rule) {
        put_right(rules, rule, out)
    } else {
        Ok(())
    }
}

/// The first rules that work out what the item is worked out from.
fn rules_for_item(
    alloc: Global,
    rules: &[HierarchyRule],
    item: &Word,
) -> Result<Items<usize>, AllocError>
    ensures { IfOk result (λ numbers. numbers ≡ filter_map (meant.first_for rules.now) (meant.items_for rules.now item.now)) }
{
    let mut numbers = Items::new(alloc);
    for rule in rules {
        put_rule(rules, item, rule, &mut numbers)?;
    }
    Ok(numbers)
}

/// Where the rule with this number leads.
fn rules_for(
    alloc: Global,
    rules: &[HierarchyRule],
    number: usize,
    rule: &HierarchyRule,
) -> Result<Items<usize>, AllocError>
    ensures { IfOk result (λ numbers. numbers ≡ meant.rules_for rules.now number rule.now) }
{
    if is_first(rules, number, rule) {
        rules_for_item(alloc, rules, &rule.left)
    } else {
        Ok(Items::new(alloc))
    }
}

/// For each rule those to which it leads.
fn graph_of(alloc: Global, rules: &[HierarchyRule]) -> Result<Graph, AllocError>
    ensures { IfOk result (λ graph. graph ≡ meant.graph_of rules.now) }
{
    let mut graph = Items::new(alloc);
    for (number, rule) in rules.iter().enumerate() {
        graph.push(rules_for(alloc, rules, number, rule)?)?;
    }
    Ok(graph)
}

fn first_of(cycle: &Option<Items<usize>>) -> Option<usize>
    ensures { result ≡ meant.first_of cycle.now }
{
    match cycle {
        Some(cycle) => cycle.as_slice().first().copied(),
        None => None,
    }
}

/// The number of the first rule whose left item depends on itself, if there is one. Or want of memory. It costs the number
/// of rules times that of all their items, and for each rule a pass over what it leads to; only where an item depends on
/// itself, for each rule as many passes as there are rules.
pub(crate) fn depending(alloc: Global, rules: &[HierarchyRule]) -> Result<Option<usize>, AllocError>
    ensures { IfOk result (λ number. number ≡ meant.depending rules.now) }
{
    let graph = graph_of(alloc, rules)?;
    if in_order(alloc, graph.as_slice())?.is_some() {
        return Ok(None);
    }
    Ok(first_of(&first_cycle(alloc, &graph)?))
}
