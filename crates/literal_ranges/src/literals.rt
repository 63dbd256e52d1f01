// Literals in expressions.
ghost use Rattle.std.specs.Prelude.{◌≡◌, ◌&&◌, true, option_map};
ghost use Rattle.std.specs.List.{list_all};
ghost use Rattle.scalar_trees.specs.WellTyped.{in_range};
ghost use Rattle.literal_ranges.specs.Ranges.{if_given, literals_in_range, clause_in_range, groups_in_range, item_in_range, operand_in_range, part_in_range};

use scalar_trees::literal_kind;
use sqlite_items::Boxed;
use vtl_syntax::{Clause, Expr, Groups, Item, JoinOperand, SubstrRange};
use vtl_values::Value;

fn see_value(value: &Value)
    ensures { in_range value.now ≡ true }
{
    let _kind = literal_kind(value);
}

fn see_values(values: &[Value])
    ensures { list_all in_range values.now ≡ true }
{
    for value in values {
        see_value(value);
    }
}

fn see_bounds(low: &Value, high: &Value)
    ensures { (in_range low.now && in_range high.now) ≡ true }
{
    see_value(low);
    see_value(high);
}

/// Looks at each literal of the expression and of its clauses. All are in range, since each value is. It costs the size of
/// the expression, and changes nothing.
#[cycle(walk)]
pub fn see_literals(tree: &Expr)
    ensures { literals_in_range tree.now ≡ true }
{
    match tree {
        Expr::Literal { value, .. } => see_value(value),
        Expr::In { left, set, .. } => see_with_set(left.get(), set.as_slice()),
        Expr::Between {
            operand,
            low,
            high,
            ..
        } => see_between(operand.get(), low, high),
        Expr::Bracket { inner, .. } => see_literals(inner.get()),
        Expr::Signed { operand, .. } => see_literals(operand.get()),
        Expr::Unary { operand, .. } => see_literals(operand.get()),
        Expr::Or { left, right, .. } => see_both(left.get(), right.get()),
        Expr::And { left, right, .. } => see_both(left.get(), right.get()),
        Expr::Compare { left, right, .. } => see_both(left.get(), right.get()),
        Expr::Sum { left, right, .. } => see_both(left.get(), right.get()),
        Expr::Product { left, right, .. } => see_both(left.get(), right.get()),
        Expr::Binary { left, right, .. } => see_both(left.get(), right.get()),
        Expr::Round { operand, .. } => see_literals(operand.get()),
        Expr::MatchCharacters { operand, .. } => see_literals(operand.get()),
        Expr::Substr { operand, range, .. } => see_with_range(operand.get(), range),
        Expr::Replace {
            operand,
            pattern,
            by,
            ..
        } => see_replace(operand.get(), pattern.get(), by),
        Expr::If {
            condition,
            holds,
            fails,
            ..
        } => see_three(condition.get(), holds.get(), fails.get()),
        Expr::Typed { expr, .. } => see_literals(expr.get()),
        Expr::Member { operand, .. } => see_literals(operand.get()),
        Expr::Clause {
            operand,
            clause,
            ..
        } => see_with_clause(operand.get(), clause.get()),
        Expr::ExistsIn { left, right, .. } => see_both(left.get(), right.get()),
        Expr::Sets {
            first,
            second,
            others,
            ..
        } => see_sets(first.get(), second.get(), others.as_slice()),
        Expr::Difference { left, right, .. } => see_both(left.get(), right.get()),
        Expr::Join {
            first,
            second,
            others,
            filter,
            calc,
            keep,
            rename,
            ..
        } => {
            see_operands(first.get(), second.get(), others.as_slice());
            see_clauses(filter, calc, keep, rename);
        }
        Expr::Name { .. } => (),
        Expr::Aggregate {
            operand,
            groups,
            ..
        } => see_with_groups(operand.get(), groups),
        Expr::Window { operand, .. } => see_literals(operand.get()),
        Expr::CountAll { .. } => (),
        Expr::Offset { operand, .. } => see_literals(operand.get()),
        Expr::Rank { .. } => (),
        Expr::CheckDatapoint { operand, .. } => see_literals(operand.get()),
        Expr::Hierarchy { operand, .. } => see_literals(operand.get()),
        Expr::CheckHierarchy { operand, .. } => see_literals(operand.get()),
        Expr::Check {
            operand,
            imbalance,
            ..
        } => see_with_optional(operand.get(), imbalance),
        Expr::Time { operand, .. } => see_literals(operand.get()),
        Expr::Timeshift { operand, .. } => see_literals(operand.get()),
        Expr::FillTimeSeries { operand, .. } => see_literals(operand.get()),
        Expr::CallOf { .. } => (),
    }
}

#[cycle(walk)]
fn see_both(first: &Expr, second: &Expr)
    ensures { (literals_in_range first.now && literals_in_range second.now) ≡ true }
{
    see_literals(first);
    see_literals(second);
}

#[cycle(walk)]
fn see_three(first: &Expr, second: &Expr, third: &Expr)
    ensures { (literals_in_range first.now && (literals_in_range second.now && literals_in_range third.now)) ≡ true }
{
    see_literals(first);
    see_both(second, third);
}

#[cycle(walk)]
fn see_with_set(tree: &Expr, set: &[Value])
    ensures { (literals_in_range tree.now && list_all in_range set.now) ≡ true }
{
    see_literals(tree);
    see_values(set);
}

#[cycle(walk)]
fn see_between(tree: &Expr, low: &Value, high: &Value)
    ensures { (literals_in_range tree.now && (in_range low.now && in_range high.now)) ≡ true }
{
    see_literals(tree);
    see_bounds(low, high);
}

#[cycle(walk)]
fn see_each(trees: &[Expr])
    ensures { list_all literals_in_range trees.now ≡ true }
{
    for tree in trees {
        see_literals(tree);
    }
}

#[cycle(walk)]
fn see_sets(first: &Expr, second: &Expr, others: &[Expr])
    ensures { (literals_in_range first.now && (literals_in_range second.now && list_all literals_in_range others.now)) ≡ true }
{
    see_both(first, second);
    see_each(others);
}

#[cycle(walk)]
fn see_optional(tree: &Option<Boxed<Expr>>)
    ensures { if_given (option_map literals_in_range tree.now) ≡ true }
{
    match tree {
        Some(tree) => see_literals(tree.get()),
        None => (),
    }
}

#[cycle(walk)]
fn see_with_optional(tree: &Expr, other: &Option<Boxed<Expr>>)
    ensures { (literals_in_range tree.now && if_given (option_map literals_in_range other.now)) ≡ true }
{
    see_literals(tree);
    see_optional(other);
}

#[cycle(walk)]
fn see_replace(operand: &Expr, pattern: &Expr, by: &Option<Boxed<Expr>>)
    ensures { (literals_in_range operand.now && (literals_in_range pattern.now && if_given (option_map literals_in_range by.now))) ≡ true }
{
    see_literals(operand);
    see_with_optional(pattern, by);
}

#[cycle(walk)]
fn see_range(range: &Option<SubstrRange>)
    ensures { if_given (option_map part_in_range range.now) ≡ true }
{
    match range {
        Some(range) => see_with_optional(range.start.get(), &range.length),
        None => (),
    }
}

#[cycle(walk)]
fn see_with_range(tree: &Expr, range: &Option<SubstrRange>)
    ensures { (literals_in_range tree.now && if_given (option_map part_in_range range.now)) ≡ true }
{
    see_literals(tree);
    see_range(range);
}

#[cycle(walk)]
fn see_groups(groups: &Option<Boxed<Groups>>)
    ensures { if_given (option_map groups_in_range groups.now) ≡ true }
{
    match groups {
        Some(groups) => see_optional(&groups.get().having),
        None => (),
    }
}

#[cycle(walk)]
fn see_with_groups(tree: &Expr, groups: &Option<Boxed<Groups>>)
    ensures { (literals_in_range tree.now && if_given (option_map groups_in_range groups.now)) ≡ true }
{
    see_literals(tree);
    see_groups(groups);
}

#[cycle(walk)]
fn see_items_with_groups(items: &[Item], groups: &Option<Boxed<Groups>>)
    ensures { (list_all item_in_range items.now && if_given (option_map groups_in_range groups.now)) ≡ true }
{
    see_items(items);
    see_groups(groups);
}

#[cycle(walk)]
fn see_clause(clause: &Clause)
    ensures { clause_in_range clause.now ≡ true }
{
    match clause {
        Clause::Filter { condition, .. } => see_literals(condition.get()),
        Clause::Calc { items, .. } => see_items(items.as_slice()),
        Clause::Keep { .. } => (),
        Clause::Drop { .. } => (),
        Clause::Rename { .. } => (),
        Clause::Sub { .. } => (),
        Clause::Unpivot { .. } => (),
        Clause::Aggr { items, groups, .. } => see_items_with_groups(items.as_slice(), groups),
    }
}

#[cycle(walk)]
fn see_with_clause(tree: &Expr, clause: &Clause)
    ensures { (literals_in_range tree.now && clause_in_range clause.now) ≡ true }
{
    see_literals(tree);
    see_clause(clause);
}

#[cycle(walk)]
fn see_if_given(clause: &Option<Boxed<Clause>>)
    ensures { if_given (option_map clause_in_range clause.now) ≡ true }
{
    match clause {
        Some(clause) => see_clause(clause.get()),
        None => (),
    }
}

#[cycle(walk)]
fn see_clauses(
    filter: &Option<Boxed<Clause>>,
    calc: &Option<Boxed<Clause>>,
    keep: &Option<Boxed<Clause>>,
    rename: &Option<Boxed<Clause>>,
)
    ensures { (if_given (option_map clause_in_range filter.now) && (if_given (option_map clause_in_range calc.now) && (if_given (option_map clause_in_range keep.now) && if_given (option_map clause_in_range rename.now)))) ≡ true }
{
    see_if_given(filter);
    see_if_given(calc);
    see_if_given(keep);
    see_if_given(rename);
}

#[cycle(walk)]
fn see_operand(operand: &JoinOperand)
    ensures { operand_in_range operand.now ≡ true }
{
    see_literals(operand.expr.get());
}

#[cycle(walk)]
fn see_each_operand(operands: &[JoinOperand])
    ensures { list_all operand_in_range operands.now ≡ true }
{
    for operand in operands {
        see_operand(operand);
    }
}

#[cycle(walk)]
fn see_operands(first: &JoinOperand, second: &JoinOperand, others: &[JoinOperand])
    ensures { (operand_in_range first.now && (operand_in_range second.now && list_all operand_in_range others.now)) ≡ true }
{
    see_operand(first);
    see_operand(second);
    see_each_operand(others);
}

#[cycle(walk)]
fn see_item(item: &Item)
    ensures { item_in_range item.now ≡ true }
{
    see_literals(item.expr.get());
}

#[cycle(walk)]
fn see_items(items: &[Item])
    ensures { list_all item_in_range items.now ≡ true }
{
    for item in items {
        see_item(item);
    }
}
