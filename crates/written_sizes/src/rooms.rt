// Whether a script that calls no operator is within the limits as it stands.
ghost use Rattle.std.specs.Prelude.{◌≡◌, ◌↔◌, [], ◌∷◌, map, IsTrue};
ghost use Rattle.std.specs.List.{flat_map};
ghost use Rattle.operator_faults.specs.Outlines as outlines;
ghost use Rattle.operator_faults.specs.Sketches as sketches;
ghost use Rattle.written_sizes.specs.Rooms as meant;

use crate::faults::{MOST_EXPRESSIONS, MOST_LEVELS};
use sqlite_items::Boxed;
use vtl_syntax::{
    Clause, DatapointRule, Expr, Groups, HierarchyRule, Item, JoinOperand, Ruleset, Script,
    Statement, SubstrRange,
};

/// Whether no operator is called in the script's statements and rulesets, and they are within the limits of size. It goes
/// over them once, and takes no memory.
pub fn fits_as_it_stands(script: &Script) -> bool
    ensures { IsTrue result ↔ meant.FitsAsItStands script.now }
{
    let room = after_statements(script.statements.as_slice(), Some(MOST_EXPRESSIONS));
    after_rulesets(script.rulesets.as_slice(), room).is_some()
}

// Each function below tells how many expressions may come after what it is given, where `room` may come with it: none where
// an operator is called there, where it has too many levels or expressions, or where `room` is none already.

fn after_statements(statements: &[Statement], room: Option<u64>) -> Option<u64>
    ensures { result ≡ meant.room_after_all MOST_LEVELS room (map sketches.of_statement statements.now) }
{
    let mut left = room;
    for statement in statements {
        left = after_expr(&statement.expr, MOST_LEVELS, left);
    }
    left
}

fn after_rulesets(rulesets: &[Ruleset], room: Option<u64>) -> Option<u64>
    ensures { result ≡ meant.room_after_all MOST_LEVELS room (flat_map sketches.of_ruleset rulesets.now) }
{
    let mut left = room;
    for ruleset in rulesets {
        left = after_ruleset(ruleset, left);
    }
    left
}

fn after_ruleset(rules: &Ruleset, room: Option<u64>) -> Option<u64>
    ensures { result ≡ meant.room_after_all MOST_LEVELS room (sketches.of_ruleset rules.now) }
{
    match rules {
        Ruleset::Datapoint(rules) => after_datapoint(rules.rules.as_slice(), room),
        Ruleset::Hierarchy(rules) => after_hierarchy(rules.rules.as_slice(), room),
    }
}

fn after_datapoint(rules: &[DatapointRule], room: Option<u64>) -> Option<u64>
    ensures { result ≡ meant.room_after_all MOST_LEVELS room (flat_map sketches.of_datapoint rules.now) }
{
    let mut left = room;
    for rule in rules {
        left = after_condition(&rule.condition, left);
        left = after_expr(&rule.expr, MOST_LEVELS, left);
    }
    left
}

fn after_hierarchy(rules: &[HierarchyRule], room: Option<u64>) -> Option<u64>
    ensures { result ≡ meant.room_after_all MOST_LEVELS room (flat_map sketches.of_hierarchy rules.now) }
{
    let mut left = room;
    for rule in rules {
        left = after_condition(&rule.condition, left);
    }
    left
}

fn after_condition(condition: &Option<Expr>, room: Option<u64>) -> Option<u64>
    ensures { result ≡ meant.room_after_all MOST_LEVELS room (sketches.of_condition condition.now) }
{
    match condition {
        Some(condition) => after_expr(condition, MOST_LEVELS, room),
        None => room,
    }
}

/// How many levels the expression is itself, unless it is a call.
fn levels_of(tree: &Expr) -> Option<u64>
    ensures { result ≡ meant.levels_of (outlines.what_of tree.now (outlines.parts_of tree.now)) }
{
    match tree {
        Expr::CallOf { .. } => None,
        Expr::Name { .. } => Some(0),
        Expr::Literal { .. } => Some(0),
        Expr::Typed { .. } => Some(0),
        _ => Some(1),
    }
}

/// An expression that may have so many levels.
#[cycle(room)]
fn after_expr(tree: &Expr, most: u64, room: Option<u64>) -> Option<u64>
    ensures { result ≡ meant.room_after most room (outlines.outlined tree.now) }
{
    let room = room?;
    let own = levels_of(tree)?;
    if own <= most && 0 < room {
        after_parts(tree, most - own, Some(room - 1))
    } else {
        None
    }
}

/// Its parts, each of which may have so many levels.
#[cycle(room)]
fn after_parts(tree: &Expr, most: u64, room: Option<u64>) -> Option<u64>
    ensures { result ≡ meant.room_after_all most room (outlines.parts_of tree.now) }
{
    match tree {
        Expr::If {
            condition,
            holds,
            fails,
            ..
        } => after_three(condition.get(), holds.get(), fails.get(), most, room),
        Expr::Or { left, right, .. } => after_two(left.get(), right.get(), most, room),
        Expr::And { left, right, .. } => after_two(left.get(), right.get(), most, room),
        Expr::Compare { left, right, .. } => after_two(left.get(), right.get(), most, room),
        Expr::In { left, .. } => after_expr(left.get(), most, room),
        Expr::Sum { left, right, .. } => after_two(left.get(), right.get(), most, room),
        Expr::Product { left, right, .. } => after_two(left.get(), right.get(), most, room),
        Expr::Signed { operand, .. } => after_expr(operand.get(), most, room),
        Expr::Member { operand, .. } => after_expr(operand.get(), most, room),
        Expr::Clause {
            operand,
            clause,
            ..
        } => after_operand_clause(operand.get(), clause.get(), most, room),
        Expr::Literal { .. } => room,
        Expr::Name { .. } => room,
        Expr::Bracket { inner, .. } => after_expr(inner.get(), most, room),
        Expr::Unary { operand, .. } => after_expr(operand.get(), most, room),
        Expr::Round { operand, .. } => after_expr(operand.get(), most, room),
        Expr::Binary { left, right, .. } => after_two(left.get(), right.get(), most, room),
        Expr::Between { operand, .. } => after_expr(operand.get(), most, room),
        Expr::MatchCharacters { operand, .. } => after_expr(operand.get(), most, room),
        Expr::Substr { operand, range, .. } => after_substr(operand.get(), range, most, room),
        Expr::Replace {
            operand,
            pattern,
            by,
            ..
        } => after_replace(operand.get(), pattern.get(), by, most, room),
        Expr::ExistsIn { left, right, .. } => after_two(left.get(), right.get(), most, room),
        Expr::Sets {
            first,
            second,
            others,
            ..
        } => after_sets(first.get(), second.get(), others.as_slice(), most, room),
        Expr::Difference { left, right, .. } => after_two(left.get(), right.get(), most, room),
        Expr::Join { .. } => after_join(tree, most, room),
        Expr::Aggregate {
            operand,
            groups,
            ..
        } => after_aggregate(operand.get(), groups, most, room),
        Expr::Window { operand, .. } => after_expr(operand.get(), most, room),
        Expr::CountAll { .. } => room,
        Expr::Offset { operand, .. } => after_expr(operand.get(), most, room),
        Expr::Rank { .. } => room,
        Expr::CheckDatapoint { operand, .. } => after_expr(operand.get(), most, room),
        Expr::Hierarchy { operand, .. } => after_expr(operand.get(), most, room),
        Expr::CheckHierarchy { operand, .. } => after_expr(operand.get(), most, room),
        Expr::Check {
            operand,
            imbalance,
            ..
        } => after_with_optional(operand.get(), imbalance, most, room),
        Expr::Time { operand, .. } => after_expr(operand.get(), most, room),
        Expr::Timeshift { operand, .. } => after_expr(operand.get(), most, room),
        Expr::FillTimeSeries { operand, .. } => after_expr(operand.get(), most, room),
        Expr::CallOf { arguments, .. } => after_each(arguments.as_slice(), most, room),
        Expr::Typed { expr, .. } => after_expr(expr.get(), most, room),
    }
}

#[cycle(room)]
fn after_two(first: &Expr, second: &Expr, most: u64, room: Option<u64>) -> Option<u64>
    ensures { result ≡ meant.room_after_all most room (outlines.outlined first.now ∷ outlines.outlined second.now ∷ []) }
{
    let room = after_expr(first, most, room);
    after_expr(second, most, room)
}

#[cycle(room)]
fn after_three(
    first: &Expr,
    second: &Expr,
    third: &Expr,
    most: u64,
    room: Option<u64>,
) -> Option<u64>
    ensures { result ≡ meant.room_after_all most room (outlines.outlined first.now ∷ outlines.outlined second.now ∷ outlines.outlined third.now ∷ []) }
{
    let room = after_two(first, second, most, room);
    after_expr(third, most, room)
}

#[cycle(room)]
fn after_each(trees: &[Expr], most: u64, room: Option<u64>) -> Option<u64>
    ensures { result ≡ meant.room_after_all most room (map outlines.outlined trees.now) }
{
    let mut left = room;
    for tree in trees {
        left = after_expr(tree, most, left);
    }
    left
}

#[cycle(room)]
fn after_optional(tree: &Option<Boxed<Expr>>, most: u64, room: Option<u64>) -> Option<u64>
    ensures { result ≡ meant.room_after_all most room (outlines.one_if outlines.outlined tree.now) }
{
    match tree {
        Some(tree) => after_expr(tree.get(), most, room),
        None => room,
    }
}

#[cycle(room)]
fn after_with_optional(
    tree: &Expr,
    other: &Option<Boxed<Expr>>,
    most: u64,
    room: Option<u64>,
) -> Option<u64>
    ensures { result ≡ meant.room_after_all most room (outlines.outlined tree.now ∷ outlines.one_if outlines.outlined other.now) }
{
    let room = after_expr(tree, most, room);
    after_optional(other, most, room)
}

#[cycle(room)]
fn after_replace(
    operand: &Expr,
    pattern: &Expr,
    by: &Option<Boxed<Expr>>,
    most: u64,
    room: Option<u64>,
) -> Option<u64>
    ensures { result ≡ meant.room_after_all most room (outlines.outlined operand.now ∷ outlines.outlined pattern.now ∷ outlines.one_if outlines.outlined by.now) }
{
    let room = after_two(operand, pattern, most, room);
    after_optional(by, most, room)
}

#[cycle(room)]
fn after_sets(
    first: &Expr,
    second: &Expr,
    others: &[Expr],
    most: u64,
    room: Option<u64>,
) -> Option<u64>
    ensures { result ≡ meant.room_after_all most room (outlines.outlined first.now ∷ outlines.outlined second.now ∷ map outlines.outlined others.now) }
{
    let room = after_two(first, second, most, room);
    after_each(others, most, room)
}

#[cycle(room)]
fn after_substr(
    operand: &Expr,
    range: &Option<SubstrRange>,
    most: u64,
    room: Option<u64>,
) -> Option<u64>
    ensures { result ≡ meant.room_after_all most room (outlines.outlined operand.now ∷ outlines.parts_if outlines.range_outlined range.now) }
{
    let room = after_expr(operand, most, room);
    match range {
        Some(range) => after_with_optional(range.start.get(), &range.length, most, room),
        None => room,
    }
}

#[cycle(room)]
fn after_aggregate(
    operand: &Expr,
    groups: &Option<Boxed<Groups>>,
    most: u64,
    room: Option<u64>,
) -> Option<u64>
    ensures { result ≡ meant.room_after_all most room (outlines.outlined operand.now ∷ outlines.parts_if outlines.groups_outlined groups.now) }
{
    let room = after_expr(operand, most, room);
    after_groups(groups, most, room)
}

#[cycle(room)]
fn after_groups(groups: &Option<Boxed<Groups>>, most: u64, room: Option<u64>) -> Option<u64>
    ensures { result ≡ meant.room_after_all most room (outlines.parts_if outlines.groups_outlined groups.now) }
{
    match groups {
        Some(groups) => after_having(&groups.get().having, most, room),
        None => room,
    }
}

/// What stands after `having`, if anything does.
#[cycle(room)]
fn after_having(having: &Option<Boxed<Expr>>, most: u64, room: Option<u64>) -> Option<u64>
    ensures { result ≡ meant.room_after_all most room (outlines.having_if (outlines.one_if outlines.outlined having.now)) }
{
    after_optional(having, most, room)
}

#[cycle(room)]
fn after_operand_clause(
    operand: &Expr,
    clause: &Clause,
    most: u64,
    room: Option<u64>,
) -> Option<u64>
    ensures { result ≡ meant.room_after_all most room (outlines.outlined operand.now ∷ outlines.inside (outlines.clause_outlined clause.now) ∷ []) }
{
    let room = after_expr(operand, most, room);
    after_clause(clause, most, room)
}

/// What stands in a clause.
#[cycle(room)]
fn after_clause(clause: &Clause, most: u64, room: Option<u64>) -> Option<u64>
    ensures { result ≡ meant.room_after_all most room (outlines.clause_outlined clause.now) }
{
    match clause {
        Clause::Filter { condition, .. } => after_expr(condition.get(), most, room),
        Clause::Calc { items, .. } => after_items(items.as_slice(), most, room),
        Clause::Aggr { items, groups, .. } => {
            let room = after_items(items.as_slice(), most, room);
            after_groups(groups, most, room)
        }
        Clause::Keep { .. } => room,
        Clause::Drop { .. } => room,
        Clause::Rename { .. } => room,
        Clause::Sub { .. } => room,
        Clause::Unpivot { .. } => room,
    }
}

#[cycle(room)]
fn after_items(items: &[Item], most: u64, room: Option<u64>) -> Option<u64>
    ensures { result ≡ meant.room_after_all most room (map outlines.item_outlined items.now) }
{
    let mut left = room;
    for item in items {
        left = after_item(item, most, left);
    }
    left
}

#[cycle(room)]
fn after_item(item: &Item, most: u64, room: Option<u64>) -> Option<u64>
    ensures { result ≡ meant.room_after most room (outlines.item_outlined item.now) }
{
    after_expr(item.expr.get(), most, room)
}

/// The operands of a join, and its clauses.
#[cycle(room)]
fn after_join(tree: &Expr, most: u64, room: Option<u64>) -> Option<u64>
    requires { outlines.IsJoin tree.now }
    ensures { result ≡ meant.room_after_all most room (outlines.parts_of tree.now) }
{
    match tree {
        Expr::Join {
            first,
            second,
            others,
            filter,
            calc,
            keep,
            rename,
            ..
        } => {
            let room = after_operand(first.get(), most, room);
            let room = after_operand(second.get(), most, room);
            let room = after_operands(others.as_slice(), most, room);
            let room = after_joined(filter, most, room);
            let room = after_joined(calc, most, room);
            let room = after_joined(keep, most, room);
            after_joined(rename, most, room)
        }
        _ => unreachable!(),
    }
}

#[cycle(room)]
fn after_operands(operands: &[JoinOperand], most: u64, room: Option<u64>) -> Option<u64>
    ensures { result ≡ meant.room_after_all most room (map outlines.operand_outlined operands.now) }
{
    let mut left = room;
    for operand in operands {
        left = after_operand(operand, most, left);
    }
    left
}

#[cycle(room)]
fn after_operand(operand: &JoinOperand, most: u64, room: Option<u64>) -> Option<u64>
    ensures { result ≡ meant.room_after most room (outlines.operand_outlined operand.now) }
{
    after_expr(operand.expr.get(), most, room)
}

/// A clause of a join, which is a level, if there is one.
#[cycle(room)]
fn after_joined(clause: &Option<Boxed<Clause>>, most: u64, room: Option<u64>) -> Option<u64>
    ensures { result ≡ meant.room_after_all most room (outlines.joined_if outlines.clause_outlined clause.now) }
{
    match clause {
        Some(clause) => {
            if most == 0 {
                None
            } else {
                after_clause(clause.get(), most - 1, room)
            }
        }
        None => room,
    }
}
