// What is wrong with an expression by itself.
ghost use Rattle.std.specs.Prelude.{◌≡◌, ◌∷◌, [], map, nat_abs, nat_le};
ghost use Rattle.std.specs.List.{list_all};
ghost use Rattle.std.specs.Option.{option_map, option_to_list};
ghost use Rattle.scalar_texts.specs.Patterns.{is_pattern};
ghost use Rattle.scalar_trees.specs.WellTyped as trees;
ghost use Rattle.scalar_trees.specs.declared.typing.stop.Fault.TheVariants.{BadConstant, BadPattern};
ghost use Rattle.scalar_trees.specs.typing.Steps.{demanded};
ghost use Rattle.data_set_trees.specs.times.Times as times;
ghost use Rattle.ruleset_faults.specs.Expressions as meant;
ghost use Rattle.ruleset_faults.specs.Expressions.{Tells};

use crate::over::{is_one_of, see_over};
use scalar_texts::PatternStop;
use scalar_trees::typing::{Fault, TypeStop, demand};
use scalar_trees::{SharedPattern, digits_fit, is_present};
use sqlite_items::Boxed;
use std::alloc::Global;
use vtl_syntax::{Expr, JoinOperand, SubstrRange};
use vtl_values::{Integer, Place, Value, Word};
use window_typing::{is_offset, points_within};

const MOST_PLACES: u64 = 10_000;

/// Whether a shift goes no further than it may.
fn may_shift(places: Integer) -> bool
    ensures { result ≡ nat_le (nat_abs places) times.MOST_PLACES }
{
    places.value.unsigned_abs() <= MOST_PLACES
}

fn are_present(values: &[Value]) -> bool
    ensures { result ≡ list_all trees.is_present values.now }
{
    values.iter().all(|value| is_present(value))
}

/// Whether the text is a pattern.
fn see_pattern(alloc: Global, text: &Word, place: Place) -> Result<(), TypeStop>
    ensures { Tells (demanded (is_pattern text.now) BadPattern place) result }
{
    match SharedPattern::build(alloc, text) {
        Ok(_) => Ok(()),
        Err(PatternStop::BadPattern) => Err(TypeStop::at(Fault::BadPattern, place)),
        Err(PatternStop::Memory) => Err(TypeStop::Memory),
    }
}

/// Whether the expression is just a name.
fn is_name(tree: &Expr) -> bool
    ensures { result ≡ (meant.look tree.now).is_name }
{
    match tree {
        Expr::Name { .. } => true,
        _ => false,
    }
}

/// What is wrong with an expression where these names may stand in it.
#[cycle(walk)]
pub(crate) fn see(alloc: Global, names: &[Word], tree: &Expr) -> Result<(), TypeStop>
    ensures { Tells (meant.seen names.now tree.now) result }
{
    match tree {
        Expr::Literal { .. } => Ok(()),
        Expr::Name { name, place } => {
            demand(is_one_of(names, name), Fault::UnknownComponent, *place)
        }
        Expr::Bracket { inner, .. } => see(alloc, names, inner.get()),
        Expr::Signed { operand, .. } => see(alloc, names, operand.get()),
        Expr::Unary { operand, .. } => see(alloc, names, operand.get()),
        Expr::Or { left, right, .. } => see_two(alloc, names, left.get(), right.get()),
        Expr::And { left, right, .. } => see_two(alloc, names, left.get(), right.get()),
        Expr::Compare { left, right, .. } => see_two(alloc, names, left.get(), right.get()),
        Expr::Sum { left, right, .. } => see_two(alloc, names, left.get(), right.get()),
        Expr::Product { left, right, .. } => see_two(alloc, names, left.get(), right.get()),
        Expr::Binary { left, right, .. } => see_two(alloc, names, left.get(), right.get()),
        Expr::If {
            condition,
            holds,
            fails,
            ..
        } => see_three(alloc, names, condition.get(), holds.get(), fails.get()),
        Expr::In {
            left,
            set,
            place,
            ..
        } => see_in(alloc, names, left.get(), set.as_slice(), *place),
        Expr::Between { operand, .. } => see(alloc, names, operand.get()),
        Expr::Round {
            operand,
            digits,
            place,
            ..
        } => see_round(alloc, names, operand.get(), digits, *place),
        Expr::MatchCharacters {
            operand,
            pattern,
            place,
        } => see_matches(alloc, names, operand.get(), pattern, *place),
        Expr::Substr { operand, range, .. } => see_substr(alloc, names, operand.get(), range),
        Expr::Replace {
            operand,
            pattern,
            by,
            ..
        } => see_replace(alloc, names, operand.get(), pattern.get(), by),
        Expr::Typed { expr, .. } => see(alloc, names, expr.get()),
        Expr::Member { operand, place, .. } => see_member(alloc, names, operand.get(), *place),
        Expr::Clause { operand, .. } => see(alloc, names, operand.get()),
        Expr::ExistsIn { left, right, .. } => see_two(alloc, names, left.get(), right.get()),
        Expr::Sets {
            first,
            second,
            others,
            ..
        } => see_sets(alloc, names, first.get(), second.get(), others.as_slice()),
        Expr::Difference { left, right, .. } => see_two(alloc, names, left.get(), right.get()),
        Expr::Join {
            first,
            second,
            others,
            ..
        } => see_join(alloc, names, first.get(), second.get(), others.as_slice()),
        Expr::Aggregate { operand, .. } => see(alloc, names, operand.get()),
        Expr::CountAll { .. } => Ok(()),
        Expr::Window {
            operand,
            over,
            place,
            ..
        } => {
            see(alloc, names, operand.get())?;
            see_over(names, over, points_within(&over.points), *place)
        }
        Expr::Offset {
            operand,
            offset,
            over,
            place,
            ..
        } => {
            see(alloc, names, operand.get())?;
            let within = is_offset(*offset) && points_within(&over.points);
            see_over(names, over, within, *place)
        }
        Expr::Rank { over, place } => see_over(names, over, points_within(&over.points), *place),
        Expr::CheckDatapoint { operand, .. } => see(alloc, names, operand.get()),
        Expr::Hierarchy { operand, .. } => see(alloc, names, operand.get()),
        Expr::CheckHierarchy { operand, .. } => see(alloc, names, operand.get()),
        Expr::Check {
            operand,
            imbalance,
            ..
        } => see_with_optional(alloc, names, operand.get(), imbalance),
        Expr::Time { operand, .. } => see(alloc, names, operand.get()),
        Expr::Timeshift {
            operand,
            shift,
            place,
        } => {
            see(alloc, names, operand.get())?;
            demand(may_shift(*shift), Fault::BadConstant, *place)
        }
        Expr::FillTimeSeries { operand, .. } => see(alloc, names, operand.get()),
        Expr::CallOf { arguments, .. } => see_each(alloc, names, arguments.as_slice()),
    }
}

#[cycle(walk)]
fn see_two(alloc: Global, names: &[Word], first: &Expr, second: &Expr) -> Result<(), TypeStop>
    ensures { Tells (meant.all_seen (meant.look first.now ∷ meant.look second.now ∷ []) names.now) result }
{
    see(alloc, names, first)?;
    see(alloc, names, second)
}

#[cycle(walk)]
fn see_three(
    alloc: Global,
    names: &[Word],
    first: &Expr,
    second: &Expr,
    third: &Expr,
) -> Result<(), TypeStop>
    ensures { Tells (meant.all_seen (meant.look first.now ∷ meant.look second.now ∷ meant.look third.now ∷ []) names.now) result }
{
    see(alloc, names, first)?;
    see_two(alloc, names, second, third)
}

#[cycle(walk)]
fn see_each(alloc: Global, names: &[Word], trees: &[Expr]) -> Result<(), TypeStop>
    ensures { Tells (meant.all_seen (map meant.look trees.now) names.now) result }
{
    for tree in trees {
        see(alloc, names, tree)?;
    }
    Ok(())
}

#[cycle(walk)]
fn see_sets(
    alloc: Global,
    names: &[Word],
    first: &Expr,
    second: &Expr,
    others: &[Expr],
) -> Result<(), TypeStop>
    ensures { Tells (meant.all_seen (meant.look first.now ∷ meant.look second.now ∷ map meant.look others.now) names.now) result }
{
    see(alloc, names, first)?;
    see(alloc, names, second)?;
    see_each(alloc, names, others)
}

#[cycle(walk)]
fn see_optional(alloc: Global, names: &[Word], tree: &Option<Boxed<Expr>>) -> Result<(), TypeStop>
    ensures { Tells (meant.all_seen (option_to_list (option_map meant.look tree.now)) names.now) result }
{
    match tree {
        Some(tree) => see(alloc, names, tree.get()),
        None => Ok(()),
    }
}

#[cycle(walk)]
fn see_with_optional(
    alloc: Global,
    names: &[Word],
    tree: &Expr,
    other: &Option<Boxed<Expr>>,
) -> Result<(), TypeStop>
    ensures { Tells (meant.all_seen (meant.look tree.now ∷ option_to_list (option_map meant.look other.now)) names.now) result }
{
    see(alloc, names, tree)?;
    see_optional(alloc, names, other)
}

#[cycle(walk)]
fn see_replace(
    alloc: Global,
    names: &[Word],
    operand: &Expr,
    pattern: &Expr,
    by: &Option<Boxed<Expr>>,
) -> Result<(), TypeStop>
    ensures { Tells (meant.all_seen (meant.look operand.now ∷ meant.look pattern.now ∷ option_to_list (option_map meant.look by.now)) names.now) result }
{
    see(alloc, names, operand)?;
    see_with_optional(alloc, names, pattern, by)
}

#[cycle(walk)]
fn see_range(alloc: Global, names: &[Word], range: &Option<SubstrRange>) -> Result<(), TypeStop>
    ensures { Tells (meant.all_seen (meant.range_parts (option_map meant.range_look range.now)) names.now) result }
{
    match range {
        Some(range) => see_with_optional(alloc, names, range.start.get(), &range.length),
        None => Ok(()),
    }
}

#[cycle(walk)]
fn see_substr(
    alloc: Global,
    names: &[Word],
    operand: &Expr,
    range: &Option<SubstrRange>,
) -> Result<(), TypeStop>
    ensures { Tells (meant.all_seen (meant.look operand.now ∷ meant.range_parts (option_map meant.range_look range.now)) names.now) result }
{
    see(alloc, names, operand)?;
    see_range(alloc, names, range)
}

#[cycle(walk)]
fn see_operand(alloc: Global, names: &[Word], operand: &JoinOperand) -> Result<(), TypeStop>
    ensures { Tells ((meant.operand_look operand.now).seen names.now) result }
{
    see(alloc, names, operand.expr.get())
}

#[cycle(walk)]
fn see_operands(alloc: Global, names: &[Word], operands: &[JoinOperand]) -> Result<(), TypeStop>
    ensures { Tells (meant.all_seen (map meant.operand_look operands.now) names.now) result }
{
    for operand in operands {
        see_operand(alloc, names, operand)?;
    }
    Ok(())
}

#[cycle(walk)]
fn see_join(
    alloc: Global,
    names: &[Word],
    first: &JoinOperand,
    second: &JoinOperand,
    others: &[JoinOperand],
) -> Result<(), TypeStop>
    ensures { Tells (meant.all_seen (meant.operand_look first.now ∷ meant.operand_look second.now ∷ map meant.operand_look others.now) names.now) result }
{
    see_operand(alloc, names, first)?;
    see_operand(alloc, names, second)?;
    see_operands(alloc, names, others)
}

/// `a in { .. }`
#[cycle(walk)]
fn see_in(
    alloc: Global,
    names: &[Word],
    tree: &Expr,
    set: &[Value],
    place: Place,
) -> Result<(), TypeStop>
    ensures { Tells (meant.followed (meant.seen names.now tree.now) (demanded (list_all trees.is_present set.now) BadConstant place)) result }
{
    see(alloc, names, tree)?;
    demand(are_present(set), Fault::BadConstant, place)
}

/// `round(a, digits)` and its like.
#[cycle(walk)]
fn see_round(
    alloc: Global,
    names: &[Word],
    tree: &Expr,
    digits: &Option<Integer>,
    place: Place,
) -> Result<(), TypeStop>
    ensures { Tells (meant.followed (meant.seen names.now tree.now) (demanded (trees.digits_fit digits.now) BadConstant place)) result }
{
    see(alloc, names, tree)?;
    demand(digits_fit(digits), Fault::BadConstant, place)
}

/// `match_characters(a, pattern)`
#[cycle(walk)]
fn see_matches(
    alloc: Global,
    names: &[Word],
    tree: &Expr,
    pattern: &Word,
    place: Place,
) -> Result<(), TypeStop>
    ensures { Tells (meant.followed (meant.seen names.now tree.now) (demanded (is_pattern pattern.now) BadPattern place)) result }
{
    see(alloc, names, tree)?;
    see_pattern(alloc, pattern, place)
}

/// `a#name`
#[cycle(walk)]
fn see_member(alloc: Global, names: &[Word], tree: &Expr, place: Place) -> Result<(), TypeStop>
    ensures { Tells (meant.member_seen (meant.look tree.now) place names.now) result }
{
    if is_name(tree) {
        return Err(TypeStop::at(Fault::UnknownComponent, place));
    }
    see(alloc, names, tree)
}
