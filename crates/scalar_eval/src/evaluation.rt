// Evaluation.
ghost use Rattle.std.specs.Prelude.{◌≡◌, true, IfOk, option_map};
ghost use Rattle.vtl_values.specs.Texts.{Fits};
ghost use Rattle.vtl_values.specs.declared.kind.Kind.{Kind};
ghost use Rattle.scalar_trees.specs.WellTyped.{Kinds, is_of_kind};
ghost use Rattle.scalar_meaning.specs.Scalars.{meaning, if_given};
ghost use Rattle.scalar_meaning.specs.Kept.{IsRowOf};
ghost use Rattle.scalar_eval.specs.Shapes.{shape_of, one_operand, on_texts};
ghost use Rattle.scalar_eval.specs.Stops.{IsMeant};

use crate::comparisons::{between, membership};
use crate::logic::holds;
use crate::matchers::Matchers;
use crate::numbers::{rounded, widened};
use crate::operators::{binary, unary};
use crate::row::Row;
use crate::stop::EvalStop;
use crate::texts::{matching, part_of, replacing};
use scalar_trees::CheckedExpr;
use sqlite_items::Boxed;
use std::alloc::{AllocError, Global};
use vtl_values::Value;

/// The value of an expression on a row. The matchers of its patterns are kept for its other rows.
///
/// `Range` is told exactly where a part of it that counts is out of range; want of memory may be told of any. A well typed
/// expression meets no value of another kind, and what it gives is null, or of its kind and within its range.
pub fn eval<'a, R: Row>(
    alloc: Global,
    expr: &'a CheckedExpr,
    row: &R,
    matchers: &mut Matchers<'a>,
) -> Result<Value, EvalStop>
    ensures meant { IsMeant (meaning (R.values row.now) expr.now) result }
    ensures kept { (kinds : Kinds) (kind : Kind) → is_of_kind kinds expr.now kind ≡ true → IsRowOf kinds (R.values row.now) → IfOk result (Fits kind) }
{
    value_of(alloc, expr, row, matchers)
}

/// The value of an expression on a row, part by part.
#[cycle(values)]
fn value_of<'a, R: Row>(
    alloc: Global,
    expr: &'a CheckedExpr,
    row: &R,
    matchers: &mut Matchers<'a>,
) -> Result<Value, EvalStop>
    ensures { IsMeant (meaning (R.values row.now) expr.now) result }
{
    match expr {
        CheckedExpr::Literal(value) => Ok(value.copy()?),
        CheckedExpr::Component(number) => Ok(component(row, *number)?),
        CheckedExpr::Widened(_) => of_operand(alloc, expr, row, matchers),
        CheckedExpr::Unary { .. } => of_operand(alloc, expr, row, matchers),
        CheckedExpr::Binary {
            operator,
            left,
            right,
        } => {
            let left = value_of(alloc, left.get(), row, matchers)?;
            let right = value_of(alloc, right.get(), row, matchers)?;
            binary(alloc, *operator, &left, &right)
        }
        CheckedExpr::Nvl { first, second } => match value_of(alloc, first.get(), row, matchers)? {
            Value::Null => value_of(alloc, second.get(), row, matchers),
            value => Ok(value),
        },
        CheckedExpr::If {
            condition,
            holds: chosen,
            fails,
        } => {
            if holds(&value_of(alloc, condition.get(), row, matchers)?) {
                value_of(alloc, chosen.get(), row, matchers)
            } else {
                value_of(alloc, fails.get(), row, matchers)
            }
        }
        CheckedExpr::In { .. } => of_operand(alloc, expr, row, matchers),
        CheckedExpr::Between { .. } => of_operand(alloc, expr, row, matchers),
        CheckedExpr::Round { .. } => of_operand(alloc, expr, row, matchers),
        CheckedExpr::Substr { .. } => of_text(alloc, expr, row, matchers),
        CheckedExpr::Replace { .. } => of_text(alloc, expr, row, matchers),
        CheckedExpr::Matches { .. } => of_operand(alloc, expr, row, matchers),
        CheckedExpr::OfSort { operand, .. } => value_of(alloc, operand.get(), row, matchers),
        CheckedExpr::Aggregate {
            function,
            component,
        } => row.aggregated(alloc, *function, *component),
        CheckedExpr::CountAll => Ok(row.counted()),
    }
}

/// The value of an expression with one operand.
#[cycle(values)]
fn of_operand<'a, R: Row>(
    alloc: Global,
    expr: &'a CheckedExpr,
    row: &R,
    matchers: &mut Matchers<'a>,
) -> Result<Value, EvalStop>
    requires { shape_of expr.now ≡ one_operand }
    ensures { IsMeant (meaning (R.values row.now) expr.now) result }
{
    match expr {
        CheckedExpr::Widened(operand) => Ok(widened(value_of(
            alloc,
            operand.get(),
            row,
            matchers,
        )?)),
        CheckedExpr::Unary { operator, operand } => {
            let value = value_of(alloc, operand.get(), row, matchers)?;
            unary(alloc, *operator, &value)
        }
        CheckedExpr::In { operand, sign, set } => {
            let value = value_of(alloc, operand.get(), row, matchers)?;
            Ok(membership(*sign, set.as_slice(), &value))
        }
        CheckedExpr::Between { operand, low, high } => {
            let value = value_of(alloc, operand.get(), row, matchers)?;
            Ok(between(&value, low, high))
        }
        CheckedExpr::Round {
            function,
            operand,
            digits,
        } => {
            let value = value_of(alloc, operand.get(), row, matchers)?;
            Ok(rounded(*function, digits, &value))
        }
        CheckedExpr::Matches { operand, pattern } => {
            let value = value_of(alloc, operand.get(), row, matchers)?;
            Ok(matching(matchers, pattern, &value)?)
        }
        _ => unreachable!(),
    }
}

/// The value of an expression that makes a text of operands, of which some may be left out.
#[cycle(values)]
fn of_text<'a, R: Row>(
    alloc: Global,
    expr: &'a CheckedExpr,
    row: &R,
    matchers: &mut Matchers<'a>,
) -> Result<Value, EvalStop>
    requires { shape_of expr.now ≡ on_texts }
    ensures { IsMeant (meaning (R.values row.now) expr.now) result }
{
    match expr {
        CheckedExpr::Substr {
            operand,
            start,
            length,
        } => {
            let value = value_of(alloc, operand.get(), row, matchers)?;
            let start = given(alloc, start, row, matchers)?;
            let count = given(alloc, length, row, matchers)?;
            Ok(part_of(alloc, &value, &start, &count)?)
        }
        CheckedExpr::Replace {
            operand,
            pattern,
            by,
        } => {
            let value = value_of(alloc, operand.get(), row, matchers)?;
            let old = value_of(alloc, pattern.get(), row, matchers)?;
            let new = given(alloc, by, row, matchers)?;
            Ok(replacing(alloc, &value, &old, &new)?)
        }
        _ => unreachable!(),
    }
}

/// The value of an operand that may be left out.
#[cycle(values)]
fn given<'a, R: Row>(
    alloc: Global,
    operand: &'a Option<Boxed<CheckedExpr>>,
    row: &R,
    matchers: &mut Matchers<'a>,
) -> Result<Option<Value>, EvalStop>
    ensures { IsMeant (if_given (option_map (meaning (R.values row.now)) operand.now)) result }
{
    match operand {
        Some(operand) => Ok(Some(value_of(alloc, operand.get(), row, matchers)?)),
        None => Ok(None),
    }
}

fn component<R: Row>(row: &R, number: u64) -> Result<Value, AllocError>
    ensures { IfOk result (λ value. value ≡ (R.values row.now).component number) }
{
    match row.component(number) {
        Some(value) => value.copy(),
        None => Ok(Value::Null),
    }
}
