// Copies of checked expressions.
ghost use Rattle.std.specs.Prelude.{◌≡◌, IfOk};
ghost use Rattle.data_set_parts.specs.Shapes.{shape_of, leaf, one_operand, with_values, operands, on_texts};

use scalar_trees::CheckedExpr;
use scalar_trees::typing::Typed;
use sqlite_items::{Boxed, Items};
use std::alloc::{AllocError, Global};
use vtl_values::Value;

/// A copy of the values, or want of memory.
fn copy_values(alloc: Global, values: &[Value]) -> Result<Items<Value>, AllocError>
    ensures { IfOk result (λ copy. copy ≡ values.now) }
{
    let mut copy = Items::new(alloc);
    for value in values {
        copy.push(value.copy()?)?;
    }
    Ok(copy)
}

/// A copy of an expression without others in it.
fn copy_leaf(tree: &CheckedExpr) -> Result<CheckedExpr, AllocError>
    requires { shape_of tree.now ≡ leaf }
    ensures { IfOk result (λ copy. copy ≡ tree.now) }
{
    match tree {
        CheckedExpr::Literal(value) => Ok(CheckedExpr::Literal(value.copy()?)),
        CheckedExpr::Component(number) => Ok(CheckedExpr::Component(*number)),
        CheckedExpr::Aggregate {
            function,
            component,
        } => Ok(CheckedExpr::Aggregate {
            function: *function,
            component: *component,
        }),
        CheckedExpr::CountAll => Ok(CheckedExpr::CountAll),
        _ => unreachable!(),
    }
}

/// A copy of the expression, which shares its patterns, or want of memory.
#[cycle(copies)]
fn copy_checked(alloc: Global, tree: &CheckedExpr) -> Result<CheckedExpr, AllocError>
    ensures { IfOk result (λ copy. copy ≡ tree.now) }
{
    match tree {
        CheckedExpr::Literal(_) => copy_leaf(tree),
        CheckedExpr::Component(_) => copy_leaf(tree),
        CheckedExpr::Widened(_) => copy_operand(alloc, tree),
        CheckedExpr::Unary { .. } => copy_operand(alloc, tree),
        CheckedExpr::Binary { .. } => copy_operands(alloc, tree),
        CheckedExpr::Nvl { .. } => copy_operands(alloc, tree),
        CheckedExpr::If { .. } => copy_operands(alloc, tree),
        CheckedExpr::In { .. } => copy_with_values(alloc, tree),
        CheckedExpr::Between { .. } => copy_with_values(alloc, tree),
        CheckedExpr::Round { .. } => copy_operand(alloc, tree),
        CheckedExpr::Substr { .. } => copy_texts(alloc, tree),
        CheckedExpr::Replace { .. } => copy_texts(alloc, tree),
        CheckedExpr::Matches { .. } => copy_with_values(alloc, tree),
        CheckedExpr::OfSort { .. } => copy_operand(alloc, tree),
        CheckedExpr::Aggregate { .. } => copy_leaf(tree),
        CheckedExpr::CountAll => copy_leaf(tree),
    }
}

#[cycle(copies)]
fn copy_boxed(alloc: Global, tree: &Boxed<CheckedExpr>) -> Result<Boxed<CheckedExpr>, AllocError>
    ensures { IfOk result (λ copy. copy ≡ tree.now) }
{
    let copy = copy_checked(alloc, tree.get())?;
    Boxed::new(alloc, copy)
}

#[cycle(copies)]
fn copy_optional(
    alloc: Global,
    tree: &Option<Boxed<CheckedExpr>>,
) -> Result<Option<Boxed<CheckedExpr>>, AllocError>
    ensures { IfOk result (λ copy. copy ≡ tree.now) }
{
    match tree {
        Some(tree) => {
            let copy = copy_checked(alloc, tree.get())?;
            Ok(Some(Boxed::new(alloc, copy)?))
        }
        None => Ok(None),
    }
}

/// A copy of an expression with one other in it.
#[cycle(copies)]
fn copy_operand(alloc: Global, tree: &CheckedExpr) -> Result<CheckedExpr, AllocError>
    requires { shape_of tree.now ≡ one_operand }
    ensures { IfOk result (λ copy. copy ≡ tree.now) }
{
    match tree {
        CheckedExpr::Widened(operand) => Ok(CheckedExpr::Widened(copy_boxed(alloc, operand)?)),
        CheckedExpr::Unary { operator, operand } => Ok(CheckedExpr::Unary {
            operator: *operator,
            operand: copy_boxed(alloc, operand)?,
        }),
        CheckedExpr::Round {
            function,
            operand,
            digits,
        } => Ok(CheckedExpr::Round {
            function: *function,
            operand: copy_boxed(alloc, operand)?,
            digits: *digits,
        }),
        CheckedExpr::OfSort { sort, operand } => Ok(CheckedExpr::OfSort {
            sort: *sort,
            operand: copy_boxed(alloc, operand)?,
        }),
        _ => unreachable!(),
    }
}

/// The same, with values or a pattern.
#[cycle(copies)]
fn copy_with_values(alloc: Global, tree: &CheckedExpr) -> Result<CheckedExpr, AllocError>
    requires { shape_of tree.now ≡ with_values }
    ensures { IfOk result (λ copy. copy ≡ tree.now) }
{
    match tree {
        CheckedExpr::In { operand, sign, set } => Ok(CheckedExpr::In {
            operand: copy_boxed(alloc, operand)?,
            sign: *sign,
            set: copy_values(alloc, set.as_slice())?,
        }),
        CheckedExpr::Between { operand, low, high } => Ok(CheckedExpr::Between {
            operand: copy_boxed(alloc, operand)?,
            low: low.copy()?,
            high: high.copy()?,
        }),
        CheckedExpr::Matches { operand, pattern } => Ok(CheckedExpr::Matches {
            operand: copy_boxed(alloc, operand)?,
            pattern: pattern.copy()?,
        }),
        _ => unreachable!(),
    }
}

/// A copy of an expression with two or three others in it.
#[cycle(copies)]
fn copy_operands(alloc: Global, tree: &CheckedExpr) -> Result<CheckedExpr, AllocError>
    requires { shape_of tree.now ≡ operands }
    ensures { IfOk result (λ copy. copy ≡ tree.now) }
{
    match tree {
        CheckedExpr::Binary {
            operator,
            left,
            right,
        } => Ok(CheckedExpr::Binary {
            operator: *operator,
            left: copy_boxed(alloc, left)?,
            right: copy_boxed(alloc, right)?,
        }),
        CheckedExpr::Nvl { first, second } => Ok(CheckedExpr::Nvl {
            first: copy_boxed(alloc, first)?,
            second: copy_boxed(alloc, second)?,
        }),
        CheckedExpr::If {
            condition,
            holds,
            fails,
        } => Ok(CheckedExpr::If {
            condition: copy_boxed(alloc, condition)?,
            holds: copy_boxed(alloc, holds)?,
            fails: copy_boxed(alloc, fails)?,
        }),
        _ => unreachable!(),
    }
}

/// A copy of an expression with others in it of which some may be left out.
#[cycle(copies)]
fn copy_texts(alloc: Global, tree: &CheckedExpr) -> Result<CheckedExpr, AllocError>
    requires { shape_of tree.now ≡ on_texts }
    ensures { IfOk result (λ copy. copy ≡ tree.now) }
{
    match tree {
        CheckedExpr::Substr {
            operand,
            start,
            length,
        } => Ok(CheckedExpr::Substr {
            operand: copy_boxed(alloc, operand)?,
            start: copy_optional(alloc, start)?,
            length: copy_optional(alloc, length)?,
        }),
        CheckedExpr::Replace {
            operand,
            pattern,
            by,
        } => Ok(CheckedExpr::Replace {
            operand: copy_boxed(alloc, operand)?,
            pattern: copy_boxed(alloc, pattern)?,
            by: copy_optional(alloc, by)?,
        }),
        _ => unreachable!(),
    }
}

/// A copy of a checked expression with its kind, or want of memory.
pub fn copy_typed(alloc: Global, typed: &Typed) -> Result<Typed, AllocError>
    ensures { IfOk result (λ copy. copy ≡ typed.now) }
{
    Ok(Typed {
        tree: copy_checked(alloc, &typed.tree)?,
        kind: typed.kind,
    })
}
