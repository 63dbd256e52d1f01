// Clauses on points, among them a `calc` with an item that is analytic.
ghost use Rattle.std.specs.Prelude.{◌≡◌, Ok, IfOk, IfErr, if◌then◌else◌};
ghost use Rattle.std.specs.List.{list_any};
ghost use Rattle.expression_rules.specs.OnClauses as meant;
ghost use Rattle.statement_typing.specs.Parts.{Answers};

use crate::clauses::clause_checked;
use clause_typing::scope_of_frame;
use component_typing::check_operand;
use data_set_trees::clauses::Frame;
use data_set_trees::windows::{AnalyticItem, CheckedAnalytic};
use expression_rules::PointClause;
use scalar_trees::typing::{Basis, Scope, TypeStop};
use sqlite_items::Items;
use std::alloc::Global;
use vtl_syntax::{Clause, Expr, Item};
use vtl_values::{Kind, Place};
use window_typing::{
    analytic_item, calc_checked, offset_typed, rank_typed, scalar_item, window_typed,
};

/// Whether an item's whole expression is an analytic operator.
fn is_analytic(item: &Item) -> bool
    ensures { result ≡ meant.is_analytic item.now }
{
    match item.expr.get() {
        Expr::Window { .. } => true,
        Expr::Offset { .. } => true,
        Expr::Rank { .. } => true,
        _ => false,
    }
}

fn has_analytic(items: &[Item]) -> bool
    ensures { result ≡ list_any meant.is_analytic items.now }
{
    items.iter().any(|item| is_analytic(item))
}

/// The value of an item whose whole expression is an analytic operator, with its kind; none of any other expression.
fn analytic_value(
    alloc: Global,
    tree: &Expr,
    frame: &Frame,
) -> Result<Option<(Kind, CheckedAnalytic)>, TypeStop>
    ensures { Answers (meant.analytic_value tree.now frame.now) result }
{
    match tree {
        Expr::Window {
            function,
            operand,
            over,
            place,
        } => {
            let value = window_typed(alloc, *function, operand.get(), over, *place, frame)?;
            Ok(Some(value))
        }
        Expr::Offset {
            function,
            operand,
            offset,
            over,
            place,
        } => {
            let value = offset_typed(
                alloc,
                *function,
                operand.get(),
                *offset,
                over,
                *place,
                frame,
            )?;
            Ok(Some(value))
        }
        Expr::Rank { over, place } => Ok(Some(rank_typed(alloc, over, *place, frame)?)),
        _ => Ok(None),
    }
}

/// An item by its value, or else by that of its expression on the operand's point, where the names of the frame stand for
/// what they do in this scope.
fn with_value(
    alloc: Global,
    frame: &Frame,
    item: &Item,
    value: Option<(Kind, CheckedAnalytic)>,
) -> Result<AnalyticItem, TypeStop>
    ensures { Answers (meant.with_value frame.now item.now value) result }
{
    if let Some(value) = value {
        return Ok(analytic_item(frame, item.role, &item.name, value)?);
    }
    let scope = scope_of_frame(alloc, frame)?;
    let value = check_operand(alloc, &scope, Basis::Point, item.expr.get())?;
    Ok(scalar_item(frame, item.role, &item.name, value)?)
}

fn analytic_checked(alloc: Global, frame: &Frame, item: &Item) -> Result<AnalyticItem, TypeStop>
    ensures { Answers (meant.analytic_checked frame.now item.now) result }
{
    let value = analytic_value(alloc, item.expr.get(), frame)?;
    with_value(alloc, frame, item, value)
}

/// The items of a `calc` of which one is analytic, in order.
fn all_analytic_checked(
    alloc: Global,
    frame: &Frame,
    items: &[Item],
) -> Result<Items<AnalyticItem>, TypeStop>
    ensures { Answers (meant.all_analytic_checked frame.now items.now) result }
{
    let mut checked = Items::new(alloc);
    for item in items {
        checked.push(analytic_checked(alloc, frame, item)?)?;
    }
    Ok(checked)
}

/// `calc items`, of which one is analytic.
fn on_parts(
    alloc: Global,
    items: &[Item],
    place: Place,
    frame: &Frame,
) -> Result<PointClause, TypeStop>
    ensures { Answers (meant.on_parts items.now place frame.now) result }
{
    let items = all_analytic_checked(alloc, frame, items)?;
    Ok(PointClause::Analytic(calc_checked(alloc, place, items, frame)?))
}

/// A clause that works on each point by itself.
fn alone(alloc: Global, clause: &Clause, frame: &Frame) -> Result<PointClause, TypeStop>
    ensures { Answers (meant.alone clause.now frame.now) result }
{
    Ok(PointClause::Alone(clause_checked(alloc, clause, frame)?))
}

fn calc_on_points(
    alloc: Global,
    clause: &Clause,
    items: &[Item],
    place: Place,
    frame: &Frame,
) -> Result<PointClause, TypeStop>
    ensures { Answers (if list_any meant.is_analytic items.now then meant.on_parts items.now place frame.now else meant.alone clause.now frame.now) result }
{
    if has_analytic(items) {
        on_parts(alloc, items, place, frame)
    } else {
        alone(alloc, clause, frame)
    }
}

/// A clause on a frame, on which `aggr` has no place. The first fault of its expressions, in order, and then its own at its
/// word; or want of memory.
pub(crate) fn point_checked(
    alloc: Global,
    clause: &Clause,
    frame: &Frame,
) -> Result<PointClause, TypeStop>
    ensures { Answers (meant.point_checked clause.now frame.now) result }
{
    match clause {
        Clause::Calc { items, place } => {
            calc_on_points(alloc, clause, items.as_slice(), *place, frame)
        }
        Clause::Filter { .. }
        | Clause::Keep { .. }
        | Clause::Drop { .. }
        | Clause::Rename { .. }
        | Clause::Sub { .. }
        | Clause::Unpivot { .. }
        | Clause::Aggr { .. } => alone(alloc, clause, frame),
    }
}
