// The expressions in clauses, which are worked out on the operand's point.
ghost use Rattle.std.specs.Prelude.{◌≡◌, Ok, IfOk, IfErr};
ghost use Rattle.vtl_syntax.specs.declared.expr.Clause.TheOpen.{Clause-F};
ghost use Rattle.data_set_trees.specs.clauses.Frames as frames;
ghost use Rattle.expression_rules.specs.OnClauses as meant;
ghost use Rattle.statement_typing.specs.Parts.{Answers};

use clause_typing::{calc_typed, filter_typed, item_typed, scope_of_frame};
use component_typing::check_operand;
use data_set_trees::clauses::{CheckedClause, CheckedItem, Frame};
use scalar_trees::typing::{Basis, Scope, TypeStop};
use sqlite_items::Items;
use std::alloc::Global;
use vtl_syntax::{Expr, Item};
use vtl_values::Place;

/// `filter condition`
pub(crate) fn filter_checked(
    alloc: Global,
    condition: &Expr,
    place: Place,
    frame: &Frame,
) -> Result<CheckedClause, TypeStop>
    ensures { Answers (meant.clause_step (Clause-F.Filter condition.now place) frame.now) result }
{
    let scope = scope_of_frame(alloc, frame)?;
    let condition = check_operand(alloc, &scope, Basis::Point, condition)?;
    filter_typed(alloc, place, condition)
}

/// `name := a`, where the names of the frame stand for what they do in this scope.
fn item_checked(
    alloc: Global,
    frame: &Frame,
    scope: &Scope,
    item: &Item,
) -> Result<CheckedItem, TypeStop>
    requires { scope.now ≡ frames.scope_of_frame frame.now }
    ensures { Answers (meant.item_checked frame.now item.now) result }
{
    let value = check_operand(alloc, scope, Basis::Point, item.expr.get())?;
    Ok(item_typed(frame, item.role, &item.name, value)?)
}

/// The items, in order.
fn items_checked(
    alloc: Global,
    frame: &Frame,
    items: &[Item],
) -> Result<Items<CheckedItem>, TypeStop>
    ensures { Answers (meant.items_checked frame.now items.now) result }
{
    let scope = scope_of_frame(alloc, frame)?;
    let mut checked = Items::new(alloc);
    for item in items {
        checked.push(item_checked(alloc, frame, &scope, item)?)?;
    }
    Ok(checked)
}

/// `calc items`
pub(crate) fn calc_checked(
    alloc: Global,
    items: &[Item],
    place: Place,
    frame: &Frame,
) -> Result<CheckedClause, TypeStop>
    ensures { Answers (meant.clause_step (Clause-F.Calc items.now place) frame.now) result }
{
    let items = items_checked(alloc, frame, items)?;
    calc_typed(alloc, place, items, frame)
}
