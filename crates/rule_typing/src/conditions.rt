// Expressions in rules, which are booleans.
ghost use Rattle.std.specs.Prelude.{◌≡◌, Ok, IfOk, IfErr};
ghost use Rattle.scalar_trees.specs.typing.Steps.{Refuses};
ghost use Rattle.data_set_trees.specs.rules.Rules as meant;
ghost use Rattle.rule_typing.specs.Faults.{Tells};

use component_typing::check_operand;
use operator_typing::wanted;
use scalar_trees::CheckedExpr;
use scalar_trees::typing::{Basis, Fault, Scope, TypeStop};
use std::alloc::{AllocError, Global};
use vtl_syntax::Expr;
use vtl_values::{Kind, Place};

fn boolean_typed(
    alloc: Global,
    scope: &Scope,
    place: Place,
    tree: &Expr,
) -> Result<CheckedExpr, TypeStop>
    ensures ok { IfOk result (λ checked. meant.boolean_typed scope.now place tree.now ≡ Ok checked) }
    ensures err { IfErr result (Refuses (meant.boolean_typed scope.now place tree.now)) }
{
    let operand = check_operand(alloc, scope, Basis::Point, tree)?;
    wanted(alloc, place, Kind::Truth, operand)
}

/// A boolean as it is checked, or its fault. Or want of memory.
pub(crate) fn boolean_checked(
    alloc: Global,
    scope: &Scope,
    place: Place,
    tree: &Expr,
) -> Result<Result<CheckedExpr, Fault>, AllocError>
    ensures { IfOk result (Tells (meant.boolean_typed scope.now place tree.now)) }
{
    match boolean_typed(alloc, scope, place, tree) {
        Ok(checked) => Ok(Ok(checked)),
        Err(TypeStop::Refused(refusal)) => Ok(Err(refusal.fault)),
        Err(TypeStop::Memory) => Err(AllocError),
    }
}

/// A rule's condition as it is checked, if it has one, or the fault. Or want of memory.
pub(crate) fn condition_checked(
    alloc: Global,
    scope: &Scope,
    place: Place,
    tree: &Option<Expr>,
) -> Result<Result<Option<CheckedExpr>, Fault>, AllocError>
    ensures { IfOk result (Tells (meant.condition_typed scope.now place tree.now)) }
{
    match tree {
        None => Ok(Ok(None)),
        Some(tree) => match boolean_checked(alloc, scope, place, tree)? {
            Ok(condition) => Ok(Ok(Some(condition))),
            Err(fault) => Ok(Err(fault)),
        },
    }
}
