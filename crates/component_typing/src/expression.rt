// Scalar expressions.
ghost use Rattle.std.specs.Prelude.{◌≡◌, ◌≢◌, true, Ok, Some, IfOk, IfErr};
ghost use Rattle.vtl_values.specs.declared.kind.Kind.{Kind};
ghost use Rattle.scalar_trees.specs.declared.tree.CheckedExpr.{CheckedExpr};
ghost use Rattle.scalar_trees.specs.Erased.{erased};
ghost use Rattle.scalar_trees.specs.WellTyped.{is_of_kind};
ghost use Rattle.scalar_trees.specs.typing.Steps.{Refuses};
ghost use Rattle.scalar_trees.specs.typing.Scopes.{kinds_of};
ghost use Rattle.scalar_trees.specs.typing.Sound.{IsTyped};
ghost use Rattle.scalar_trees.specs.typing.Resolved.{resolved};
ghost use Rattle.scalar_trees.specs.typing.Scalars as meant;
ghost use Rattle.component_typing.specs.Parts.{Answers};

use crate::checker::Checker;
use scalar_trees::CheckedExpr;
use scalar_trees::typing::{Basis, Scope, TypeStop, Typed};
use std::alloc::Global;
use vtl_syntax::Expr;
use vtl_values::Kind;

fn types(alloc: Global, scope: &Scope, basis: Basis, tree: &Expr) -> Result<Typed, TypeStop>
    ensures { Answers (kinds_of scope.now.columns basis) (meant.typed scope.now basis tree.now) result }
{
    let checker = Checker {
        alloc,
        scope,
        basis,
        tree,
        expression: types,
    };
    checker.level()
}

/// A scalar expression that stands in another: its checked tree with its kind, which the literal null has not; or its
/// first fault at its place, or want of memory. Operands are looked at first, in order; of the faults of one expression
/// the first is told in the order of `Fault`. It costs the size of the expression times the names of the scope.
pub fn check_operand(
    alloc: Global,
    scope: &Scope,
    basis: Basis,
    tree: &Expr,
) -> Result<Typed, TypeStop>
    ensures ok { IfOk result (λ t. meant.typed scope.now basis tree.now ≡ Ok t) }
    ensures err { IfErr result (Refuses (meant.typed scope.now basis tree.now)) }
    ensures typed { IfOk result (IsTyped (kinds_of scope.now.columns basis)) }
    ensures as_written { IfOk result (λ t. resolved scope.now basis tree.now ≡ Some (erased t.tree)) }
{
    types(alloc, scope, basis, tree)
}

/// The kind of a whole expression, which for the literal null is that of its place.
fn whole_kind(null_kind: Kind, kind: Option<Kind>) -> Kind
    ensures { result ≡ meant.whole_kind null_kind kind }
{
    match kind {
        Some(kind) => kind,
        None => null_kind,
    }
}

/// A whole scalar expression: its checked tree and its kind, which for the literal null is `null_kind`, the first of the
/// kinds that its place takes; or its first fault at its place, or want of memory. It costs what `check_operand` does.
pub fn check_expr(
    alloc: Global,
    null_kind: Kind,
    scope: &Scope,
    basis: Basis,
    tree: &Expr,
) -> Result<(CheckedExpr, Kind), TypeStop>
    ensures ok { IfOk result (λ checked. meant.whole null_kind scope.now basis tree.now ≡ Ok checked) }
    ensures err { IfErr result (Refuses (meant.whole null_kind scope.now basis tree.now)) }
    ensures typed { IfOk result (λ checked. is_of_kind (kinds_of scope.now.columns basis) checked.0 checked.1 ≡ true) }
    ensures as_written { IfOk result (λ checked. resolved scope.now basis tree.now ≡ Some (erased checked.0)) }
{
    let typed = check_operand(alloc, scope, basis, tree)?;
    let kind = whole_kind(null_kind, typed.kind);
    Ok((typed.into_tree(), kind))
}
