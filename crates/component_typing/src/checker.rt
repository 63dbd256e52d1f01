// What types one level of an expression, and the expressions inside.
ghost use Rattle.std.specs.Prelude.{◌≡◌, ◌<◌, ◌∷◌, [], Ok, IfOk, IfErr};
ghost use Rattle.vtl_syntax.specs.declared.expr.Expr.{size-Expr};
ghost use Rattle.scalar_trees.specs.typing.Steps.{Refuses};
ghost use Rattle.scalar_trees.specs.typing.Scopes.{kinds_of};
ghost use Rattle.scalar_trees.specs.typing.Scalars as meant;
ghost use Rattle.component_typing.specs.Parts.{Answers, TypesParts};

use scalar_trees::typing::{Basis, Scope, TypeStop, Typed};
use sqlite_items::Boxed;
use std::alloc::Global;
use vtl_syntax::Expr;

/// Types one level of an expression; `expression` types each expression that stands in it. So each function is proved by
/// itself, outside the recursion.
#[derive(Clone, Copy)]
pub(crate) struct Checker<'a, F> {
    pub(crate) alloc: Global,
    /// What names stand for.
    pub(crate) scope: &'a Scope,
    /// What the expression is worked out on.
    pub(crate) basis: Basis,
    pub(crate) tree: &'a Expr,
    /// Types an expression that stands in the tree.
    pub(crate) expression: F,
}

impl<F: Fn(Global, &Scope, Basis, &Expr) -> Result<Typed, TypeStop> + Copy> Checker<'_, F> {
    /// An expression that stands in the tree, worked out on `basis`.
    pub(crate) fn part_on(&self, basis: Basis, tree: &Boxed<Expr>) -> Result<Typed, TypeStop>
        requires types { TypesParts self.now.tree.now self.now.scope (F.pre self.now.expression self.now.alloc) (F.post self.now.expression self.now.alloc) }
        requires inside { size-Expr tree.now < size-Expr self.now.tree.now }
        ensures { Answers (kinds_of self.now.scope.now.columns basis) (meant.typed self.now.scope.now basis tree.now) result }
    {
        (self.expression)(self.alloc, self.scope, basis, tree.get())
    }

    /// An expression that stands in the tree, worked out on the same as the tree.
    pub(crate) fn part(&self, tree: &Boxed<Expr>) -> Result<Typed, TypeStop>
        requires types { TypesParts self.now.tree.now self.now.scope (F.pre self.now.expression self.now.alloc) (F.post self.now.expression self.now.alloc) }
        requires inside { size-Expr tree.now < size-Expr self.now.tree.now }
        ensures { Answers (kinds_of self.now.scope.now.columns self.now.basis) (meant.typed self.now.scope.now self.now.basis tree.now) result }
    {
        self.part_on(self.basis, tree)
    }

    /// The same, for its faults alone.
    pub(crate) fn visit_one(&self, tree: &Expr) -> Result<(), TypeStop>
        requires types { TypesParts self.now.tree.now self.now.scope (F.pre self.now.expression self.now.alloc) (F.post self.now.expression self.now.alloc) }
        requires inside { size-Expr tree.now < size-Expr self.now.tree.now }
        ensures ok { IfOk result (λ met. meant.visited (meant.meaning tree.now ∷ []) self.now.scope.now self.now.basis ≡ Ok met) }
        ensures err { IfErr result (Refuses (meant.visited (meant.meaning tree.now ∷ []) self.now.scope.now self.now.basis)) }
    {
        (self.expression)(self.alloc, self.scope, self.basis, tree)?;
        Ok(())
    }
}
