// Operators of one and of two operands.
ghost use Rattle.std.specs.Prelude.{◌<◌};
ghost use Rattle.vtl_syntax.specs.declared.expr.Expr.{size-Expr};
ghost use Rattle.scalar_trees.specs.typing.Scopes.{kinds_of};
ghost use Rattle.scalar_trees.specs.typing.Scalars as meant;
ghost use Rattle.component_typing.specs.Parts.{Answers, TypesParts, after_typed};

use crate::checker::Checker;
use operator_typing::{binary_typed, function_typed, round_typed, sort_typed, unary_typed};
use scalar_trees::typing::{Basis, Scope, TypeStop, Typed};
use scalar_trees::{BinaryOperator, UnaryOperator};
use sqlite_items::Boxed;
use std::alloc::Global;
use vtl_syntax::Expr;
use vtl_syntax::words::{BinaryFunction, RoundFunction, Sort};
use vtl_values::{Integer, Place};

impl<F: Fn(Global, &Scope, Basis, &Expr) -> Result<Typed, TypeStop> + Copy> Checker<'_, F> {
    /// An operator of one operand.
    pub(crate) fn unary(
        &self,
        operator: UnaryOperator,
        operand: &Boxed<Expr>,
        place: Place,
    ) -> Result<Typed, TypeStop>
        requires types { TypesParts self.now.tree.now self.now.scope (F.pre self.now.expression self.now.alloc) (F.post self.now.expression self.now.alloc) }
        requires inside { size-Expr operand.now < size-Expr self.now.tree.now }
        ensures { Answers (kinds_of self.now.scope.now.columns self.now.basis) (after_typed self.now.scope.now self.now.basis operand.now (meant.unary_typed operator place)) result }
    {
        let operand = self.part(operand)?;
        unary_typed(self.alloc, operator, place, operand)
    }

    /// `round` and `trunc`.
    pub(crate) fn round(
        &self,
        function: RoundFunction,
        operand: &Boxed<Expr>,
        digits: Option<Integer>,
        place: Place,
    ) -> Result<Typed, TypeStop>
        requires types { TypesParts self.now.tree.now self.now.scope (F.pre self.now.expression self.now.alloc) (F.post self.now.expression self.now.alloc) }
        requires inside { size-Expr operand.now < size-Expr self.now.tree.now }
        ensures { Answers (kinds_of self.now.scope.now.columns self.now.basis) (after_typed self.now.scope.now self.now.basis operand.now (meant.round_typed function digits place)) result }
    {
        let operand = self.part(operand)?;
        round_typed(self.alloc, function, digits, place, operand)
    }

    /// An argument or a result of a defined operator, which is of the sort.
    pub(crate) fn of_sort(
        &self,
        sort: Sort,
        operand: &Boxed<Expr>,
        place: Place,
    ) -> Result<Typed, TypeStop>
        requires types { TypesParts self.now.tree.now self.now.scope (F.pre self.now.expression self.now.alloc) (F.post self.now.expression self.now.alloc) }
        requires inside { size-Expr operand.now < size-Expr self.now.tree.now }
        ensures { Answers (kinds_of self.now.scope.now.columns self.now.basis) (after_typed self.now.scope.now self.now.basis operand.now (meant.sort_typed sort place)) result }
    {
        let operand = self.part(operand)?;
        sort_typed(self.alloc, sort, place, operand)
    }

    /// An operator of two operands.
    pub(crate) fn binary(
        &self,
        operator: BinaryOperator,
        left: &Boxed<Expr>,
        right: &Boxed<Expr>,
        place: Place,
    ) -> Result<Typed, TypeStop>
        requires types { TypesParts self.now.tree.now self.now.scope (F.pre self.now.expression self.now.alloc) (F.post self.now.expression self.now.alloc) }
        requires left { size-Expr left.now < size-Expr self.now.tree.now }
        requires right { size-Expr right.now < size-Expr self.now.tree.now }
        ensures { Answers (kinds_of self.now.scope.now.columns self.now.basis) (after_typed self.now.scope.now self.now.basis left.now (λ x. after_typed self.now.scope.now self.now.basis right.now (meant.binary_typed operator place x))) result }
    {
        let left = self.part(left)?;
        let right = self.part(right)?;
        binary_typed(self.alloc, operator, place, left, right)
    }

    /// A function of two operands.
    pub(crate) fn function(
        &self,
        function: BinaryFunction,
        left: &Boxed<Expr>,
        right: &Boxed<Expr>,
        place: Place,
    ) -> Result<Typed, TypeStop>
        requires types { TypesParts self.now.tree.now self.now.scope (F.pre self.now.expression self.now.alloc) (F.post self.now.expression self.now.alloc) }
        requires left { size-Expr left.now < size-Expr self.now.tree.now }
        requires right { size-Expr right.now < size-Expr self.now.tree.now }
        ensures { Answers (kinds_of self.now.scope.now.columns self.now.basis) (after_typed self.now.scope.now self.now.basis left.now (λ x. after_typed self.now.scope.now self.now.basis right.now (meant.function_typed function place x))) result }
    {
        let left = self.part(left)?;
        let right = self.part(right)?;
        function_typed(self.alloc, function, place, left, right)
    }
}
