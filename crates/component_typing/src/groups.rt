// Aggregates, and components of an operand of a join.
ghost use Rattle.std.specs.Prelude.{◌≡◌, ◌<◌};
ghost use Rattle.std.specs.Option.{option_map};
ghost use Rattle.vtl_syntax.specs.declared.expr.Expr.{size-Expr};
ghost use Rattle.scalar_trees.specs.declared.typing.scope.Basis.TheVariants.{Point, Group};
ghost use Rattle.scalar_trees.specs.typing.Scopes.{kinds_of};
ghost use Rattle.scalar_trees.specs.typing.Scalars as meant;
ghost use Rattle.component_typing.specs.Parts.{Answers, TypesParts, after_typed};

use crate::checker::Checker;
use operator_typing::{aggregate_typed, component_typed, member};
use scalar_trees::typing::{Basis, Scope, TypeStop, Typed};
use sqlite_items::Boxed;
use std::alloc::Global;
use vtl_syntax::Expr;
use vtl_syntax::words::AggregateFunction;
use vtl_values::{Place, Word};

/// The name that an expression is, where it is just a name.
fn own_name(tree: &Expr) -> Option<&Word>
    ensures { option_map (λ w. w.now) result ≡ (meant.meaning tree.now).own_name }
{
    match tree {
        Expr::Name { name, .. } => Some(name),
        _ => None,
    }
}

impl<F: Fn(Global, &Scope, Basis, &Expr) -> Result<Typed, TypeStop> + Copy> Checker<'_, F> {
    /// `alias#name`
    pub(crate) fn member(
        &self,
        operand: &Boxed<Expr>,
        name: &Word,
        place: Place,
    ) -> Result<Typed, TypeStop>
        requires types { TypesParts self.now.tree.now self.now.scope (F.pre self.now.expression self.now.alloc) (F.post self.now.expression self.now.alloc) }
        requires inside { size-Expr operand.now < size-Expr self.now.tree.now }
        ensures { Answers (kinds_of self.now.scope.now.columns self.now.basis) (meant.member_typed (meant.meaning operand.now).own_name (meant.meaning operand.now) name.now place self.now.scope.now self.now.basis) result }
    {
        match own_name(operand.get()) {
            Some(alias) => component_typed(member(self.scope, self.basis, alias, name), place),
            None => self.misplaced(operand, place),
        }
    }

    /// An aggregate of a component, on a group.
    fn aggregate_of_group(
        &self,
        function: AggregateFunction,
        operand: &Boxed<Expr>,
        is_bare: bool,
        place: Place,
    ) -> Result<Typed, TypeStop>
        requires types { TypesParts self.now.tree.now self.now.scope (F.pre self.now.expression self.now.alloc) (F.post self.now.expression self.now.alloc) }
        requires inside { size-Expr operand.now < size-Expr self.now.tree.now }
        ensures { Answers (kinds_of self.now.scope.now.columns Group) (after_typed self.now.scope.now Point operand.now (meant.aggregate_typed function is_bare place)) result }
    {
        let operand = self.part_on(Basis::Point, operand)?;
        aggregate_typed(function, is_bare, place, operand)
    }

    /// An aggregate, which stands on a group; inside of one, names are those of points.
    pub(crate) fn aggregate(
        &self,
        function: AggregateFunction,
        operand: &Boxed<Expr>,
        is_grouped: bool,
        place: Place,
    ) -> Result<Typed, TypeStop>
        requires types { TypesParts self.now.tree.now self.now.scope (F.pre self.now.expression self.now.alloc) (F.post self.now.expression self.now.alloc) }
        requires inside { size-Expr operand.now < size-Expr self.now.tree.now }
        ensures { Answers (kinds_of self.now.scope.now.columns self.now.basis) (meant.aggregate_at function (meant.meaning operand.now) is_grouped place self.now.scope.now self.now.basis) result }
    {
        match self.basis {
            Basis::Point => self.misplaced(operand, place),
            Basis::Group => {
                let is_bare = own_name(operand.get()).is_some() && !is_grouped;
                self.aggregate_of_group(function, operand, is_bare, place)
            }
        }
    }
}
