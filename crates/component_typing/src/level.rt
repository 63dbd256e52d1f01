// One level of an expression.
ghost use Rattle.scalar_trees.specs.typing.Scopes.{kinds_of};
ghost use Rattle.std.specs.Prelude.{Ok, []};
ghost use Rattle.scalar_trees.specs.typing.Scopes as names;
ghost use Rattle.scalar_trees.specs.typing.Scalars as meant;
ghost use Rattle.component_typing.specs.Parts.{Answers, TypesParts};

use crate::checker::Checker;
use crate::misplaced::clause_place;
use operator_typing::{
    comparison_operator, component_typed, count_at, literal_typed, named, or_operator,
    prefix_operator, product_operator, sum_operator, unary_operator,
};
use scalar_trees::BinaryOperator;
use scalar_trees::typing::{Basis, Fault, Scope, TypeStop, Typed};
use std::alloc::Global;
use vtl_syntax::Expr;
use vtl_values::{Place, Value, Word};

impl<F: Fn(Global, &Scope, Basis, &Expr) -> Result<Typed, TypeStop> + Copy> Checker<'_, F> {
    /// A literal.
    fn literal(&self, value: &Value) -> Result<Typed, TypeStop>
        ensures { Answers (kinds_of self.now.scope.now.columns self.now.basis) (Ok (meant.literal_typed value.now)) result }
    {
        Ok(literal_typed(value)?)
    }

    /// A name, which stands for a component.
    fn name(&self, name: &Word, place: Place) -> Result<Typed, TypeStop>
        ensures { Answers (kinds_of self.now.scope.now.columns self.now.basis) (meant.component_typed (names.named self.now.scope.now self.now.basis name.now) place) result }
    {
        component_typed(named(self.scope, self.basis, name), place)
    }

    /// `count()`
    fn count(&self, place: Place) -> Result<Typed, TypeStop>
        ensures { Answers (kinds_of self.now.scope.now.columns self.now.basis) (meant.count_at place self.now.basis) result }
    {
        count_at(place, self.basis)
    }

    /// `rank`, which has no operand.
    fn rank_misplaced(&self, place: Place) -> Result<Typed, TypeStop>
        ensures { Answers (kinds_of self.now.scope.now.columns self.now.basis) (meant.misplaced [] place self.now.scope.now self.now.basis) result }
    {
        Err(TypeStop::at(Fault::WrongStructure, place))
    }

    /// The expression: one row a form, which names the function that types it.
    pub(crate) fn level(&self) -> Result<Typed, TypeStop>
        requires types { TypesParts self.now.tree.now self.now.scope (F.pre self.now.expression self.now.alloc) (F.post self.now.expression self.now.alloc) }
        ensures { Answers (kinds_of self.now.scope.now.columns self.now.basis) (meant.typed self.now.scope.now self.now.basis self.now.tree.now) result }
    {
        match self.tree {
            Expr::Literal { value, .. } => self.literal(value),
            Expr::Name { name, place } => self.name(name, *place),
            Expr::Bracket { inner, .. } => self.part(inner),
            Expr::Signed {
                sign,
                operand,
                place,
            } => self.unary(prefix_operator(*sign), operand, *place),
            Expr::Unary {
                function,
                operand,
                place,
            } => self.unary(unary_operator(*function), operand, *place),
            Expr::Or {
                left,
                sign,
                right,
                place,
            } => self.binary(or_operator(*sign), left, right, *place),
            Expr::And { left, right, place } => {
                self.binary(BinaryOperator::And, left, right, *place)
            }
            Expr::Compare {
                left,
                sign,
                right,
                place,
            } => self.binary(comparison_operator(*sign), left, right, *place),
            Expr::Sum {
                left,
                sign,
                right,
                place,
            } => self.binary(sum_operator(*sign), left, right, *place),
            Expr::Product {
                left,
                sign,
                right,
                place,
            } => self.binary(product_operator(*sign), left, right, *place),
            Expr::Binary {
                function,
                left,
                right,
                place,
            } => self.function(*function, left, right, *place),
            Expr::If {
                condition,
                holds,
                fails,
                place,
            } => self.chosen(condition, holds, fails, *place),
            Expr::In {
                left,
                sign,
                set,
                place,
            } => self.in_set(left, *sign, set.as_slice(), *place),
            Expr::Between {
                operand,
                low,
                high,
                place,
            } => self.between(operand, low, high, *place),
            Expr::Round {
                function,
                operand,
                digits,
                place,
            } => self.round(*function, operand, *digits, *place),
            Expr::MatchCharacters {
                operand,
                pattern,
                place,
            } => self.matched(operand, pattern, *place),
            Expr::Substr {
                operand,
                range,
                place,
            } => self.substr(operand, range, *place),
            Expr::Replace {
                operand,
                pattern,
                by,
                place,
            } => self.replaced(operand, pattern, by, *place),
            Expr::Typed { sort, expr, place } => self.of_sort(*sort, expr, *place),
            Expr::Member {
                operand,
                name,
                place,
            } => self.member(operand, name, *place),
            Expr::Aggregate {
                function,
                operand,
                groups,
                place,
            } => self.aggregate(*function, operand, groups.is_some(), *place),
            Expr::CountAll { place } => self.count(*place),
            Expr::Clause {
                operand,
                clause,
                ..
            } => self.misplaced(operand, clause_place(clause.get())),
            Expr::ExistsIn {
                left,
                right,
                place,
                ..
            } => self.two_misplaced(left, right, *place),
            Expr::Sets {
                first,
                second,
                others,
                place,
                ..
            } => self.sets_misplaced(first, second, others.as_slice(), *place),
            Expr::Difference {
                left,
                right,
                place,
                ..
            } => self.two_misplaced(left, right, *place),
            Expr::Join {
                first,
                second,
                others,
                place,
                ..
            } => self.join_misplaced(first.get(), second.get(), others.as_slice(), *place),
            Expr::Window { operand, place, .. } => self.misplaced(operand, *place),
            Expr::Offset { operand, place, .. } => self.misplaced(operand, *place),
            Expr::Rank { place, .. } => self.rank_misplaced(*place),
            Expr::CheckDatapoint { operand, place, .. } => self.misplaced(operand, *place),
            Expr::Hierarchy { operand, place, .. } => self.misplaced(operand, *place),
            Expr::CheckHierarchy { operand, place, .. } => self.misplaced(operand, *place),
            Expr::Check {
                operand,
                imbalance,
                place,
                ..
            } => self.check_misplaced(operand, imbalance, *place),
            Expr::Time { operand, place, .. } => self.misplaced(operand, *place),
            Expr::Timeshift { operand, place, .. } => self.misplaced(operand, *place),
            Expr::FillTimeSeries { operand, place, .. } => self.misplaced(operand, *place),
            Expr::CallOf {
                arguments,
                place,
                ..
            } => self.call_misplaced(arguments.as_slice(), *place),
        }
    }
}
