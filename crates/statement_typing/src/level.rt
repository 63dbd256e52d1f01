// One level of an expression.
ghost use Rattle.std.specs.Prelude.{Ok};
ghost use Rattle.scalar_trees.specs.declared.typing.stop.Fault.TheVariants.{WrongStructure};
ghost use Rattle.scalar_trees.specs.typing.Scalars.{literal_typed};
ghost use Rattle.scalar_trees.specs.typing.Steps.{refused};
ghost use Rattle.data_set_trees.specs.declared.operand.Operand.{Operand};
ghost use Rattle.data_set_trees.specs.declared.operand.Operand.TheVariants as operands;
ghost use Rattle.expression_rules.specs.Expressions as meant;
ghost use Rattle.statement_typing.specs.Names.{naming_of};
ghost use Rattle.statement_typing.specs.Parts.{Answers, TypesParts};

use crate::checker::Checker;
use crate::joins::Clauses;
use crate::names::Names;
use crate::tables::{difference_of, form_of_function, operation_of};
use data_set_trees::Operand;
use operator_typing::{
    comparison_operator, literal_typed, or_operator, prefix_operator, product_operator,
    sum_operator, unary_operator,
};
use scalar_trees::BinaryOperator;
use scalar_trees::typing::{Fault, TypeStop};
use std::alloc::Global;
use vtl_syntax::Expr;
use vtl_values::{Place, Value, Word};

/// A literal.
fn literal(value: &Value) -> Result<Operand, TypeStop>
    ensures { Answers (Ok (operands.Scalar (literal_typed value.now))) result }
{
    Ok(Operand::Scalar(literal_typed(value)?))
}

/// A name, which stands for a data set.
fn name(names: &Names<'_>, name: &Word, place: Place) -> Result<Operand, TypeStop>
    ensures { Answers (meant.named_typed ((naming_of names.now).data_set name.now) place) result }
{
    match names.data_set(name)? {
        Some(set) => Ok(Operand::DataSet(set)),
        None => Err(TypeStop::at(Fault::UnknownComponent, place)),
    }
}

/// What has no place outside of clauses, and a call of a defined operator, which was written out before.
fn misplaced(place: Place) -> Result<Operand, TypeStop>
    ensures { Answers {A = Operand} (refused WrongStructure place) result }
{
    Err(TypeStop::at(Fault::WrongStructure, place))
}

impl<F: Fn(Global, &Names<'_>, &Expr) -> Result<Operand, TypeStop> + Copy> Checker<'_, '_, F> {
    /// The expression: one row a form, which names the function that types it.
    pub(crate) fn level(&self) -> Result<Operand, TypeStop>
        requires types { TypesParts self.now.tree.now self.now.names (F.pre self.now.expression self.now.alloc) (F.post self.now.expression self.now.alloc) }
        ensures { Answers (meant.typed (naming_of self.now.names.now) self.now.tree.now) result }
    {
        match self.tree {
            Expr::Literal { value, .. } => literal(value),
            Expr::Name { name: word, place } => name(self.names, word, *place),
            Expr::Bracket { inner, .. } => self.part(inner),
            Expr::Signed {
                sign,
                operand,
                place,
            } => self.unary(prefix_operator(*sign), operand, *place),
            Expr::Unary {
                function,
                operand,
                place,
            } => self.unary(unary_operator(*function), operand, *place),
            Expr::Or {
                left,
                sign,
                right,
                place,
            } => self.binary(or_operator(*sign), left, right, *place),
            Expr::And { left, right, place } => {
                self.binary(BinaryOperator::And, left, right, *place)
            }
            Expr::Compare {
                left,
                sign,
                right,
                place,
            } => self.binary(comparison_operator(*sign), left, right, *place),
            Expr::Sum {
                left,
                sign,
                right,
                place,
            } => self.binary(sum_operator(*sign), left, right, *place),
            Expr::Product {
                left,
                sign,
                right,
                place,
            } => self.binary(product_operator(*sign), left, right, *place),
            Expr::Binary {
                function,
                left,
                right,
                place,
            } => self.on_two(&form_of_function(*function), left, right, *place),
            Expr::In {
                left,
                sign,
                set,
                place,
            } => self.in_set(left, *sign, set.as_slice(), *place),
            Expr::Between {
                operand,
                low,
                high,
                place,
            } => self.between(operand, low, high, *place),
            Expr::Round {
                function,
                operand,
                digits,
                place,
            } => self.round(*function, operand, *digits, *place),
            Expr::MatchCharacters {
                operand,
                pattern,
                place,
            } => self.matched(operand, pattern, *place),
            Expr::Substr {
                operand,
                range,
                place,
            } => self.substr(operand, range, *place),
            Expr::Replace {
                operand,
                pattern,
                by,
                place,
            } => self.replaced(operand, pattern, by, *place),
            Expr::If {
                condition,
                holds,
                fails,
                place,
            } => self.chosen(condition, holds, fails, *place),
            Expr::Typed { sort, expr, place } => self.of_sort(*sort, expr, *place),
            Expr::Member {
                operand,
                name,
                place,
            } => self.member(operand, name, *place),
            Expr::Clause {
                operand,
                clause,
                ..
            } => self.with_clause(operand, clause),
            Expr::ExistsIn {
                left,
                right,
                rows,
                place,
            } => self.exists_in(left, right, *rows, *place),
            Expr::Sets {
                function,
                first,
                second,
                others,
                place,
            } => self.several_sets(
                operation_of(*function),
                first,
                second,
                others.as_slice(),
                *place,
            ),
            Expr::Difference {
                function,
                left,
                right,
                place,
            } => self.two_sets(difference_of(*function), left, right, *place),
            Expr::Join {
                function,
                first,
                second,
                others,
                filter,
                calc,
                keep,
                rename,
                place,
            } => self.join(
                *function,
                first.get(),
                second.get(),
                others.as_slice(),
                Clauses {
                    filter,
                    calc,
                    keep,
                    rename,
                },
                *place,
            ),
            Expr::Aggregate {
                function,
                operand,
                groups,
                place,
            } => self.aggregate(*function, operand, groups, *place),
            Expr::Window {
                function,
                operand,
                over,
                place,
            } => self.window(*function, operand, over, *place),
            Expr::CountAll { place } => misplaced(*place),
            Expr::Offset {
                function,
                operand,
                offset,
                over,
                place,
            } => self.offset(*function, operand, *offset, over, *place),
            Expr::Rank { place, .. } => misplaced(*place),
            Expr::CheckDatapoint {
                operand,
                ruleset,
                ruleset_place,
                output,
                place,
            } => self.check_datapoint(operand, ruleset, *ruleset_place, *output, *place),
            Expr::Hierarchy {
                operand,
                ruleset,
                ruleset_place,
                component,
                mode,
                input,
                output,
                place,
            } => self.hierarchy(
                operand,
                ruleset,
                *ruleset_place,
                component,
                *mode,
                *input,
                *output,
                *place,
            ),
            Expr::CheckHierarchy {
                operand,
                ruleset,
                ruleset_place,
                component,
                mode,
                input,
                output,
                place,
            } => self.check_hierarchy(
                operand,
                ruleset,
                *ruleset_place,
                component,
                *mode,
                *input,
                *output,
                *place,
            ),
            Expr::Check {
                operand,
                code,
                level,
                imbalance,
                output,
                place,
            } => self.check(operand, code, *level, imbalance, *output, *place),
            Expr::Time {
                function,
                operand,
                place,
            } => self.time(*function, operand, *place),
            Expr::Timeshift {
                operand,
                shift,
                place,
            } => self.shift(operand, *shift, *place),
            Expr::FillTimeSeries {
                operand,
                span,
                place,
            } => self.fill(operand, *span, *place),
            Expr::CallOf { place, .. } => misplaced(*place),
        }
    }
}
