// Operators of one operand and of two.
ghost use Rattle.scalar_meaning.specs.Operators as meant;
ghost use Rattle.scalar_eval.specs.Stops.{IsMeant};

use crate::comparisons::{is_null, order_of};
use crate::logic::{both, either, exactly_one, opposite, truth_value};
use crate::numbers::{
    absolute, ceiling, difference, floor, minus, modulus, plus, product, quotient, sum,
};
use crate::stop::EvalStop;
use crate::texts::{characters, joined, lower, ltrim, place_in, rtrim, trim, upper};
use scalar_trees::{BinaryOperator, UnaryOperator};
use std::alloc::Global;
use vtl_values::Value;

/// What an operator of one operand gives of its value.
pub(crate) fn unary(
    alloc: Global,
    operator: UnaryOperator,
    value: &Value,
) -> Result<Value, EvalStop>
    ensures { IsMeant (meant.unary_value operator value.now) result }
{
    match operator {
        UnaryOperator::Plus => Ok(plus(value)),
        UnaryOperator::Minus => Ok(minus(value)),
        UnaryOperator::Not => Ok(opposite(value)),
        UnaryOperator::Abs => Ok(absolute(value)),
        UnaryOperator::Ceil => Ok(ceiling(value)),
        UnaryOperator::Floor => Ok(floor(value)),
        UnaryOperator::Trim => Ok(trim(alloc, value)?),
        UnaryOperator::Ltrim => Ok(ltrim(alloc, value)?),
        UnaryOperator::Rtrim => Ok(rtrim(alloc, value)?),
        UnaryOperator::Upper => Ok(upper(alloc, value)?),
        UnaryOperator::Lower => Ok(lower(alloc, value)?),
        UnaryOperator::Length => Ok(characters(value)?),
        UnaryOperator::Isnull => Ok(Value::Truth(is_null(value))),
    }
}

/// What an operator of two operands gives of their values.
pub(crate) fn binary(
    alloc: Global,
    operator: BinaryOperator,
    left: &Value,
    right: &Value,
) -> Result<Value, EvalStop>
    ensures { IsMeant (meant.binary_value operator left.now right.now) result }
{
    match operator {
        BinaryOperator::Plus => Ok(sum(left, right)?),
        BinaryOperator::Minus => Ok(difference(left, right)?),
        BinaryOperator::Times => Ok(product(left, right)?),
        BinaryOperator::Over => Ok(quotient(left, right)?),
        BinaryOperator::Mod => Ok(modulus(left, right)),
        BinaryOperator::Join => Ok(joined(alloc, left, right)?),
        BinaryOperator::Instr => Ok(place_in(left, right)?),
        BinaryOperator::And => Ok(both(left, right)),
        BinaryOperator::Or => Ok(either(left, right)),
        BinaryOperator::Xor => Ok(exactly_one(left, right)),
        BinaryOperator::Equal => Ok(truth_value(order_of(left, right).map(|o| o.is_eq()))),
        BinaryOperator::NotEqual => Ok(truth_value(order_of(left, right).map(|o| o.is_ne()))),
        BinaryOperator::Less => Ok(truth_value(order_of(left, right).map(|o| o.is_lt()))),
        BinaryOperator::Greater => Ok(truth_value(order_of(left, right).map(|o| o.is_gt()))),
        BinaryOperator::AtMost => Ok(truth_value(order_of(left, right).map(|o| o.is_le()))),
        BinaryOperator::AtLeast => Ok(truth_value(order_of(left, right).map(|o| o.is_ge()))),
    }
}
