// Operators on numbers and integers.
ghost use Rattle.std.specs.Prelude.{◌≡◌, pos, neg_ℤ, ◌≤ℤ◌};
ghost use Rattle.std.specs.Result.{result_ok};
ghost use Rattle.scalar_trees.specs.Kinds.{number_value};
ghost use Rattle.vtl_decimals.specs.Arithmetic.{remainder_of};
ghost use Rattle.scalar_meaning.specs.Numbers as meant;

use scalar_trees::digits_fit;
use vtl_decimals::{Range, add, ceil, div, modulo, mul, round, sub, trunc};
use vtl_syntax::words::RoundFunction;
use vtl_values::{Decimal, Integer, Value};

/// How many millionths one is.
const ONE: i128 = 1_000_000;

/// The integer, or `Range` where it is out of range.
#[tactic(auto, unfolding(scalar_meaning::specs::Numbers::integer_of))]
pub(crate) fn integer_of(value: i128) -> Result<Integer, Range>
    ensures { result_ok result ≡ meant.integer_of value }
{
    if value.unsigned_abs() <= u128::from(Integer::MOST) {
        Ok(Integer {
            value: value as i64,
        })
    } else {
        Err(Range)
    }
}

/// An integer as a number, and any other value as it is.
pub(crate) fn widened(value: Value) -> Value
    ensures { result ≡ number_value value }
{
    match value {
        Value::Integer(integer) => Value::Number(Decimal {
            millionths: i128::from(integer.value) * ONE,
        }),
        other => other,
    }
}

/// Unary `+` of VTL.
pub(crate) fn plus(value: &Value) -> Value
    ensures { result ≡ meant.plus value.now }
{
    match value {
        Value::Integer(integer) => Value::Integer(*integer),
        Value::Number(number) => Value::Number(*number),
        _ => Value::Null,
    }
}

/// Unary `-` of VTL.
pub(crate) fn minus(value: &Value) -> Value
    ensures { result ≡ meant.minus value.now }
{
    match value {
        Value::Integer(integer) => Value::Integer(Integer {
            value: -integer.value,
        }),
        Value::Number(number) => Value::Number(Decimal {
            millionths: -number.millionths,
        }),
        _ => Value::Null,
    }
}

/// `abs` of VTL.
pub(crate) fn absolute(value: &Value) -> Value
    ensures { result ≡ meant.absolute value.now }
{
    match value {
        Value::Integer(integer) => Value::Integer(Integer {
            value: integer.value.abs(),
        }),
        Value::Number(number) => Value::Number(Decimal {
            millionths: number.millionths.abs(),
        }),
        _ => Value::Null,
    }
}

/// Binary `+` of VTL.
pub(crate) fn sum(a: &Value, b: &Value) -> Result<Value, Range>
    ensures { result_ok result ≡ meant.sum a.now b.now }
{
    match (a, b) {
        (Value::Integer(a), Value::Integer(b)) => Ok(Value::Integer(integer_of(
            i128::from(a.value) + i128::from(b.value),
        )?)),
        (Value::Number(a), Value::Number(b)) => Ok(Value::Number(add(*a, *b)?)),
        _ => Ok(Value::Null),
    }
}

/// Binary `-` of VTL.
pub(crate) fn difference(a: &Value, b: &Value) -> Result<Value, Range>
    ensures { result_ok result ≡ meant.difference a.now b.now }
{
    match (a, b) {
        (Value::Integer(a), Value::Integer(b)) => Ok(Value::Integer(integer_of(
            i128::from(a.value) - i128::from(b.value),
        )?)),
        (Value::Number(a), Value::Number(b)) => Ok(Value::Number(sub(*a, *b)?)),
        _ => Ok(Value::Null),
    }
}

/// `*` of VTL.
pub(crate) fn product(a: &Value, b: &Value) -> Result<Value, Range>
    ensures { result_ok result ≡ meant.product a.now b.now }
{
    match (a, b) {
        (Value::Integer(a), Value::Integer(b)) => Ok(Value::Integer(integer_of(
            i128::from(a.value) * i128::from(b.value),
        )?)),
        (Value::Number(a), Value::Number(b)) => Ok(Value::Number(mul(*a, *b)?)),
        _ => Ok(Value::Null),
    }
}

/// `/` of VTL: null for a zero divisor.
pub(crate) fn quotient(a: &Value, b: &Value) -> Result<Value, Range>
    ensures { result_ok result ≡ meant.quotient a.now b.now }
{
    match (a, b) {
        (Value::Number(a), Value::Number(b)) => match div(*a, *b)? {
            Some(quotient) => Ok(Value::Number(quotient)),
            None => Ok(Value::Null),
        },
        _ => Ok(Value::Null),
    }
}

/// `mod` of VTL.
pub(crate) fn modulus(a: &Value, b: &Value) -> Value
    ensures { result ≡ meant.modulus a.now b.now }
{
    match (a, b) {
        (Value::Integer(a), Value::Integer(b)) => Value::Integer(remainder(*a, *b)),
        (Value::Number(a), Value::Number(b)) => Value::Number(modulo(*a, *b)),
        _ => Value::Null,
    }
}

fn remainder(a: Integer, b: Integer) -> Integer
    ensures { result ≡ remainder_of a b }
{
    let rest = modulo(
        Decimal {
            millionths: i128::from(a.value),
        },
        Decimal {
            millionths: i128::from(b.value),
        },
    );
    Integer {
        value: rest.millionths as i64,
    }
}

/// A whole number as an integer.
fn in_ones(number: Decimal) -> Integer
    ensures { result ≡ meant.in_ones number }
{
    Integer {
        value: (number.millionths / ONE) as i64,
    }
}

/// `ceil` of VTL.
pub(crate) fn ceiling(value: &Value) -> Value
    ensures { result ≡ meant.ceiling value.now }
{
    match value {
        Value::Number(number) => Value::Integer(in_ones(ceil(*number))),
        _ => Value::Null,
    }
}

/// `floor` of VTL.
pub(crate) fn floor(value: &Value) -> Value
    ensures { result ≡ meant.floor value.now }
{
    match value {
        Value::Number(number) => Value::Integer(in_ones(vtl_decimals::floor(*number))),
        _ => Value::Null,
    }
}

fn to_digits(function: RoundFunction, number: Decimal, digits: i32) -> Decimal
    requires from { neg_ℤ (pos 15) ≤ℤ digits }
    requires to { digits ≤ℤ pos 6 }
    ensures { result ≡ meant.to_digits function number digits }
{
    match function {
        RoundFunction::Round => round(number, digits),
        RoundFunction::Trunc => trunc(number, digits),
    }
}

/// `round` and `trunc` of VTL: an integer where no digits are given, and null where they are beyond their limits.
pub(crate) fn rounded(function: RoundFunction, digits: &Option<Integer>, value: &Value) -> Value
    ensures { result ≡ meant.rounded function digits.now value.now }
{
    if !digits_fit(digits) {
        return Value::Null;
    }
    match (value, digits) {
        (Value::Number(number), Some(digits)) => {
            Value::Number(to_digits(function, *number, digits.value as i32))
        }
        (Value::Number(number), None) => Value::Integer(in_ones(to_digits(function, *number, 0))),
        _ => Value::Null,
    }
}
