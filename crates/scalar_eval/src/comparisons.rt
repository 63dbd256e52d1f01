// Comparisons of values.
ghost use Rattle.std.specs.Prelude.{◌≡◌};
ghost use Rattle.std.specs.Ordering.{is_eq};
ghost use Rattle.vtl_values.specs.Order.{value_cmp};
ghost use Rattle.scalar_meaning.specs.Comparisons as meant;

use crate::logic::truth_value;
use std::cmp::Ordering;
use vtl_syntax::words::InSign;
use vtl_values::Value;

pub(crate) fn is_null(value: &Value) -> bool
    ensures { result ≡ meant.is_null value.now }
{
    match value {
        Value::Null => true,
        _ => false,
    }
}

/// The order of two values; none where one is null.
pub(crate) fn order_of(a: &Value, b: &Value) -> Option<Ordering>
    ensures { result ≡ meant.order_of a.now b.now }
{
    if is_null(a) || is_null(b) {
        None
    } else {
        Some(a.order(b))
    }
}

/// `between` of VTL: null where one of the three is null.
pub(crate) fn between(value: &Value, low: &Value, high: &Value) -> Value
    ensures { result ≡ meant.between value.now low.now high.now }
{
    truth_value(match (order_of(low, value), order_of(value, high)) {
        (Some(from), Some(to)) => Some(from.is_le() && to.is_le()),
        _ => None,
    })
}

fn are_equal(a: &Value, b: &Value) -> bool
    ensures { result ≡ is_eq (value_cmp a.now b.now) }
{
    a.order(b).is_eq()
}

fn is_member(set: &[Value], value: &Value) -> bool
    ensures { result ≡ meant.is_member set.now value.now }
{
    set.iter().any(|item| are_equal(value, item))
}

/// `in` and `not_in` of VTL: null for null.
pub(crate) fn membership(sign: InSign, set: &[Value], value: &Value) -> Value
    ensures { result ≡ meant.membership sign set.now value.now }
{
    if is_null(value) {
        return Value::Null;
    }
    match sign {
        InSign::In => Value::Truth(is_member(set, value)),
        InSign::NotIn => Value::Truth(!is_member(set, value)),
    }
}
