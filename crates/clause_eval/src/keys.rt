// Keys without the identifiers of a `sub`.
ghost use Rattle.std.specs.Prelude.{◌≡◌, pos, ◌*ℤ◌, IfOk};
ghost use Rattle.clause_meaning.specs.Clauses as meant;

use crate::values::picked;
use data_set_trees::clauses::CheckedSubItem;
use point_sets::Key;
use std::alloc::{AllocError, Global};
use vtl_values::{Decimal, Integer, Value};

/// How many millionths one is.
const ONE: i128 = 1_000_000;

/// An integer as a number.
fn number_of(integer: Integer) -> Decimal
    ensures { result ≡ integer *ℤ pos 1000000 }
{
    Decimal {
        millionths: i128::from(integer.value) * ONE,
    }
}

/// Whether two values are equal, where integers are numbers.
fn is_equal(a: &Value, b: &Value) -> bool
    ensures { result ≡ meant.is_equal a.now b.now }
{
    match (a, b) {
        (Value::Integer(a), Value::Number(b)) => number_of(*a) == *b,
        (Value::Number(a), Value::Integer(b)) => *a == number_of(*b),
        _ => a.order(b).is_eq(),
    }
}

fn has_value(key: &[Value], item: &CheckedSubItem) -> bool
    ensures { result ≡ meant.has_value key.now item.now }
{
    match key.get(item.component as usize) {
        Some(value) => is_equal(&item.value, value),
        None => false,
    }
}

/// Whether the identifiers that a `sub` names have its values.
pub fn has_values(items: &[CheckedSubItem], key: &Key) -> bool
    ensures { result ≡ meant.has_values items.now key.now }
{
    let values = key.values();
    items.iter().all(|item| has_value(values, item))
}

/// The key without the identifiers that a `sub` names, where those of the others are picked.
pub fn key_left(alloc: Global, picks: &[u64], key: &Key) -> Result<Key, AllocError>
    ensures { IfOk result (λ left. left ≡ meant.values_at picks.now key.now) }
{
    let values = picked(alloc, picks, key.values())?;
    Key::of(alloc, values)
}
