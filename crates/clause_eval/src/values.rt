// Values by their numbers.
ghost use Rattle.std.specs.Prelude.{◌≡◌, ◌++◌, slice_get, IfOk, OnOk};
ghost use Rattle.std.specs.Option.{option_copied};
ghost use Rattle.clause_meaning.specs.Clauses as meant;

use point_sets::Point;
use sqlite_items::Items;
use std::alloc::{AllocError, Global};
use vtl_values::Value;

/// The values with these numbers.
pub(crate) fn picked(
    alloc: Global,
    numbers: &[u64],
    values: &[Value],
) -> Result<Vec<Value>, AllocError>
    ensures { IfOk result (λ picked. picked.items ≡ meant.values_at numbers.now values.now) }
{
    let mut picked = Vec::new(alloc);
    for number in numbers {
        if let Some(value) = value_at(values, *number) {
            picked.push(value.copy()?)?;
        }
    }
    Ok(picked)
}

fn value_at(values: &[Value], number: u64) -> Option<&Value>
    ensures { option_copied result ≡ slice_get values.now number }
{
    values.get(number as usize)
}

/// The values of a point with these numbers.
pub(crate) fn picked_of(
    alloc: Global,
    numbers: &[u64],
    point: &Point,
) -> Result<Vec<Value>, AllocError>
    ensures { IfOk result (λ picked. picked.items ≡ meant.values_at numbers.now (point.now.key ++ point.now.rest)) }
{
    let mut picked = Vec::new(alloc);
    for number in numbers {
        if let Some(value) = value_of(point, *number) {
            picked.push(value.copy()?)?;
        }
    }
    Ok(picked)
}

/// The value of a point with this number.
pub(crate) fn value_of(point: &Point, number: u64) -> Option<&Value>
    ensures { option_copied result ≡ slice_get (point.now.key ++ point.now.rest) number }
{
    let number = number as usize;
    let key = point.key.values();
    match key.get(number) {
        Some(value) => Some(value),
        None => point.rest.get(number - key.len()),
    }
}

/// All values of a point.
pub(crate) fn all_of(alloc: Global, point: &Point) -> Result<Items<Value>, AllocError>
    ensures { IfOk result (λ all. all ≡ point.now.key ++ point.now.rest) }
{
    let mut all = Items::new(alloc);
    push_all(&mut all, point.key.values())?;
    push_all(&mut all, point.rest.as_slice())?;
    Ok(all)
}

pub(crate) fn push_all(all: &mut Items<Value>, values: &[Value]) -> Result<(), AllocError>
    ensures { OnOk result (all.new ≡ all.old ++ values.now) }
{
    for value in values {
        all.push(value.copy()?)?;
    }
    Ok(())
}
