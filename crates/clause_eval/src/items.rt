// Values of items.
ghost use Rattle.std.specs.Prelude.{◌≡◌, ◌++◌, option_map, OnOk};
ghost use Rattle.scalar_meaning.specs.Rows.{point_row};
ghost use Rattle.scalar_eval.specs.Stops.{IsMeant};
ghost use Rattle.clause_meaning.specs.Clauses as meant;

use crate::values::all_of;
use data_set_trees::clauses::{CheckedItem, CheckedMeasure, Target};
use point_sets::Point;
use scalar_eval::{EvalStop, Matchers, PointRow, eval};
use sqlite_items::Items;
use std::alloc::{AllocError, Global};
use vtl_values::Value;

/// A point's values with those of the items in their places, each worked out on the point as it was.
pub(crate) fn with_items<'a>(
    alloc: Global,
    items: &'a [CheckedItem],
    point: &Point,
    matchers: &mut Matchers<'a>,
) -> Result<Items<Value>, EvalStop>
    ensures { IsMeant (option_map (λ vs. meant.put_values items.now vs (point.now.key ++ point.now.rest)) (meant.item_values (point_row point.now.key point.now.rest) items.now)) result }
{
    let row = PointRow {
        key: point.key.values(),
        rest: point.rest.as_slice(),
    };
    let mut values = all_of(alloc, point)?;
    for item in items {
        let value = eval(alloc, &item.value, &row, matchers)?;
        put(&mut values, &item.target, value)?;
    }
    Ok(values)
}

/// Puts the value of an item into its place.
fn put(values: &mut Items<Value>, target: &Target, value: Value) -> Result<(), AllocError>
    ensures { OnOk result (values.new ≡ meant.put_value target.now value values.old) }
{
    match target {
        Target::Old(number) => {
            let number = *number as usize;
            if number < values.len() {
                values.set(number, value);
            }
            Ok(())
        }
        Target::New(_) => values.push(value),
    }
}

/// The values of measures that are worked out on a point.
pub(crate) fn measure_values<'a>(
    alloc: Global,
    items: &'a [CheckedMeasure],
    point: &Point,
    matchers: &mut Matchers<'a>,
) -> Result<Items<Value>, EvalStop>
    ensures { IsMeant (meant.worked_values (point_row point.now.key point.now.rest) items.now) result }
{
    let row = PointRow {
        key: point.key.values(),
        rest: point.rest.as_slice(),
    };
    let mut values = Items::new(alloc);
    for item in items {
        values.push(eval(alloc, &item.value, &row, matchers)?)?;
    }
    Ok(values)
}
