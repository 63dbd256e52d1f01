// The values of a point of the join.
ghost use Rattle.std.specs.Prelude.{◌≡◌, ◌++◌, length, map, zip, flat_map, is_some, slice_get, IfOk, OnOk};
ghost use Rattle.std.specs.List.{list_all, list_any};
ghost use Rattle.std.specs.Option.{option_copied};
ghost use Rattle.vtl_values.specs.declared.value.Value.TheVariants.{Null};
ghost use Rattle.point_sets.specs.Changes.{values_of};
ghost use Rattle.clause_meaning.specs.Clauses.{values_at};
ghost use Rattle.operator_meaning.specs.joins.Joins as meant;
ghost use Rattle.join_eval.specs.Made as made;

use crate::sides::Side;
use crate::virals::{ViralPlaces, push_virals};
use point_sets::Point;
use sqlite_items::Items;
use std::alloc::{AllocError, Global};
use std::sync::Arc;
use vtl_syntax::words::JoinFunction;
use vtl_values::Value;

fn are_all_there(points: &[Option<Arc<Point>>]) -> bool
    ensures { result ≡ list_all is_some points.now }
{
    points.iter().all(|point| point.is_some())
}

fn is_any_there(points: &[Option<Arc<Point>>]) -> bool
    ensures { result ≡ list_any is_some points.now }
{
    points.iter().any(|point| point.is_some())
}

/// Whether there is a point, by which of the operands have one.
pub(crate) fn stays(function: JoinFunction, points: &[Option<Arc<Point>>]) -> bool
    ensures { result ≡ meant.stays function (map is_some points.now) }
{
    match function {
        JoinFunction::Inner => are_all_there(points),
        JoinFunction::Left => match points.first() {
            Some(first) => first.is_some(),
            None => false,
        },
        JoinFunction::Full => is_any_there(points),
        JoinFunction::Cross => are_all_there(points),
    }
}

fn value_at(values: &[Value], number: u64) -> Option<&Value>
    ensures { option_copied result ≡ slice_get values.now number }
{
    values.get(number as usize)
}

/// Puts the values with these numbers last.
fn push_values(values: &mut Items<Value>, numbers: &[u64], rest: &[Value]) -> Result<(), AllocError>
    ensures { OnOk result (values.new ≡ values.old ++ values_at numbers.now rest.now) }
{
    for number in numbers {
        if let Some(value) = value_at(rest, *number) {
            values.push(value.copy()?)?;
        }
    }
    Ok(())
}

/// Puts a null last for each of these numbers.
fn push_nulls(values: &mut Items<Value>, numbers: &[u64]) -> Result<(), AllocError>
    ensures { OnOk result (values.new ≡ values.old ++ map (λ number. Null) numbers.now) }
{
    for number in numbers {
        values.push(Value::Null)?;
    }
    Ok(())
}

/// Puts the values of an operand's measures last, or nulls where it has no point.
fn push_measures(
    values: &mut Items<Value>,
    side: &Side,
    point: &Option<Arc<Point>>,
) -> Result<(), AllocError>
    ensures { OnOk result (values.new ≡ values.old ++ made.measures_there side.now (values_of point.now)) }
{
    let numbers = side.measures.as_slice();
    match point {
        Some(point) => push_values(values, numbers, point.rest.as_slice()),
        None => push_nulls(values, numbers),
    }
}

/// The measures of each operand, and then the viral attributes.
pub(crate) fn joined_values(
    alloc: Global,
    sides: &[Side],
    attributes: &[ViralPlaces],
    points: &[Option<Arc<Point>>],
) -> Result<Items<Value>, AllocError>
    requires sides { length sides.now ≡ length points.now }
    requires attributes { made.AreAsMany (length points.now) attributes.now }
    ensures { IfOk result (λ values. values ≡ made.values_by sides.now attributes.now (map values_of points.now)) }
{
    let mut values = Items::new(alloc);
    for (i, point) in points.iter().enumerate() {
        push_measures(&mut values, &sides[i], point)?;
    }
    push_virals(&mut values, attributes, points)?;
    Ok(values)
}
