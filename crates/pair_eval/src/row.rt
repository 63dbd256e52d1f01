// Two points as one row.
ghost use Rattle.std.specs.Prelude.{◌≡◌, ◌-◌, ◌≤◌, ◌++◌, length, slice_get};
ghost use Rattle.std.specs.Option.{option_copied};
ghost use Rattle.scalar_meaning.specs.Rows.{point_row};
ghost use Rattle.scalar_eval.specs.Stops.{IsMeant};
ghost use Rattle.clause_meaning.specs.Clauses.{worked_values};

use data_set_trees::clauses::CheckedMeasure;
use point_sets::Point;
use scalar_eval::{EvalStop, Matchers, Row, eval};
use sqlite_items::Items;
use std::alloc::Global;
use vtl_syntax::words::AggregateFunction;
use vtl_values::Value;

/// The value of a point with this number.
pub(crate) fn value_of(point: &Point, number: u64) -> Option<&Value>
    ensures { option_copied result ≡ slice_get (point.now.key ++ point.now.rest) number }
{
    let number = number as usize;
    let key = point.key.values();
    match key.get(number) {
        Some(value) => Some(value),
        None => point.rest.get(number - key.len()),
    }
}

/// The number of a value that comes after those of a point, counted from there.
fn number_after(point: &Point, number: u64) -> u64
    requires { length (point.now.key ++ point.now.rest) ≤ number }
    ensures { result ≡ number - length (point.now.key ++ point.now.rest) }
{
    number - point.key.values().len() as u64 - point.rest.len() as u64
}

/// Two points, whose components are those of the first and then those of the second. Aggregates are null on them.
#[derive(Clone, Copy)]
pub(crate) struct PairRow<'a> {
    pub(crate) left: &'a Point,
    pub(crate) right: &'a Point,
}

impl Row for PairRow<'_> {
    ghost use Rattle.std.specs.Prelude.{◌++◌};
    ghost use Rattle.scalar_meaning.specs.Rows.{point_row};

    ghost values = { λ p. point_row (p.left.now.key ++ p.left.now.rest) (p.right.now.key ++ p.right.now.rest) };

    fn component(&self, number: u64) -> Option<&Value> {
        match value_of(self.left, number) {
            Some(value) => Some(value),
            None => value_of(self.right, number_after(self.left, number)),
        }
    }

    fn aggregated(
        &self,
        _alloc: Global,
        _function: AggregateFunction,
        _number: u64,
    ) -> Result<Value, EvalStop> {
        Ok(Value::Null)
    }

    fn counted(&self) -> Value {
        Value::Null
    }
}

/// The values of measures that are worked out on two points.
pub(crate) fn measure_values<'a>(
    alloc: Global,
    measures: &'a [CheckedMeasure],
    left: &Point,
    right: &Point,
    matchers: &mut Matchers<'a>,
) -> Result<Items<Value>, EvalStop>
    ensures { IsMeant (worked_values (point_row (left.now.key ++ left.now.rest) (right.now.key ++ right.now.rest)) measures.now) result }
{
    let row = PairRow { left, right };
    let mut values = Items::new(alloc);
    for measure in measures {
        values.push(eval(alloc, &measure.value, &row, matchers)?)?;
    }
    Ok(values)
}
