// What expressions are worked out on.
ghost use Rattle.std.specs.Prelude.{◌≡◌, unwrap_or};
ghost use Rattle.std.specs.Option.{option_copied};
ghost use Rattle.vtl_values.specs.declared.value.Value.TheVariants.{Null};
ghost use Rattle.scalar_meaning.specs.Rows.{Row as Seen};
ghost use Rattle.scalar_eval.specs.Stops.{IsMeant};

use crate::stop::EvalStop;
use std::alloc::Global;
use vtl_syntax::words::AggregateFunction;
use vtl_values::Value;

/// What an expression is worked out on: a point, or a group of points.
pub trait Row {
    /// The values that it has.
    ghost values: { Self → Seen };

    /// The value of the component with this number; none is null.
    fn component(&self, number: u64) -> Option<&Value>
        ensures { unwrap_or (option_copied result) Null ≡ (values self.now).component number };

    /// The value of an aggregate of the component with this number, which is null on a point.
    fn aggregated(
        &self,
        alloc: Global,
        function: AggregateFunction,
        number: u64,
    ) -> Result<Value, EvalStop>
        ensures { IsMeant ((values self.now).aggregated function number) result };

    /// How many points there are, which is null on a point.
    fn counted(&self) -> Value
        ensures { result ≡ (values self.now).counted };
}

/// A point, whose components are its identifiers and then the others. Aggregates are null on it.
#[derive(Clone, Copy, Debug)]
pub struct PointRow<'a> {
    pub key: &'a [Value],
    pub rest: &'a [Value],
}

impl Row for PointRow<'_> {
    ghost use Rattle.scalar_meaning.specs.Rows.{point_row};

    ghost values = { λ p. point_row p.key.now p.rest.now };

    fn component(&self, number: u64) -> Option<&Value> {
        let number = number as usize;
        match self.key.get(number) {
            Some(value) => Some(value),
            None => self.rest.get(number - self.key.len()),
        }
    }

    fn aggregated(
        &self,
        _alloc: Global,
        _function: AggregateFunction,
        _number: u64,
    ) -> Result<Value, EvalStop> {
        Ok(Value::Null)
    }

    fn counted(&self) -> Value {
        Value::Null
    }
}
