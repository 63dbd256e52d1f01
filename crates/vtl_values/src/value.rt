// Values.
ghost use Rattle.std.specs.Prelude.{◌≡◌, IfOk};

use crate::number::{Decimal, Integer};
use crate::word::Word;
use std::alloc::AllocError;
use std::cmp::Ordering;

/// A value of a component. Null belongs to every kind.
#[derive(Debug, Drop, PartialEq, Eq, PartialOrd, Ord)]
pub enum Value {
    Null,
    Truth(bool),
    Integer(Integer),
    Number(Decimal),
    Text(Word),
}

impl Value {
    ghost use Rattle.vtl_values.specs.Order.{value_cmp};

    /// An equal value, or want of memory.
    pub fn copy(&self) -> Result<Value, AllocError>
        ensures { IfOk result (λ value. value ≡ self.now) }
    {
        Ok(match self {
            Value::Null => Value::Null,
            Value::Truth(truth) => Value::Truth(*truth),
            Value::Integer(integer) => Value::Integer(*integer),
            Value::Number(number) => Value::Number(*number),
            Value::Text(word) => Value::Text(word.copy()?),
        })
    }

    /// The total order of values: null, false, true, integers, numbers, and texts by their bytes.
    pub fn order(&self, other: &Value) -> Ordering
        ensures { result ≡ value_cmp self.now other.now }
    {
        self.cmp(other)
    }
}
