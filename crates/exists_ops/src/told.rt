// What the operator tells of a point.
ghost use Rattle.std.specs.Prelude.{◌≡◌, ◌∷◌, ◌++◌, List, IfOk, OnOk, slice_get};
ghost use Rattle.std.specs.Option.{option_copied};
ghost use Rattle.vtl_values.specs.declared.value.Value.{Value as V};
ghost use Rattle.point_sets.specs.DataSets.{HasKey, key_of, rest_of};
ghost use Rattle.point_sets.specs.Changes.{values_of};
ghost use Rattle.clause_meaning.specs.Clauses as clauses;
ghost use Rattle.operator_meaning.specs.exists.Exists as meant;
ghost use Rattle.exists_ops.specs.Told as specs;

use point_sets::Point;
use sqlite_items::Items;
use std::alloc::{AllocError, Global};
use std::sync::Arc;
use vtl_syntax::words::ExistsRows;
use vtl_values::Value;

/// Which rows stay, and the numbers of the viral attributes of the first operand.
#[derive(Drop)]
pub struct Told {
    pub rows: ExistsRows,
    pub virals: Items<u64>,
}

impl Told {
    /// What is told of the point that may be there, where it is met or isn't.
    pub fn of_point(
        &self,
        alloc: Global,
        met: bool,
        point: Option<&Arc<Point>>,
    ) -> Result<Option<Arc<Point>>, AllocError>
        ensures key { (key : List V) → HasKey key (option_copied point.entry) → IfOk result (HasKey key) }
        ensures values { (key : List V) → HasKey key (option_copied point.entry) →
            IfOk result (λ told. values_of told ≡ specs.told_of self.now.rows self.now.virals met key (values_of (option_copied point.entry))) }
    {
        match point {
            Some(point) => {
                if stays(self.rows, met) {
                    Ok(Some(self.made(alloc, met, point)?))
                } else {
                    Ok(None)
                }
            }
            None => Ok(None),
        }
    }

    /// What is told of a point.
    fn made(&self, alloc: Global, met: bool, point: &Point) -> Result<Arc<Point>, AllocError>
        ensures key { IfOk result (λ made. key_of made ≡ point.now.key) }
        ensures rest { IfOk result (λ made. rest_of made ≡ specs.told_values self.now.virals met point.now.key point.now.rest) }
    {
        let mut rest = Items::new(alloc);
        rest.push(Value::Truth(met))?;
        push_picked(&mut rest, self.virals.as_slice(), point)?;
        let made = Point {
            key: point.key.copy()?,
            rest,
        };
        Ok(Arc::new(alloc, made)?)
    }
}

/// Whether a point stays, where it is met or isn't.
fn stays(rows: ExistsRows, met: bool) -> bool
    ensures { result ≡ meant.stays rows met }
{
    match rows {
        ExistsRows::All => true,
        ExistsRows::True => met,
        ExistsRows::False => !met,
    }
}

/// Pushes the values of a point with these numbers.
fn push_picked(values: &mut Items<Value>, numbers: &[u64], point: &Point) -> Result<(), AllocError>
    ensures { OnOk result (values.new ≡ values.old ++ clauses.values_at numbers.now (point.now.key ++ point.now.rest)) }
{
    for number in numbers {
        if let Some(value) = value_of(point, *number) {
            values.push(value.copy()?)?;
        }
    }
    Ok(())
}

/// The value of a point with this number.
fn value_of(point: &Point, number: u64) -> Option<&Value>
    ensures { option_copied result ≡ slice_get (point.now.key ++ point.now.rest) number }
{
    let number = number as usize;
    let key = point.key.values();
    match key.get(number) {
        Some(value) => Some(value),
        None => point.rest.get(number - key.len()),
    }
}
