// Points of `sub` and `unpivot`, under keys of their own.
ghost use Rattle.std.specs.Prelude.{◌≡◌, ◌++◌, Some, option_map, not, slice_get, IfOk};
ghost use Rattle.vtl_values.specs.declared.kind.Role.TheVariants.{Viral};
ghost use Rattle.vtl_values.specs.declared.structure.Component.{Component as Column};
ghost use Rattle.vtl_values.specs.declared.value.Value.TheVariants.{Text};
ghost use Rattle.data_model.specs.Maps.{if_passes};
ghost use Rattle.scalar_meaning.specs.Comparisons.{is_null};
ghost use Rattle.data_set_trees.specs.declared.clauses.frame.Frame.{Frame};
ghost use Rattle.data_set_trees.specs.clauses.Frames.{numbers_of};
ghost use Rattle.clause_meaning.specs.Clauses as meant;
ghost use Rattle.point_sets.specs.DataSets.{key_of, rest_of, HasKey};
ghost use Rattle.point_sets.specs.Changes.{values_of};
ghost use Rattle.clause_eval.specs.Measures.{IsMeasureAt};

use crate::values::{picked_of, push_all, value_of};
use point_sets::{Key, Point};
use sqlite_items::Items;
use std::alloc::{AllocError, Global};
use std::sync::Arc;
use vtl_values::{Component, Value};

/// A point under another key.
pub fn moved(alloc: Global, key: &Key, point: &Point) -> Result<Arc<Point>, AllocError>
    ensures key { IfOk result (λ moved. key_of moved ≡ key.now) }
    ensures values { IfOk result (λ moved. rest_of moved ≡ point.now.rest) }
{
    let mut rest = Items::new(alloc);
    push_all(&mut rest, point.rest.as_slice())?;
    let point = Point {
        key: key.copy()?,
        rest,
    };
    Ok(Arc::new(alloc, point)?)
}

/// A key with a measure's name after it.
pub fn key_with_name(alloc: Global, key: &Key, measure: &Component) -> Result<Key, AllocError>
    ensures { IfOk result (λ named. named ≡ meant.key_with_name key.now measure.now) }
{
    let mut values = Vec::new(alloc);
    for value in key.values() {
        values.push(value.copy()?)?;
    }
    values.push(Value::Text(measure.name.copy()?))?;
    Key::of(alloc, values)
}

/// The point of the measure with this number, under a key of its own, if the measure isn't null; the viral attributes'
/// values are picked.
pub fn measure_of(
    alloc: Global,
    picks: &[u64],
    number: u64,
    key: &Key,
    point: &Point,
) -> Result<Option<Arc<Point>>, AllocError>
    ensures key { IfOk result (HasKey key.now) }
    ensures values { (frame : Frame) (c : Column) → IsMeasureAt frame number c → picks.now ≡ numbers_of Viral frame.components →
        IfOk result (λ of_measure. values_of of_measure ≡ meant.measure_point frame (point.now.key ++ point.now.rest) (Text c.name)) }
{
    let Some(value) = value_there(point, number)? else {
        return Ok(None);
    };
    let mut rest = Items::new(alloc);
    rest.push(value)?;
    rest.append(Items::from_vec(picked_of(alloc, picks, point)?))?;
    let point = Point {
        key: key.copy()?,
        rest,
    };
    Ok(Some(Arc::new(alloc, point)?))
}

/// The value with this number, if it isn't null.
fn value_there(point: &Point, number: u64) -> Result<Option<Value>, AllocError>
    ensures { IfOk result (λ value. value ≡ if_passes (λ v. not (is_null v)) (slice_get (point.now.key ++ point.now.rest) number)) }
{
    match value_of(point, number) {
        None | Some(Value::Null) => Ok(None),
        Some(value) => Ok(Some(value.copy()?)),
    }
}
