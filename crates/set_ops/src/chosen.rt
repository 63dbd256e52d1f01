// The point of the result at a key.
ghost use Rattle.std.specs.Prelude.{◌≡◌, map, is_some, length, IfOk};
ghost use Rattle.std.specs.List.{list_all, list_any};
ghost use Rattle.data_model.specs.Maps as maps;
ghost use Rattle.point_sets.specs.DataSets.{HasKey};
ghost use Rattle.point_sets.specs.Changes.{values_of};
ghost use Rattle.operator_meaning.specs.sets.Sets as meant;
ghost use Rattle.set_ops.specs.Readings.{in_order};

use crate::reading::Reading;
use data_set_trees::SetOperation;
use point_sets::{Key, Point};
use std::alloc::{AllocError, Global};
use std::sync::Arc;

fn are_all_there(points: &[Option<Arc<Point>>]) -> bool
    ensures { result ≡ list_all is_some points.now }
{
    points.iter().all(|point| point.is_some())
}

fn is_any_there(points: &[Option<Arc<Point>>]) -> bool
    ensures { result ≡ list_any is_some points.now }
{
    points.iter().any(|point| point.is_some())
}

/// Whether a point stays, by which of the operands have one.
fn stays(operation: SetOperation, points: &[Option<Arc<Point>>]) -> bool
    ensures { result ≡ meant.stays operation (map is_some points.now) }
{
    match operation {
        SetOperation::Union => true,
        SetOperation::Intersect => are_all_there(points),
        SetOperation::Setdiff => match points.split_first() {
            Some((_first, others)) => !is_any_there(others),
            None => false,
        },
        SetOperation::Symdiff => points.iter().filter(|point| point.is_some()).count() == 1,
    }
}

/// The leftmost of the points that the operands have at a key of the result, as it is read.
fn leftmost(
    alloc: Global,
    readings: &[Reading],
    points: &[Option<Arc<Point>>],
    key: &Key,
) -> Result<Option<Arc<Point>>, AllocError>
    requires { length points.now ≡ length readings.now }
    ensures key { IfOk result (HasKey key.now) }
    ensures value { IfOk result (λ point. values_of point ≡ maps.leftmost (in_order readings.now (map values_of points.now))) }
{
    for (i, point) in points.iter().enumerate() {
        if let Some(point) = point {
            return Ok(Some(readings[i].point(alloc, key, point)?));
        }
    }
    Ok(None)
}

/// The point of the result at a key, of those that the operands have there.
pub fn chosen(
    alloc: Global,
    operation: SetOperation,
    readings: &[Reading],
    points: &[Option<Arc<Point>>],
    key: &Key,
) -> Result<Option<Arc<Point>>, AllocError>
    requires { length points.now ≡ length readings.now }
    ensures key { IfOk result (HasKey key.now) }
    ensures value { IfOk result (λ point. values_of point ≡ meant.chosen operation (in_order readings.now (map values_of points.now))) }
{
    if stays(operation, points) {
        leftmost(alloc, readings, points, key)
    } else {
        Ok(None)
    }
}
