// Trees of points in the order of their keys, and what changes make of them.
ghost use Rattle.std.specs.Prelude.{◌≡◌, ◌+◌, ◌<◌, ◌≤◌, ◌^◌, length, IfOk, IfErr};
ghost use Rattle.std.specs.FinMap as finmap;
ghost use Rattle.data_model.specs.Deltas.{apply};
ghost use Rattle.data_model.specs.Maps.{put};
ghost use Rattle.point_sets.specs.Changes.{values_of, of_changes, IsChange, AreChanges};
ghost use Rattle.point_sets.specs.DataSets.{of_points, key_of, rest_of, Ascend};
ghost use Rattle.point_sets.specs.Places.{IsAt, IsGap};

use crate::delta::Change;
use crate::key::Key;
use crate::measure::Unmeasured;
use crate::point::Point;
use crate::probe::Below;
use ordered_tree::Tree;
use std::alloc::{AllocError, Global};
use std::sync::Arc;

/// Where the point with the key is, or where it would go.
pub fn place(points: &Tree<Point, Unmeasured>, key: &Key) -> Result<u64, u64>
    requires { Ascend points.now }
    ensures found { IfOk result (IsAt points.now key.now) }
    ensures absent { IfErr result (IsGap points.now key.now) }
{
    let place = points.place(&Below { key });
    match points.nth(place) {
        Some(point) if point.key == *key => Ok(place),
        _ => Err(place),
    }
}

/// The points with one put in, in place of the one that has its key.
pub fn with_point(
    alloc: Global,
    points: &Tree<Point, Unmeasured>,
    point: Arc<Point>,
) -> Result<Tree<Point, Unmeasured>, AllocError>
    requires ascend { Ascend points.now }
    requires few { length points.now < 2 ^ 32 }
    ensures ascend { IfOk result (λ after. Ascend after) }
    ensures map { IfOk result (λ after. of_points after ≡ finmap.insert (of_points points.now) (key_of point) (rest_of point)) }
    ensures few { IfOk result (λ after. length after ≤ length points.now + 1) }
{
    match place(points, &point.key) {
        Ok(place) => points.replace_at(alloc, place, point),
        Err(place) => points.insert_at(alloc, place, point),
    }
}

/// The points without the one that has the key.
fn without_point(
    alloc: Global,
    points: &Tree<Point, Unmeasured>,
    key: &Key,
) -> Result<Tree<Point, Unmeasured>, AllocError>
    requires ascend { Ascend points.now }
    ensures ascend { IfOk result (λ after. Ascend after) }
    ensures map { IfOk result (λ after. of_points after ≡ finmap.remove (of_points points.now) key.now) }
    ensures few { IfOk result (λ after. length after ≤ length points.now) }
{
    match place(points, key) {
        Ok(place) => points.remove_at(alloc, place),
        Err(_) => points.copy(),
    }
}

/// The points with the new one of a change, or none, at its key.
fn changed(
    alloc: Global,
    points: &Tree<Point, Unmeasured>,
    change: &Change,
) -> Result<Tree<Point, Unmeasured>, AllocError>
    requires ascend { Ascend points.now }
    requires change { IsChange change.now }
    requires few { length points.now < 2 ^ 32 }
    ensures ascend { IfOk result (λ after. Ascend after) }
    ensures map { IfOk result (λ after. of_points after ≡ put change.now.key (values_of change.now.new) (of_points points.now)) }
    ensures few { IfOk result (λ after. length after ≤ length points.now + 1) }
{
    match &change.new {
        Some(new) => with_point(alloc, points, new.clone()?),
        None => without_point(alloc, points, &change.key),
    }
}

/// The points after changes. They share what no change touches.
pub fn points_after(
    alloc: Global,
    points: &Tree<Point, Unmeasured>,
    changes: &[Change],
) -> Result<Tree<Point, Unmeasured>, AllocError>
    requires ascend { Ascend points.now }
    requires changes { AreChanges changes.now }
    requires few { length points.now + length changes.now ≤ 2 ^ 32 }
    ensures ascend { IfOk result (λ after. Ascend after) }
    ensures applied { IfOk result (λ after. of_points after ≡ apply (of_changes changes.now) (of_points points.now)) }
{
    let mut after = points.copy()?;
    for change in changes {
        after = changed(alloc, &after, change)?;
    }
    Ok(after)
}
