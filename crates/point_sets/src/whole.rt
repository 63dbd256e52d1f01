// The change that makes a data set from nothing.
ghost use Rattle.std.specs.Prelude.{IfOk};
ghost use Rattle.std.specs.FinMap as finmap;
ghost use Rattle.data_model.specs.Deltas.{Leads};
ghost use Rattle.point_sets.specs.Changes.{IsComing};

use crate::delta::{Change, Delta};
use crate::point::Point;
use crate::point_set::PointSet;
use std::alloc::{AllocError, Global};
use std::sync::Arc;

/// The delta that leads from no points to these, which it shares. It takes time and memory for each point.
pub fn all_of(alloc: Global, set: &PointSet) -> Result<Delta, AllocError>
    ensures { IfOk result (λ delta. Leads delta finmap.empty set.now) }
{
    let points = set.points()?;
    let mut changes = Vec::new(alloc);
    for point in points.as_slice() {
        changes.push(coming(point)?)?;
    }
    Ok(Delta::of(changes))
}

/// The change by which a point comes.
fn coming(point: &Arc<Point>) -> Result<Change, AllocError>
    ensures { IfOk result (IsComing point.now) }
{
    Ok(Change {
        key: point.key.copy()?,
        old: None,
        new: Some(point.clone()?),
    })
}
