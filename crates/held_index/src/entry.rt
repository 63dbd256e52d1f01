// The entries of a walk.
ghost use Rattle.std.specs.Prelude.{◌≡◌, IfOk};
ghost use Rattle.point_sets.specs.DataSets.{entry_of};
ghost use Rattle.held_index.specs.Places.{is_up_to};
ghost use Rattle.held_index.specs.Sums.{own_sums};

use crate::place::{Place, compare_points};
use crate::sums::Sums;
use crate::want::Want;
use ordered_tree::{Measured, Order, Probe};
use point_sets::Point;
use std::alloc::{AllocError, Global};
use std::cmp::Ordering;
use std::marker::Model;
use std::sync::Arc;

/// A point, and what it adds to the sums that are kept.
#[derive(Drop)]
pub(crate) struct Entry {
    point: Arc<Point>,
    own: Sums,
}

impl Model for Entry {
    ghost use Rattle.std.specs.Prelude.{List};
    ghost use Rattle.point_sets.specs.DataSets.{entry_of};
    ghost use Rattle.held_index.specs.Walks.{PointValues};
    ghost use Rattle.held_index.specs.Sums.{FitAll};
    ghost use Rattle.held_index.specs.declared.want.SumOf.{SumOf};

    ghost Value = { PointValues × List SumOf };

    ghost view = { λ entry. (entry_of entry.point, entry.own) };

    ghost invariant = { λ entry. FitAll 1 entry.own };
}

impl Entry {
    /// The entry of a point, where these components are summed.
    pub(crate) fn of(alloc: Global, point: &Arc<Point>, sums: &[u64]) -> Result<Entry, AllocError>
        ensures { IfOk result (λ entry. entry ≡ (entry_of point.now, own_sums sums.now (entry_of point.now))) }
    {
        Ok(Entry {
            own: Sums::of_point(alloc, point, sums)?,
            point: point.clone()?,
        })
    }

    pub(crate) fn point(&self) -> &Arc<Point>
        ensures { entry_of result.now ≡ self.now.0 }
    {
        &self.point
    }
}

impl Measured<Sums> for Entry {
    ghost of = { λ entry. entry.1 };

    fn measure(&self) -> &Sums {
        &self.own
    }
}

/// The order in which entries are walked.
#[derive(Drop)]
pub(crate) struct Walking<'a> {
    pub(crate) want: &'a Want,
}

impl<'a> Order<Entry> for Walking<'a> {
    ghost use Rattle.held_index.specs.Walks.{entry_cmp};
    ghost use Rattle.held_index.specs.WalkLaws.{entry_cmp-IsTotalOrder};

    ghost cmp = { λ walking. entry_cmp walking.want.now };

    fn compare(&self, one: &Entry, other: &Entry) -> Ordering {
        compare_points(self.want, &one.point, &other.point)
    }

    ghost total = { λ walking. entry_cmp-IsTotalOrder walking.want.now };
}

/// The points before a place, or those up to its end.
#[derive(Drop)]
pub(crate) struct UpTo<'a> {
    pub(crate) want: &'a Want,
    pub(crate) place: Place<'a>,
    pub(crate) inside: bool,
}

impl<'a> Probe<Entry> for UpTo<'a> {
    ghost use Rattle.held_index.specs.Places.{is_up_to};

    ghost test = { λ probe entry. is_up_to probe.want.now probe.place probe.inside entry.0 };

    fn is_below(&self, entry: &Entry) -> bool {
        let side = self.place.compare(self.want, &entry.point);
        if self.inside {
            side.is_le()
        } else {
            side.is_lt()
        }
    }
}
