// Sets of points.
ghost use Rattle.std.specs.Prelude.{◌≡◌, ◌+◌, ◌≤◌, ◌^◌, ◌↔◌, IsTrue, IfOk, IsOk, OnOk, OnErr, map, slice_get};
ghost use Rattle.std.specs.Option.{option_copied, option_map};
ghost use Rattle.std.specs.FinMap as finmap;
ghost use Rattle.data_model.specs.Deltas.{apply, BeginsAt, Leads};
ghost use Rattle.vtl_values.specs.Order.{key_cmp};
ghost use Rattle.point_sets.specs.DataSets.{entry_of, key_of, rest_of, HasKey};
ghost use Rattle.point_sets.specs.Places.{above};

use crate::delta::Delta;
use crate::edits::{place, points_after, with_point};
use crate::key::Key;
use crate::measure::Unmeasured;
use crate::point::Point;
use crate::probe::UpTo;
use ordered_tree::Tree;
use std::alloc::{AllocError, Global};
use std::marker::Model;
use std::sync::Arc;

/// The most points that a set holds. One more is answered by want of memory, as by a `Vec` that is full.
const ROOM: u64 = 0x1_0000_0000;

/// A set of points with different keys, in the order of their keys. Contracts see it as the map from keys to the
/// other values. Its points are shared with whoever else holds them, and so is what two sets have in common where one
/// was made of the other.
pub struct PointSet {
    alloc: Global,
    points: Tree<Point, Unmeasured>,
}

// Written out, so that who drops one calls this and doesn't go through what is in it.
impl Drop for PointSet {
    fn drop(self) {
        let PointSet {
            alloc: _,
            points: _,
        } = self;
    }
}

impl Model for PointSet {
    ghost use Rattle.point_sets.specs.DataSets.{DataSet, data_set_coded, of_points, Ascend};

    ghost Value = { DataSet };

    ghost coded = { data_set_coded };

    ghost view = { λ set. of_points set.points };

    ghost invariant = { λ set. Ascend set.points };
}

impl PointSet {
    /// No points.
    pub fn new(alloc: Global) -> PointSet
        ensures { result ≡ finmap.empty }
    {
        PointSet {
            alloc,
            points: Tree::new(),
        }
    }

    /// The point with the key.
    pub fn get(&self, key: &Key) -> Option<&Arc<Point>>
        ensures value { option_map rest_of (option_copied result) ≡ finmap.get self.now key.now }
        ensures key { HasKey key.now (option_copied result) }
    {
        match place(&self.points, key) {
            Ok(place) => self.points.nth(place),
            Err(_) => None,
        }
    }

    /// How many points there are.
    pub fn count(&self) -> u64
        ensures { result ≡ finmap.len self.now }
    {
        self.points.len()
    }

    /// The point before which n others stand, in the order of the keys.
    pub fn nth(&self, n: u64) -> Option<&Arc<Point>>
        ensures { option_map entry_of (option_copied result) ≡ slice_get (finmap.entries self.now) n }
    {
        self.points.nth(n)
    }

    /// The first point whose key is above the given one.
    pub fn after(&self, key: &Key) -> Option<&Arc<Point>>
        ensures { option_map entry_of (option_copied result) ≡ slice_get (above key_cmp key.now (finmap.entries self.now)) 0 }
    {
        self.points.nth(self.points.place(&UpTo { key }))
    }

    /// The points, in the order of their keys.
    pub fn points(&self) -> Result<Vec<Arc<Point>>, AllocError>
        ensures { IfOk result (λ points. map entry_of points.items ≡ finmap.entries self.now) }
    {
        let mut all = Vec::new(self.alloc);
        self.points.push_to(&mut all)?;
        Ok(all)
    }

    /// Puts a point in, in place of the one that has its key.
    pub fn insert(&mut self, point: Arc<Point>) -> Result<(), AllocError>
        ensures ok { OnOk result (self.new ≡ finmap.insert self.old (key_of point) (rest_of point)) }
        ensures err { OnErr result (self.new ≡ self.old) }
    {
        if self.points.len() >= ROOM {
            return Err(AllocError);
        }
        self.points = with_point(self.alloc, &self.points, point)?;
        Ok(())
    }

    /// Puts the new points of a delta in place of the old ones. It takes time and memory for the changes alone, and
    /// none where there are none.
    pub fn apply(&mut self, delta: &Delta) -> Result<(), AllocError>
        ensures ok { OnOk result (self.new ≡ apply delta.now self.old) }
        ensures leads { BeginsAt delta.now self.old → OnOk result (Leads delta.now self.old self.new) }
        ensures nothing { delta.now ≡ finmap.empty → IsOk result }
        ensures err { OnErr result (self.new ≡ self.old) }
    {
        let changes = delta.changes();
        if changes.is_empty() {
            return Ok(());
        }
        if !has_room(self.points.len(), changes.len()) {
            return Err(AllocError);
        }
        self.points = points_after(self.alloc, &self.points, changes)?;
        Ok(())
    }

    /// An equal set, which shares all that this one has.
    pub fn copy(&self) -> Result<PointSet, AllocError>
        ensures { IfOk result (λ set. set ≡ self.now) }
    {
        Ok(PointSet {
            alloc: self.alloc,
            points: self.points.copy()?,
        })
    }
}

/// Whether a set of so many points holds so many more.
fn has_room(points: u64, more: usize) -> bool
    ensures { IsTrue result ↔ (points + more ≤ 2 ^ 32) }
{
    points <= ROOM && more as u64 <= ROOM - points
}
