// Walks: points in order, with sums.
ghost use Rattle.std.specs.Prelude.{◌≡◌, ◌+◌, ◌<◌, ◌≤◌, ◌^◌, [], IfOk, OnOk, None, filter, length, slice_get, slice_index};
ghost use Rattle.std.specs.Arc.{arc_value};
ghost use Rattle.std.specs.Option.{option_copied, option_map};
ghost use Rattle.std.specs.List.{prefix_len, last_or};
ghost use Rattle.std.specs.Ordering.{eq_by_cmp};
ghost use Rattle.std.specs.FinMap as finmap;
ghost use Rattle.vtl_values.specs.Order.{key_cmp};
ghost use Rattle.ordered_tree.specs.Lists.{stretch};
ghost use Rattle.ordered_tree.specs.Orders.{Ascends, put_in, take_out, changed};
ghost use Rattle.point_sets.specs.DataSets.{entry_of, HasKey};
ghost use Rattle.point_sets.specs.Changes.{values_of};
ghost use Rattle.held_index.specs.Walks.{walk_cmp, entry_cmp, part_key};
ghost use Rattle.held_index.specs.WalkedPoints.{IsWalk, IsWalkOfEntries, points_of, without_old, with_new};
ghost use Rattle.held_index.specs.Places.{is_up_to};
ghost use Rattle.held_index.specs.Sums.{sum_over};

use crate::entry::{Entry, UpTo, Walking};
use crate::place::Place;
use crate::sums::{Sums, Which};
use crate::want::{SumOf, Want};
use ordered_tree::Tree;
use point_sets::{Change, Key, Point};
use std::alloc::{AllocError, Global};
use std::marker::Model;
use std::sync::Arc;

/// Points with different keys, in the order of a want. Contracts see the want, and the list of the points.
#[derive(Drop)]
pub(crate) struct Walk {
    want: Arc<Want>,
    entries: Tree<Entry, Sums>,
    alloc: Global,
}

impl Model for Walk {
    ghost use Rattle.std.specs.Arc.{arc_value};
    ghost use Rattle.held_index.specs.WalkedPoints.{Walked, walked_coded, points_of, IsWalkOfEntries};

    ghost Value = { Walked };

    ghost coded = { walked_coded };

    ghost view = { λ walk. record { want = arc_value walk.want; points = points_of walk.entries } };

    ghost invariant = { λ walk. IsWalkOfEntries (arc_value walk.want) walk.entries };
}

impl Walk {
    pub(crate) fn empty(alloc: Global, want: &Want) -> Result<Walk, AllocError>
        ensures { IfOk result (λ walk. walk ≡ record { want = want.now; points = [] }) }
    {
        Ok(Walk {
            want: Arc::new(alloc, want.copy(alloc)?)?,
            entries: Tree::new(),
            alloc,
        })
    }

    /// An equal walk, which shares the points.
    pub(crate) fn copy(&self) -> Result<Walk, AllocError>
        ensures is { IfOk result (λ walk. walk ≡ self.now) }
        ensures walk { OnOk result (IsWalk self.now.want self.now.points) }
    {
        Ok(Walk {
            want: self.want.clone()?,
            entries: self.entries.copy()?,
            alloc: self.alloc,
        })
    }

    /// The point before which n others stand.
    pub(crate) fn nth(&self, n: u64) -> Option<&Arc<Point>>
        ensures { option_map entry_of (option_copied result) ≡ slice_get self.now.points n }
    {
        match self.entries.nth(n) {
            None => None,
            Some(entry) => Some(entry.point()),
        }
    }

    /// How many points are before a place, or up to its end.
    pub(crate) fn count_up_to(&self, place: Place, inside: bool) -> u64
        ensures count { result ≡ prefix_len (is_up_to self.now.want place.entry inside) self.now.points }
        ensures within { result ≤ length self.now.points }
        ensures walk { IsWalk self.now.want self.now.points }
    {
        let want: &Want = &self.want;
        self.entries.place(&UpTo {
            want,
            place,
            inside,
        })
    }

    /// From where to where a part goes.
    pub(crate) fn span_of(&self, part: &Key) -> (u64, u64)
        ensures part { stretch result.0 result.1 self.now.points ≡ filter (λ p. eq_by_cmp key_cmp (part_key self.now.want.part p) part.now) self.now.points }
        ensures ordered { result.0 ≤ result.1 }
        ensures within { result.1 ≤ length self.now.points }
        ensures walk { IsWalk self.now.want self.now.points }
    {
        let from = self.count_up_to(Place::Part(part), false);
        let to = self.count_up_to(Place::Part(part), true);
        (from, to)
    }

    /// Of the points from one place up to another, the one before which n others stand.
    pub(crate) fn nth_between(&self, from: u64, to: u64, n: u64) -> Option<&Arc<Point>>
        ensures { option_map entry_of (option_copied result) ≡ slice_get (stretch from to self.now.points) n }
    {
        if n < to.saturating_sub(from) {
            self.nth(from + n)
        } else {
            None
        }
    }

    /// The last of the points from one place up to another.
    pub(crate) fn last_between(&self, from: u64, to: u64) -> Option<&Arc<Point>>
        requires { to ≤ length self.now.points }
        ensures { option_map entry_of (option_copied result) ≡ last_or None (stretch from to self.now.points) }
    {
        if from < to { self.nth(to - 1) } else { None }
    }

    /// The sum of a summed component, from one place up to another.
    pub(crate) fn sum_between(&self, which: u64, from: u64, to: u64) -> SumOf
        requires which { which < length self.now.want.sums }
        requires from { from ≤ to }
        requires to { to ≤ length self.now.points }
        ensures { result ≡ sum_over (slice_index self.now.want.sums which) (stretch from to self.now.points) }
    {
        self.entries.read_between(&Which { which }, from, to)
    }

    /// The walk after a change of one of its points. This one stays as it is, and they share what doesn't change.
    pub(crate) fn changed(&self, change: &Change) -> Result<Walk, AllocError>
        requires old { HasKey change.now.key change.now.old }
        requires new { HasKey change.now.key change.now.new }
        requires begins { finmap.find key_cmp change.now.key self.now.points ≡ values_of change.now.old }
        requires few { length self.now.points + 1 ≤ 2 ^ 32 }
        ensures want { IfOk result (λ walk. walk.want ≡ self.now.want) }
        ensures points { IfOk result (λ walk. walk.points ≡ changed (walk_cmp self.now.want) (option_map entry_of change.now.old) (option_map entry_of change.now.new) self.now.points) }
        ensures few { IfOk result (λ walk. length walk.points ≤ length self.now.points + 1) }
        ensures walk { IfOk result (λ walk. IsWalk walk.want walk.points) }
    {
        let without = without_old(self.alloc, &self.want, &self.entries, &change.old)?;
        Ok(Walk {
            want: self.want.clone()?,
            entries: with_new(self.alloc, &self.want, without, &change.new)?,
            alloc: self.alloc,
        })
    }
}

/// The entries without the point, if there is one.
fn without_old(
    alloc: Global,
    want: &Want,
    entries: &Tree<Entry, Sums>,
    old: &Option<Arc<Point>>,
) -> Result<Tree<Entry, Sums>, AllocError>
    requires ascends { Ascends (entry_cmp want.now) entries.now }
    ensures entries { IfOk result (λ tree. tree ≡ without_old want.now old.now entries.now) }
    ensures ascends { IfOk result (λ tree. Ascends (entry_cmp want.now) tree) }
    ensures few { IfOk result (λ tree. length tree ≤ length entries.now) }
{
    match old {
        None => entries.copy(),
        Some(point) => {
            let entry = Entry::of(alloc, point, &[])?;
            entries.without(alloc, &Walking { want }, &entry)
        }
    }
}

/// The entries with the point, if there is one.
fn with_new(
    alloc: Global,
    want: &Want,
    entries: Tree<Entry, Sums>,
    new: &Option<Arc<Point>>,
) -> Result<Tree<Entry, Sums>, AllocError>
    requires ascends { Ascends (entry_cmp want.now) entries }
    requires few { length entries + 1 ≤ 2 ^ 32 }
    ensures entries { IfOk result (λ tree. tree ≡ with_new want.now new.now entries) }
    ensures few { IfOk result (λ tree. length tree ≤ length entries + 1) }
{
    match new {
        None => Ok(entries),
        Some(point) => {
            let entry = Entry::of(alloc, point, want.sums.as_slice())?;
            entries.put(alloc, &Walking { want }, Arc::new(alloc, entry)?)
        }
    }
}
