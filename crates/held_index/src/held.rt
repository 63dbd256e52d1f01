// Held operands.
ghost use Rattle.std.specs.Prelude.{◌≡◌, ◌+◌, ◌<◌, ◌≤◌, ◌^◌, IfOk, None, filter, length, slice_get, slice_index};
ghost use Rattle.std.specs.Option.{option_copied, option_map};
ghost use Rattle.std.specs.List.{last_or};
ghost use Rattle.std.specs.FinMap as finmap;
ghost use Rattle.data_model.specs.Deltas.{apply, BeginsAt};
ghost use Rattle.point_sets.specs.DataSets.{entry_of, rest_of, HasKey};
ghost use Rattle.held_index.specs.Holdings.{FitsStructure, part_of, after, before, found_at, look_steps};
ghost use Rattle.held_index.specs.Sums.{sum_over};
ghost use Rattle.held_index.specs.Walks.{point_values};

use crate::place::Place;
use crate::walk::Walk;
use crate::want::{SumOf, Want};
use data_model::POINT_LIMIT;
use data_model::steps::Steps;
use point_sets::{Delta, Key, Point};
use std::alloc::{AllocError, Global};
use std::marker::Model;
use std::sync::Arc;
use std::sync::ledger::Ledger;
use vtl_values::Structure;

/// An operand as an operator wants it. Contracts see what is wanted, and the content, the map from keys to the other
/// values; the points are walked part by part, in each part by the order and then the key. The length of a descent
/// isn't counted, steps are.
pub struct Held {
    walk: Walk,
}

// Written out, so that who drops one calls this and doesn't go through what is in it.
impl Drop for Held {
    fn drop(self) {
        let Held { walk: _ } = self;
    }
}

impl Model for Held {
    ghost use Rattle.std.specs.Prelude.{◌≤◌, length};
    ghost use Rattle.std.specs.FinMap.{from_entries};
    ghost use Rattle.data_model.specs.declared.TheConstants.{POINT_LIMIT};
    ghost use Rattle.held_index.specs.Holdings.{Holding, holding_coded};

    ghost Value = { Holding };

    ghost coded = { holding_coded };

    ghost view = { λ held. record { want = held.walk.want; content = from_entries held.walk.points } };

    ghost invariant = { λ held. length held.walk.points ≤ POINT_LIMIT };
}

/// A held operand as it will be after a delta. Contracts see it as that.
#[derive(Drop)]
pub struct Patch {
    walk: Walk,
}

impl Model for Patch {
    ghost use Rattle.std.specs.Prelude.{◌≤◌, length};
    ghost use Rattle.std.specs.FinMap.{from_entries};
    ghost use Rattle.data_model.specs.declared.TheConstants.{POINT_LIMIT};
    ghost use Rattle.held_index.specs.Holdings.{Holding, holding_coded};

    ghost Value = { Holding };

    ghost coded = { holding_coded };

    ghost view = { λ patch. record { want = patch.walk.want; content = from_entries patch.walk.points } };

    ghost invariant = { λ patch. length patch.walk.points ≤ POINT_LIMIT };
}

impl Held {
    /// An operand without points, of this structure.
    pub fn empty(alloc: Global, want: &Want, _structure: &Structure) -> Result<Held, AllocError>
        requires { FitsStructure want.now _structure.now }
        ensures { IfOk result (λ held. held ≡ record { want = want.now; content = finmap.empty }) }
    {
        Ok(Held {
            walk: Walk::empty(alloc, want)?,
        })
    }

    /// The point that has the key, the part and the order of the given one.
    pub fn get<L: Ledger>(&self, at: &Point, steps: &mut Steps<L>) -> Option<&Arc<Point>>
        ensures value { option_map rest_of (option_copied result) ≡ found_at self.now.want (point_values at.now) self.now.content }
        ensures key { HasKey at.now.key (option_copied result) }
        ensures steps { steps.new ≡ steps.old + look_steps (option_copied result) }
    {
        let from = self.walk.count_up_to(Place::At(at), false);
        let to = self.walk.count_up_to(Place::At(at), true);
        let found = self.walk.nth_between(from, to, 0);
        count_look(found, steps);
        found
    }

    /// The first point of a part.
    pub fn first_in<L: Ledger>(&self, part: &Key, steps: &mut Steps<L>) -> Option<&Arc<Point>>
        ensures found { option_map entry_of (option_copied result) ≡ slice_get (part_of self.now.want part.now self.now.content) 0 }
        ensures steps { steps.new ≡ steps.old + look_steps (option_copied result) }
    {
        self.nth_in(part, 0, steps)
    }

    /// The first point strictly after the given one in its part, whether or not that is held.
    pub fn next<L: Ledger>(&self, at: &Point, steps: &mut Steps<L>) -> Option<&Arc<Point>>
        ensures found { option_map entry_of (option_copied result) ≡ slice_get (after self.now.want (point_values at.now) self.now.content) 0 }
        ensures steps { steps.new ≡ steps.old + look_steps (option_copied result) }
    {
        let from = self.walk.count_up_to(Place::At(at), true);
        let to = self.walk.count_up_to(Place::PartOf(at), true);
        let found = self.walk.nth_between(from, to, 0);
        count_look(found, steps);
        found
    }

    /// The last point strictly before the given one in its part, whether or not that is held.
    pub fn prev<L: Ledger>(&self, at: &Point, steps: &mut Steps<L>) -> Option<&Arc<Point>>
        ensures found { option_map entry_of (option_copied result) ≡ last_or None (before self.now.want (point_values at.now) self.now.content) }
        ensures steps { steps.new ≡ steps.old + look_steps (option_copied result) }
    {
        let from = self.walk.count_up_to(Place::PartOf(at), false);
        let to = self.walk.count_up_to(Place::At(at), false);
        let found = self.walk.last_between(from, to);
        count_look(found, steps);
        found
    }

    /// The point of a part before which n others of it stand.
    pub fn nth_in<L: Ledger>(&self, part: &Key, n: u64, steps: &mut Steps<L>) -> Option<&Arc<Point>>
        ensures found { option_map entry_of (option_copied result) ≡ slice_get (part_of self.now.want part.now self.now.content) n }
        ensures steps { steps.new ≡ steps.old + look_steps (option_copied result) }
    {
        let (from, to) = self.walk.span_of(part);
        let found = self.walk.nth_between(from, to, n);
        count_look(found, steps);
        found
    }

    /// How many points a part has.
    pub fn count_in<L: Ledger>(&self, part: &Key, steps: &mut Steps<L>) -> u64
        ensures count { result ≡ length (part_of self.now.want part.now self.now.content) }
        ensures steps { steps.new ≡ steps.old + 1 }
    {
        steps.tick();
        let (from, to) = self.walk.span_of(part);
        to - from
    }

    /// The exact sum of a summed component over a part, of the values that aren't null, and how many these are.
    pub fn sum_in<L: Ledger>(&self, part: &Key, which: u64, steps: &mut Steps<L>) -> SumOf
        requires { which < length self.now.want.sums }
        ensures sum { result ≡ sum_over (slice_index self.now.want.sums which) (part_of self.now.want part.now self.now.content) }
        ensures steps { steps.new ≡ steps.old + 1 }
    {
        steps.tick();
        let (from, to) = self.walk.span_of(part);
        self.walk.sum_between(which, from, to)
    }

    /// The operand as it will be after a delta. This one stays as it is, and they share what doesn't change.
    pub fn plan(&self, delta: &Delta) -> Result<Patch, AllocError>
        requires begins { BeginsAt delta.now self.now.content }
        requires few { finmap.len (apply delta.now self.now.content) ≤ POINT_LIMIT }
        ensures { IfOk result (λ patch. patch ≡ record self.now { content = apply delta.now self.now.content }) }
    {
        let mut walk = self.walk.copy()?;
        for change in delta.changes() {
            walk = walk.changed(change)?;
        }
        Ok(Patch { walk })
    }

    /// Puts what was planned in place, with the want that it was planned for. It takes no memory.
    pub fn apply(&mut self, patch: Patch)
        ensures { self.new ≡ patch }
    {
        let Patch { walk } = patch;
        self.walk = walk;
    }
}

/// Counts a descent, and one step more where a point is handed out.
fn count_look<L: Ledger>(found: Option<&Arc<Point>>, steps: &mut Steps<L>)
    ensures { steps.new ≡ steps.old + look_steps (option_copied found.entry) }
{
    match found {
        None => steps.tick(),
        Some(_) => {
            steps.tick();
            steps.tick();
        }
    }
}
