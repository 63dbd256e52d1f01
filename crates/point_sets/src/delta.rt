// Deltas of data sets.
ghost use Rattle.std.specs.Prelude.{◌≡◌, ◌≤◌, ◌++◌, ◌&&◌, map, length, count_by, is_some, is_none, IfOk, OnOk, IfSome};
ghost use Rattle.std.specs.Option.{option_copied, option_eq, option_map};
ghost use Rattle.std.specs.List.{All};
ghost use Rattle.std.specs.FinMap as finmap;
ghost use Rattle.data_model.specs.Deltas.{Differs, Leads, after, composed, count_after};
ghost use Rattle.vtl_values.specs.Order.{key_cmp};
ghost use Rattle.point_sets.specs.DataSets.{DataSet, HasKey};
ghost use Rattle.point_sets.specs.Changes.{values_eq, values_of, change_entry, of_changes, entry_at, joined, IsChange, AreChanges, IsSamePoint};
ghost use Rattle.point_sets.specs.Places.{below, above};

use crate::key::Key;
use crate::point::Point;
use data_model::POINT_LIMIT;
use std::alloc::{AllocError, Global};
use std::cmp::Ordering;
use std::marker::Model;
use std::sync::Arc;

/// What a key had, and what it has. `None` stands where there is no point.
#[derive(Debug, Drop)]
pub struct Change {
    pub key: Key,
    pub old: Option<Arc<Point>>,
    pub new: Option<Arc<Point>>,
}

/// The changes that lead from one data set to another, in the order of their keys. Contracts see it as the map from
/// keys to the values before and after; they differ in each change, and each point has its change's key.
#[derive(Debug)]
pub struct Delta {
    changes: Vec<Change>,
}

// Written out, so that who drops one calls this and doesn't go through what is in it.
impl Drop for Delta {
    fn drop(self) {
        let Delta { changes: _ } = self;
    }
}

impl Model for Delta {
    ghost use Rattle.point_sets.specs.Changes.{Changes, changes_coded, of_changes, AreChanges};

    ghost Value = { Changes };

    ghost coded = { changes_coded };

    ghost view = { λ delta. of_changes delta.changes.items };

    ghost invariant = { λ delta. AreChanges delta.changes.items };
}

impl Delta {
    /// The delta of these changes, which stand in the order of their keys.
    pub fn of(changes: Vec<Change>) -> Delta
        requires { AreChanges changes.items }
        ensures { result ≡ of_changes changes.items }
    {
        Delta { changes }
    }

    /// The changes, in the order of their keys.
    pub fn changes(&self) -> &[Change]
        ensures entries { map change_entry result.now ≡ finmap.entries self.now }
        ensures changes { AreChanges result.now }
        ensures differs { Differs self.now }
    {
        self.changes.as_slice()
    }

    /// The point that a key has after the delta, where the one that it had is given.
    pub fn point_after<'a>(
        &'a self,
        key: &Key,
        before: Option<&'a Arc<Point>>,
    ) -> Option<&'a Arc<Point>>
        ensures value { values_of (option_copied result) ≡ after (finmap.get self.now key.now) (values_of (option_copied before.entry)) }
        ensures key { HasKey key.now (option_copied before.entry) → HasKey key.now (option_copied result) }
    {
        let changes = self.changes();
        match changes.binary_search_by(|change| change.key.cmp(key)) {
            Ok(place) => changes[place].new.as_ref(),
            Err(_) => before,
        }
    }

    /// How many points there are after the delta, of so many before.
    pub fn count_after(&self, before: u64) -> u64
        requires { before ≤ POINT_LIMIT }
        ensures { result ≡ count_after before self.now }
    {
        let changes = self.changes();
        let most = before + gains(changes);
        most.saturating_sub(losses(changes))
    }
}

/// How many points the changes bring.
fn gains(changes: &[Change]) -> u64
    ensures value { result ≡ count_by (λ c. is_none c.old && is_some c.new) changes.now }
    ensures few { result ≤ length changes.now }
{
    let mut count: u64 = 0;
    for change in changes {
        if change.old.is_none() && change.new.is_some() {
            count += 1;
        }
    }
    count
}

/// How many points the changes take away.
fn losses(changes: &[Change]) -> u64
    ensures { result ≡ count_by (λ c. is_some c.old && is_none c.new) changes.now }
{
    let mut count: u64 = 0;
    for change in changes {
        if change.old.is_some() && change.new.is_none() {
            count += 1;
        }
    }
    count
}

/// One delta for two, of which the second begins where the first one ends. A key that comes back to its point isn't
/// in it. Both lists are gone through once.
pub fn compose(alloc: Global, first: &Delta, then: &Delta) -> Result<Delta, AllocError>
    ensures composed { IfOk result (λ delta. delta ≡ composed values_eq first.now then.now) }
    ensures leads { IfOk result (λ delta. (l m n : DataSet) → Leads first.now l m → Leads then.now m n → Leads delta l n) }
{
    Ok(Delta {
        changes: composed_changes(alloc, first.changes(), then.changes())?,
    })
}

fn composed_changes(
    alloc: Global,
    first: &[Change],
    then: &[Change],
) -> Result<Vec<Change>, AllocError>
    requires first { AreChanges first.now }
    requires then { AreChanges then.now }
    ensures changes { IfOk result (λ changes. AreChanges changes.items) }
    ensures composed { IfOk result (λ changes. of_changes changes.items ≡ composed values_eq (of_changes first.now) (of_changes then.now)) }
{
    let mut all = Vec::new(alloc);
    let mut rest = then;
    for change in first {
        let (next, later) = push_below(&mut all, rest, &change.key)?;
        push_composed(&mut all, change, next)?;
        rest = later;
    }
    push_all(&mut all, rest)?;
    Ok(all)
}

/// Adds the changes whose keys are below a key, and answers the one at the key, if there is one, and those above.
fn push_below<'a>(
    all: &mut Vec<Change>,
    changes: &'a [Change],
    key: &Key,
) -> Result<(Option<&'a Change>, &'a [Change]), AllocError>
    requires changes { AreChanges changes.now }
    requires all { All IsChange all.old.items }
    ensures pushed { OnOk result (map change_entry all.new.items ≡ map change_entry all.old.items ++ below key_cmp key.now (map change_entry changes.now)) }
    ensures all { OnOk result (All IsChange all.new.items) }
    ensures found { IfOk result (λ parts. option_map (λ c. (change_entry c).1) (option_copied parts.0) ≡ finmap.find key_cmp key.now (map change_entry changes.now)) }
    ensures is_change { IfOk result (λ parts. IfSome (option_copied parts.0) (λ c. IsChange c × (c.key ≡ key.now))) }
    ensures rest { IfOk result (λ parts. map change_entry parts.1.now ≡ above key_cmp key.now (map change_entry changes.now)) }
    ensures are_changes { IfOk result (λ parts. AreChanges parts.1.now) }
{
    let mut rest = changes;
    while let Some((change, later)) = rest.split_first() {
        match change.key.cmp(key) {
            Ordering::Less => all.push(copy_change(change)?)?,
            Ordering::Equal => return Ok((Some(change), later)),
            Ordering::Greater => return Ok((None, rest)),
        }
        rest = later;
    }
    Ok((None, rest))
}

/// Adds one change for the two, if they don't come back to the old point.
fn push_composed(
    all: &mut Vec<Change>,
    change: &Change,
    next: Option<&Change>,
) -> Result<(), AllocError>
    requires change { IsChange change.now }
    requires next { IfSome (option_copied next) (λ c. IsChange c × (c.key ≡ change.now.key)) }
    requires all { All IsChange all.old.items }
    ensures pushed { OnOk result (map change_entry all.new.items ≡ map change_entry all.old.items ++ entry_at change.now.key (joined values_eq (change_entry change.now).1 (option_map (λ c. (change_entry c).1) (option_copied next.entry)))) }
    ensures all { OnOk result (All IsChange all.new.items) }
{
    let Some(next) = next else {
        all.push(copy_change(change)?)?;
        return Ok(());
    };
    if !have_same_values(&change.old, &next.new) {
        all.push(Change {
            key: change.key.copy()?,
            old: copy_point(&change.old)?,
            new: copy_point(&next.new)?,
        })?;
    }
    Ok(())
}

fn push_all(all: &mut Vec<Change>, changes: &[Change]) -> Result<(), AllocError>
    requires changes { All IsChange changes.now }
    requires all { All IsChange all.old.items }
    ensures pushed { OnOk result (map change_entry all.new.items ≡ map change_entry all.old.items ++ map change_entry changes.now) }
    ensures all { OnOk result (All IsChange all.new.items) }
{
    for change in changes {
        all.push(copy_change(change)?)?;
    }
    Ok(())
}

fn copy_change(change: &Change) -> Result<Change, AllocError>
    ensures key { IfOk result (λ copied. copied.key ≡ change.now.key) }
    ensures old { IfOk result (λ copied. IsSamePoint change.now.old copied.old) }
    ensures new { IfOk result (λ copied. IsSamePoint change.now.new copied.new) }
{
    Ok(Change {
        key: change.key.copy()?,
        old: copy_point(&change.old)?,
        new: copy_point(&change.new)?,
    })
}

fn copy_point(point: &Option<Arc<Point>>) -> Result<Option<Arc<Point>>, AllocError>
    ensures { IfOk result (λ copied. IsSamePoint point.now copied) }
{
    match point {
        None => Ok(None),
        Some(point) => Ok(Some(point.clone()?)),
    }
}

/// Whether two places have points with the same values, or none.
pub fn have_same_values(one: &Option<Arc<Point>>, other: &Option<Arc<Point>>) -> bool
    ensures { result ≡ option_eq values_eq (values_of one.now) (values_of other.now) }
{
    match (one, other) {
        (None, None) => true,
        (Some(one), Some(other)) => one.rest.as_slice().cmp(&other.rest.as_slice()).is_eq(),
        _ => false,
    }
}
