// What the rows of a data set come to.
ghost use Rattle.std.specs.Prelude.{◌≡◌, ◌+◌, ◌-◌, ◌<◌, ◌≤◌, ◌^◌, Some, length, is_some, IfOk, IfErr, OnOk};
ghost use Rattle.std.specs.FinMap as finmap;
ghost use Rattle.data_model.specs.Deltas.{Leads};
ghost use Rattle.point_sets.specs.DataSets.{DataSet, HasKey};
ghost use Rattle.point_sets.specs.Changes.{values_of};
ghost use Rattle.revision_judge.specs.Rows.{Progress, Put, Remove, at_first, in_new_part, granted, refused_at, row_judged, rows_judged};
ghost use Rattle.revision_judge.specs.Tallies.{IsTally, IsOfRows, AnswersRow, AnswersRows, AddsKey, StopsAtKey, with_point};

use crate::cause::Cause;
use crate::fields::{key_fields, key_in, rest_in};
use crate::ruling::Refusal;
use crate::stop::RowStop;
use data_model::POINT_LIMIT;
use point_sets::{Action, Change, Delta, Key, Notes, Point, PointSet, RawRow};
use sqlite_items::Items;
use std::alloc::{AllocError, Global};
use std::collections::BTreeSet;
use std::sync::Arc;
use vtl_values::Component;

/// What the rows so far come to: their keys, how many points there are after them, and what changes of the data set.
#[derive(Drop)]
pub struct Tally {
    keys: BTreeSet<Key>,
    points: u64,
    notes: Notes,
}

impl Tally {
    /// No rows, on a data set of so many points.
    pub fn new(alloc: Global, points: u64) -> Tally
        ensures { (before : DataSet) → finmap.len before ≡ points → points ≤ POINT_LIMIT → IsTally before result (at_first before) }
    {
        Tally {
            keys: BTreeSet::new(alloc),
            points,
            notes: Notes::new(alloc),
        }
    }

    /// A row that puts a point in.
    fn put(&mut self, alloc: Global, set: &PointSet, point: Point) -> Result<(), RowStop>
        requires { IsOfRows set.now self.old }
        ensures { (p : Progress) → IsTally set.now self.old p → AnswersRow set.now self.new (granted p (Put point.key point.rest)) result }
    {
        see(&mut self.keys, &point.key)?;
        let old = point_at(set, &point.key)?;
        let points = with_point(self.points, &old)?;
        let change = change_to(alloc, old, point)?;
        self.notes.note(change)?;
        self.points = points;
        Ok(())
    }

    /// A row that takes the point of a key away.
    fn remove(&mut self, alloc: Global, set: &PointSet, key: Key) -> Result<(), RowStop>
        requires { IsOfRows set.now self.old }
        ensures { (p : Progress) → IsTally set.now self.old p → AnswersRow set.now self.new (granted p (Remove key)) result }
    {
        see(&mut self.keys, &key)?;
        let old = point_at(set, &key)?;
        if old.is_none() {
            return Err(RowStop::Refused(Cause::NoSuchPoint));
        }
        let new = None;
        self.notes.note(Change { key, old, new })?;
        self.points -= 1;
        Ok(())
    }

    /// A row more.
    fn take_row(
        &mut self,
        alloc: Global,
        components: &[Component],
        set: &PointSet,
        row: &RawRow,
    ) -> Result<(), RowStop>
        requires { IsOfRows set.now self.old }
        ensures { (p : Progress) → IsTally set.now self.old p → AnswersRow set.now self.new (row_judged components.now p row.now) result }
    {
        let fields = row.fields.as_slice();
        let key = Key::of(alloc, key_in(alloc, components, fields)?)?;
        match row.action {
            Action::Put => {
                let rest = Items::from_vec(rest_in(alloc, components, fields)?);
                self.put(alloc, set, Point { key, rest })
            }
            Action::Remove => self.remove(alloc, set, key),
        }
    }

    /// The rows of a further part, whose number is `part`, and the refusal for the first of them that has a cause.
    pub fn take_rows(
        &mut self,
        alloc: Global,
        components: &[Component],
        set: &PointSet,
        part: u64,
        rows: &[RawRow],
    ) -> Result<Option<Refusal>, AllocError>
        requires { IsOfRows set.now self.old }
        ensures { IfOk result (λ told. (p : Progress) → IsTally set.now self.old p → AnswersRows set.now self.new (rows_judged components.now part (in_new_part p) rows.now) told) }
    {
        for (n, row) in rows.iter().enumerate() {
            match self.take_row(alloc, components, set, row) {
                Ok(()) => {}
                Err(RowStop::Refused(cause)) => {
                    return Ok(Some(refusal(alloc, components, part, n, row, cause)?));
                }
                Err(RowStop::Memory) => return Err(AllocError),
            }
        }
        Ok(None)
    }

    /// The delta from the data set to the one after the rows.
    pub fn finish(self, alloc: Global) -> Result<Delta, AllocError>
        ensures { IfOk result (λ delta. (before : DataSet) (p : Progress) → IsTally before self p → Leads delta before p.set) }
    {
        let Tally {
            keys: _,
            points: _,
            notes,
        } = self;
        notes.finish(alloc)
    }
}

/// Adds a key, unless it is there.
fn see(keys: &mut BTreeSet<Key>, key: &Key) -> Result<(), RowStop>
    ensures ok { OnOk result (AddsKey keys.old keys.new key.now) }
    ensures err { IfErr result (StopsAtKey keys.old key.now) }
{
    if keys.contains(key) {
        return Err(RowStop::Refused(Cause::KeyTwice));
    }
    keys.insert(key.copy()?)?;
    Ok(())
}

/// The point of a key, if there is one.
fn point_at(set: &PointSet, key: &Key) -> Result<Option<Arc<Point>>, AllocError>
    ensures value { IfOk result (λ point. values_of point ≡ finmap.get set.now key.now) }
    ensures key { IfOk result (HasKey key.now) }
{
    match set.get(key) {
        None => Ok(None),
        Some(point) => Ok(Some(point.clone()?)),
    }
}

/// How many points there are after one is put in place of the old one, which may be none.
fn with_point(points: u64, old: &Option<Arc<Point>>) -> Result<u64, Cause>
    requires { points ≤ POINT_LIMIT }
    ensures ok { IfOk result (λ after. after ≡ with_point (is_some old.now) points) }
    ensures few { IfOk result (λ after. after ≤ POINT_LIMIT) }
    ensures err { IfErr result (λ cause. cause ≡ Cause.SetFull) }
    ensures many { IfErr result (λ _. POINT_LIMIT < with_point (is_some old.now) points) }
{
    match old {
        Some(_) => Ok(points),
        None if points < POINT_LIMIT => Ok(points + 1),
        None => Err(Cause::SetFull),
    }
}

/// The change at a point's key from what was there to the point.
fn change_to(alloc: Global, old: Option<Arc<Point>>, point: Point) -> Result<Change, AllocError>
    ensures key { IfOk result (λ change. change.key ≡ point.key) }
    ensures old { IfOk result (λ change. change.old ≡ old) }
    ensures new { IfOk result (λ change. values_of change.new ≡ Some point.rest) }
    ensures new_key { IfOk result (λ change. HasKey point.key change.new) }
{
    let key = point.key.copy()?;
    let new = Some(Arc::new(alloc, point)?);
    Ok(Change { key, old, new })
}

/// The refusal for the row of a part after n others.
fn refusal(
    alloc: Global,
    components: &[Component],
    part: u64,
    n: usize,
    row: &RawRow,
    cause: Cause,
) -> Result<Refusal, AllocError>
    requires { n < 2 ^ 64 - 1 }
    ensures { IfOk result (λ refusal. (p : Progress) → p.rows ≡ n → refusal ≡ refused_at components.now part p row.now cause) }
{
    Ok(Refusal {
        part,
        row: n as u64 + 1,
        key: key_fields(alloc, components, row.fields.as_slice())?,
        cause,
    })
}
