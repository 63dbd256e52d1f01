// Operands that are held, and their deltas.
ghost use Rattle.std.specs.Prelude.{◌≡◌, IsTrue, IfOk, OnOk};
ghost use Rattle.data_model.specs.Deltas.{BeginsAt};
ghost use Rattle.point_sets.specs.DataSets.{HasKey};
ghost use Rattle.point_sets.specs.Changes.{values_of};
ghost use Rattle.std.specs.FinMap as finmap;
ghost use Rattle.held_index.specs.Holdings.{FitsStructure, IsNumeric};
ghost use Rattle.value_cases.specs.Operands.{IsOperand};

use crate::held::points::{key_of, point_of, rows_in};
use anyhow::{Result, bail};
use data_model::POINT_LIMIT;
use held_index::{Held, Want};
use point_sets::{Change, Delta, Key, Notes, Point, PointSet};
use std::alloc::Global;
use std::sync::Arc;
use vtl_values::{Component, Kind, Structure};

/// A data set and what is held of it. The set tells what stands at a key before a delta.
#[derive(Drop)]
pub struct Operand {
    pub structure: Structure,
    pub want: Want,
    pub set: PointSet,
    pub held: Held,
}

fn is_numeric(kind: Kind) -> bool
    ensures { IsTrue result → IsNumeric kind }
{
    match kind {
        Kind::Integer | Kind::Number => true,
        Kind::Text | Kind::Truth => false,
    }
}

// Whether the components that are wanted are there, and those that are summed are numbers.
fn fits(want: &Want, components: &[Component]) -> bool
    ensures { IsTrue result → FitsStructure want.now components.now }
{
    let count = components.len() as u64;
    want.part.as_slice().iter().all(|number| *number < count)
        && want
            .order
            .as_slice()
            .iter()
            .all(|item| item.component < count)
        && want
            .sums
            .as_slice()
            .iter()
            .all(|number| match components.get(*number as usize) {
                None => false,
                Some(component) => is_numeric(component.kind),
            })
}

// The point of a key, if there is one.
fn point_at(set: &PointSet, key: &Key) -> Result<Option<Arc<Point>>>
    ensures value { IfOk result (λ point. values_of point ≡ finmap.get set.now key.now) }
    ensures key { IfOk result (HasKey key.now) }
{
    match set.get(key) {
        None => Ok(None),
        Some(point) => Ok(Some(point.clone()?)),
    }
}

// Notes a change from what the set has at a key.
fn note(notes: &mut Notes, set: &PointSet, change: Change) -> Result<()>
    requires begins { BeginsAt notes.old set.now }
    requires was { values_of change.old ≡ finmap.get set.now change.key }
    requires old { HasKey change.key change.old }
    requires new { HasKey change.key change.new }
    ensures { OnOk result (BeginsAt notes.new set.now) }
{
    notes.note(change)?;
    Ok(())
}

// Notes what a row changes.
fn note_row(
    alloc: Global,
    components: &[Component],
    set: &PointSet,
    notes: &mut Notes,
    row: &str,
) -> Result<()>
    requires { BeginsAt notes.old set.now }
    ensures { OnOk result (BeginsAt notes.new set.now) }
{
    if let Some(fields) = row.strip_prefix('+') {
        let point = point_of(alloc, components, fields)?;
        let key = point.key.copy()?;
        let old = point_at(set, &key)?;
        let new = Some(Arc::new(alloc, point)?);
        return note(notes, set, Change { key, old, new });
    }
    let Some(fields) = row.strip_prefix('-') else {
        bail!("no row {row}");
    };
    let key = key_of(alloc, components, fields)?;
    let old = point_at(set, &key)?;
    let new = None;
    note(notes, set, Change { key, old, new })
}

// The delta of the rows between blanks.
fn delta_of(alloc: Global, components: &[Component], set: &PointSet, rows: &str) -> Result<Delta>
    ensures { IfOk result (λ delta. BeginsAt delta set.now) }
{
    let listed = rows_in(alloc, rows)?;
    let mut notes = Notes::new(alloc);
    for row in listed.as_slice() {
        note_row(alloc, components, set, &mut notes, row.as_str())?;
    }
    let delta = notes.finish(alloc)?;
    Ok(delta)
}

impl Operand {
    /// An operand without points, of which this is wanted.
    pub fn empty(alloc: Global, want: Want, structure: Structure) -> Result<Operand>
        ensures { IfOk result IsOperand }
    {
        if !fits(&want, structure.components()) {
            bail!("a want that doesn't fit");
        }
        let held = Held::empty(alloc, &want, &structure)?;
        Ok(Operand {
            structure,
            want,
            set: PointSet::new(alloc),
            held,
        })
    }

    /// Plans the delta of these rows and applies it. Tells how many points there are after it.
    pub fn change(&mut self, alloc: Global, rows: &str) -> Result<String>
        requires { IsOperand self.old }
        ensures { IsOperand self.new }
    {
        let delta = delta_of(alloc, self.structure.components(), &self.set, rows)?;
        let mut after = self.set.copy()?;
        after.apply(&delta)?;
        let count = after.count();
        if count > POINT_LIMIT {
            bail!("too many points");
        }
        let patch = self.held.plan(&delta)?;
        self.held.apply(patch);
        self.set = after;
        Ok(format!(in alloc; "points {count}")?)
    }
}
