// What changes of the operands make of the result.
ghost use Rattle.std.specs.Prelude.{◌≡◌, ◌+◌, ◌*◌, ◌≤◌, ◌++◌, List, [], OnOk, length};
ghost use Rattle.std.specs.Option.{option_copied};
ghost use Rattle.std.specs.FinMap as finmap;
ghost use Rattle.vtl_values.specs.declared.value.Value.{Value as V};
ghost use Rattle.point_sets.specs.DataSets.{HasKey};
ghost use Rattle.point_sets.specs.Changes.{Changes, values_of, IsChange};
ghost use Rattle.held_index.specs.Holdings.{Holding, part_of as points_of};
ghost use Rattle.operator_meaning.specs.exists.Exists.{ExistsOn};
ghost use Rattle.exists_ops.specs.Parts.{AreShifts, has_part, has_part_after, left_numbers, right_numbers, key_part};
ghost use Rattle.exists_ops.specs.Noted.{noted_at, differ, IsFor, IsMetIn, IsNoted};
ghost use Rattle.exists_ops.specs.Walked.{met_in, keys_in, walked, cost};

use crate::parts::{Shift, Shifts, part_of, shift_at};
use crate::told::Told;
use data_model::steps::Steps;
use held_index::{Draft, Held};
use point_sets::{Change, Delta, Key, Point};
use std::alloc::{AllocError, Global};
use std::sync::Arc;
use std::sync::ledger::Ledger;

/// Whether the second operand had a point in a part, and whether it has one.
#[derive(Clone, Copy, Debug, PartialEq, Eq)]
pub struct Met {
    pub was: bool,
    pub is: bool,
}

impl Met {
    /// Of a part of the second operand, which so many points come into and leave.
    fn of<L: Ledger>(right: &Held, part: &Key, shift: Shift, steps: &mut Steps<L>) -> Met
        ensures was { result.was ≡ has_part right.now.want right.now.content part.now }
        ensures is { result.is ≡ has_part_after right.now.want right.now.content part.now shift }
        ensures steps { steps.new ≡ steps.old + 1 }
    {
        let count = right.count_in(part, steps);
        Met {
            was: count > 0,
            is: u128::from(shift.gone) < u128::from(count) + u128::from(shift.come),
        }
    }

    fn turns(self) -> bool
        ensures { result ≡ differ self.was self.is }
    {
        if self.was { !self.is } else { self.is }
    }
}

/// Notes what the result had and has at the keys at which the first operand changes. Each change takes one look.
pub fn note_changes<L: Ledger>(
    alloc: Global,
    told: &Told,
    numbers: &[u64],
    own: &Delta,
    right: &Held,
    shifts: &Shifts,
    draft: &mut Draft,
    steps: &mut Steps<L>,
) -> Result<(), AllocError>
    ensures noted { OnOk result ((e : ExistsOn) (a : Holding) (f : Changes) → IsFor e told.now a right.now own.now f →
        numbers.now ≡ left_numbers e → AreShifts (right_numbers e) (finmap.entries f) shifts.now →
        IsNoted e a.content right.now.content own.now f [] draft.old →
        IsNoted e a.content right.now.content own.now f (finmap.keys own.now) draft.new) }
    ensures steps { steps.new ≤ steps.old + finmap.len own.now }
{
    for change in own.changes() {
        note_change(alloc, told, numbers, change, right, shifts, draft, steps)?;
    }
    Ok(())
}

fn note_change<L: Ledger>(
    alloc: Global,
    told: &Told,
    numbers: &[u64],
    change: &Change,
    right: &Held,
    shifts: &Shifts,
    draft: &mut Draft,
    steps: &mut Steps<L>,
) -> Result<(), AllocError>
    requires { IsChange change.now }
    ensures noted { OnOk result (draft.new ≡ noted_at told.now (met_in right.now shifts.now (key_part numbers.now change.now.key)) change.now.key (values_of change.now.old) (values_of change.now.new) draft.old) }
    ensures steps { steps.new ≤ steps.old + 1 }
{
    let part = part_of(alloc, numbers, &change.key)?;
    let met = Met::of(right, &part, shift_at(shifts, &part), steps);
    let (old, new) = (change.old.as_ref(), change.new.as_ref());
    note_at(alloc, told, met, &change.key, old, new, draft)
}

/// Notes what is told at a key, of the points of the first operand that were there and come there.
fn note_at(
    alloc: Global,
    told: &Told,
    met: Met,
    key: &Key,
    old: Option<&Arc<Point>>,
    new: Option<&Arc<Point>>,
    draft: &mut Draft,
) -> Result<(), AllocError>
    requires old { HasKey key.now (option_copied old) }
    requires new { HasKey key.now (option_copied new) }
    ensures { OnOk result (draft.new ≡ noted_at told.now met key.now (values_of (option_copied old.entry)) (values_of (option_copied new.entry)) draft.old) }
{
    let old = told.of_point(alloc, met.was, old)?;
    let new = told.of_point(alloc, met.is, new)?;
    let key = key.copy()?;
    draft.note(Change { key, old, new })
}

/// Notes what the result had and has at the keys of all points that the first operand holds in parts which the first
/// point of the second one comes into, or its last one leaves.
pub fn note_parts<L: Ledger>(
    alloc: Global,
    told: &Told,
    left: &Held,
    own: &Delta,
    right: &Held,
    mut shifts: Shifts,
    draft: &mut Draft,
    steps: &mut Steps<L>,
) -> Result<(), AllocError>
    ensures noted { OnOk result ((e : ExistsOn) (f : Changes) → IsFor e told.now left.now right.now own.now f →
        AreShifts (right_numbers e) (finmap.entries f) shifts → (ks : List (List V)) →
        IsNoted e left.now.content right.now.content own.now f ks draft.old →
        IsNoted e left.now.content right.now.content own.now f (ks ++ walked left.now right.now shifts.entries) draft.new) }
    ensures steps { steps.new ≤ steps.old + cost left.now shifts.entries }
{
    while let Some((part, shift)) = shifts.pop_first() {
        let met = Met::of(right, &part, shift, steps);
        if met.turns() {
            note_part(alloc, told, met, left, own, &part, draft, steps)?;
        }
    }
    Ok(())
}

/// Notes what the result had and has at the keys of all points that the first operand holds in a part.
fn note_part<L: Ledger>(
    alloc: Global,
    told: &Told,
    met: Met,
    left: &Held,
    own: &Delta,
    part: &Key,
    draft: &mut Draft,
    steps: &mut Steps<L>,
) -> Result<(), AllocError>
    ensures noted { OnOk result ((e : ExistsOn) (b : Holding) (f : Changes) → IsFor e told.now left.now b own.now f →
        IsMetIn e b.content f part.now met → (ks : List (List V)) →
        IsNoted e left.now.content b.content own.now f ks draft.old →
        IsNoted e left.now.content b.content own.now f (ks ++ keys_in left.now part.now) draft.new) }
    ensures steps { steps.new ≤ steps.old + 1 + 2 * length (points_of left.now.want part.now left.now.content) }
{
    let count = left.count_in(part, steps);
    for n in 0..count {
        if let Some(point) = left.nth_in(part, n, steps) {
            let key = &point.key;
            let after = own.point_after(key, Some(point));
            note_at(alloc, told, met, key, Some(point), after, draft)?;
        }
    }
    Ok(())
}
