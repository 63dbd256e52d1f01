// Parts of keys, and what news make of them.
ghost use Rattle.std.specs.Prelude.{◌≡◌, ◌<◌, ◌++◌, List, [], ◌∷◌, slice_get, unwrap_or, IfOk, OnOk};
ghost use Rattle.std.specs.FinMap as finmap;
ghost use Rattle.vtl_values.specs.declared.value.Value.{Value as V};
ghost use Rattle.vtl_values.specs.declared.value.Value.TheVariants.{Null};
ghost use Rattle.data_model.specs.Deltas as deltas;
ghost use Rattle.point_sets.specs.Changes.{change_entry};
ghost use Rattle.exists_ops.specs.Parts as specs;
ghost use Rattle.exists_ops.specs.Parts.{Entries, AreShifts, key_part};

use point_sets::{Change, Delta, Key};
use std::alloc::{AllocError, Global};
use std::collections::BTreeMap;
use vtl_values::Value;

/// How many points news bring into a part, and how many they take out of it.
#[derive(Clone, Copy, Debug, PartialEq, Eq)]
pub struct Shift {
    pub come: u64,
    pub gone: u64,
}

/// The parts of changes, each with what they make of it.
pub type Shifts = BTreeMap<Key, Shift>;

/// The part of a key.
pub fn part_of(alloc: Global, numbers: &[u64], key: &Key) -> Result<Key, AllocError>
    ensures { IfOk result (λ part. part ≡ key_part numbers.now key.now) }
{
    let mut values = Vec::new(alloc);
    for number in numbers {
        values.push(value_at(key.values(), *number)?)?;
    }
    Key::of(alloc, values)
}

fn value_at(values: &[Value], number: u64) -> Result<Value, AllocError>
    ensures { IfOk result (λ value. value ≡ unwrap_or (slice_get values.now number) Null) }
{
    match values.get(number as usize) {
        Some(value) => value.copy(),
        None => Ok(Value::Null),
    }
}

/// What news make of each part.
pub fn shifts_of(alloc: Global, numbers: &[u64], news: &Delta) -> Result<Shifts, AllocError>
    ensures { IfOk result (AreShifts numbers.now (finmap.entries news.now)) }
{
    let mut shifts = BTreeMap::new(alloc);
    let mut count: u64 = 0;
    for change in news.changes() {
        count += 1;
        add_change(alloc, numbers, count, change, &mut shifts)?;
    }
    Ok(shifts)
}

/// Adds a change, the one of this number from 1, to those of its part.
fn add_change(
    alloc: Global,
    numbers: &[u64],
    number: u64,
    change: &Change,
    shifts: &mut Shifts,
) -> Result<(), AllocError>
    requires few { (part : List V) → ((specs.shift_at shifts.old part).come < number) × ((specs.shift_at shifts.old part).gone < number) }
    ensures { OnOk result ((es : Entries) → AreShifts numbers.now es shifts.old → AreShifts numbers.now (es ++ change_entry change.now ∷ []) shifts.new) }
{
    let (comes, goes) = (is_gain(change), is_loss(change));
    if !comes && !goes {
        return Ok(());
    }
    let part = part_of(alloc, numbers, &change.key)?;
    let shift = shift_at(shifts, &part);
    let shift = Shift {
        come: shift.come + u64::from(comes),
        gone: shift.gone + u64::from(goes),
    };
    shifts.insert(part, shift)?;
    Ok(())
}

fn is_gain(change: &Change) -> bool
    ensures { result ≡ deltas.is_gain (change_entry change.now).1 }
{
    change.old.is_none() && change.new.is_some()
}

fn is_loss(change: &Change) -> bool
    ensures { result ≡ deltas.is_loss (change_entry change.now).1 }
{
    change.old.is_some() && change.new.is_none()
}

/// What is kept of a part.
pub fn shift_at(shifts: &Shifts, part: &Key) -> Shift
    ensures { result ≡ specs.shift_at shifts.now part.now }
{
    match shifts.get(part) {
        Some(shift) => *shift,
        None => Shift { come: 0, gone: 0 },
    }
}
