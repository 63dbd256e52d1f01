// Values in another order.
ghost use Rattle.std.specs.Prelude.{◌≡◌, List, true, length, IfOk, slice_get};
ghost use Rattle.std.specs.Option.{option_copied};
ghost use Rattle.std.specs.List.{position};
ghost use Rattle.vtl_values.specs.declared.value.Value.{Value as V};
ghost use Rattle.clause_meaning.specs.Clauses.{values_at};
ghost use Rattle.data_set_trees.specs.Components.{has_name};
ghost use Rattle.set_ops.specs.Orders.{numbers_between, AreInPlace};

use point_sets::Key;
use sqlite_items::Items;
use std::alloc::{AllocError, Global};
use std::marker::Model;
use vtl_values::{Component, Value};

/// An order into which values are put. Contracts see the numbers of the values in their old order.
#[derive(Drop)]
pub struct Order {
    numbers: Items<u64>,
    in_place: bool,
}

impl Model for Order {
    ghost use Rattle.std.specs.Prelude.{ℕ, List, IsTrue};
    ghost use Rattle.set_ops.specs.Orders.{AreInPlace};

    ghost Value = { List ℕ };

    ghost view = { λ o. o.numbers };

    ghost invariant = { λ o. IsTrue o.in_place → AreInPlace o.numbers };
}

/// The number of the first component of that name.
fn number_of(components: &[Component], named: &Component) -> Option<usize>
    ensures { result ≡ position (has_name named.now.name) components.now }
{
    components
        .iter()
        .position(|component| named.name == component.name)
}

fn numbers_between(
    alloc: Global,
    from: &[Component],
    to: &[Component],
) -> Result<Items<u64>, AllocError>
    ensures { IfOk result (λ numbers. numbers ≡ numbers_between from.now to.now) }
{
    let mut numbers = Vec::new(alloc);
    for component in to {
        if let Some(number) = number_of(from, component) {
            numbers.push(number as u64)?;
        }
    }
    Ok(Items::from_vec(numbers))
}

/// Whether each number stands in its own place.
fn are_in_place(numbers: &[u64]) -> bool
    ensures { result ≡ true → AreInPlace numbers.now }
{
    for (i, number) in numbers.iter().enumerate() {
        if *number != i as u64 {
            return false;
        }
    }
    true
}

fn value_at(values: &[Value], number: u64) -> Option<&Value>
    ensures { option_copied result ≡ slice_get values.now number }
{
    values.get(number as usize)
}

impl Order {
    /// The order of some components, for values of components of the same names.
    pub fn between(alloc: Global, from: &[Component], to: &[Component]) -> Result<Order, AllocError>
        ensures { IfOk result (λ order. order ≡ numbers_between from.now to.now) }
    {
        let numbers = numbers_between(alloc, from, to)?;
        let in_place = are_in_place(numbers.as_slice());
        Ok(Order { numbers, in_place })
    }

    /// Whether so many values stay as they are.
    pub fn keeps(&self, len: usize) -> bool
        ensures { result ≡ true → (values : List V) → length values ≡ len → values_at self.now values ≡ values }
    {
        self.in_place && self.numbers.len() == len
    }

    /// Values in this order.
    pub fn put(&self, alloc: Global, values: &[Value]) -> Result<Vec<Value>, AllocError>
        ensures { IfOk result (λ put. put.items ≡ values_at self.now values.now) }
    {
        let mut put = Vec::new(alloc);
        for number in self.numbers.as_slice() {
            if let Some(value) = value_at(values, *number) {
                put.push(value.copy()?)?;
            }
        }
        Ok(put)
    }

    /// A key in this order. Where it stays as it is it is shared.
    pub fn put_key(&self, alloc: Global, key: &Key) -> Result<Key, AllocError>
        ensures { IfOk result (λ put. put ≡ values_at self.now key.now) }
    {
        if self.keeps(key.values().len()) {
            return key.copy();
        }
        Key::of(alloc, self.put(alloc, key.values())?)
    }
}
