// Frames, and parts of them.
ghost use Rattle.std.specs.Prelude.{◌≡◌, ℕ, [], filter_map, option_map, position, nat_eq, slice_get, IfOk};
ghost use Rattle.indexmap.specs.IndexMap.{get};
ghost use Rattle.data_set_trees.specs.clauses.Frames as meant;

use data_set_trees::clauses::Frame;
use indexmap::IndexMap;
use operator_typing::{columns_of, names_of};
use scalar_trees::typing::{Column, Scope, ScopeName};
use sqlite_items::Items;
use std::alloc::{AllocError, Global};
use vtl_values::{Component, Word};

fn copy_alias(alias: &Option<Word>) -> Result<Option<Word>, AllocError>
    ensures { IfOk result (λ copy. copy ≡ alias.now) }
{
    match alias {
        Some(alias) => Ok(Some(alias.copy()?)),
        None => Ok(None),
    }
}

/// The same name, of the component with this number.
pub(crate) fn copy_name(name: &ScopeName, number: u64) -> Result<ScopeName, AllocError>
    ensures { IfOk result (λ copy. copy ≡ record name.now { number = number }) }
{
    Ok(ScopeName {
        alias: copy_alias(&name.alias)?,
        name: name.name.copy()?,
        number,
    })
}

pub(crate) fn copy_names(alloc: Global, names: &[ScopeName]) -> Result<Items<ScopeName>, AllocError>
    ensures { IfOk result (λ copy. copy ≡ names.now) }
{
    let mut copy = Items::new(alloc);
    for name in names {
        copy.push(copy_name(name, name.number)?)?;
    }
    Ok(copy)
}

fn copy_components(alloc: Global, components: &[Component]) -> Result<Items<Component>, AllocError>
    ensures { IfOk result (λ copy. copy ≡ components.now) }
{
    let mut copy = Items::new(alloc);
    for component in components {
        copy.push(component.copy()?)?;
    }
    Ok(copy)
}

/// An equal frame, or want of memory.
pub(crate) fn copy_frame(alloc: Global, frame: &Frame) -> Result<Frame, AllocError>
    ensures { IfOk result (λ copy. copy ≡ frame.now) }
{
    Ok(Frame {
        names: copy_names(alloc, frame.names.as_slice())?,
        components: copy_components(alloc, frame.components.as_slice())?,
    })
}

/// What a clause on a data set works on: its components, each under its bare name. Or want of memory. It costs their
/// number.
pub fn frame_of(alloc: Global, components: &[Component]) -> Result<Frame, AllocError>
    ensures { IfOk result (λ frame. frame ≡ meant.frame_of components.now) }
{
    Ok(Frame {
        names: names_of(alloc, components)?,
        components: copy_components(alloc, components)?,
    })
}

/// Components under no names, for what goes by the components alone. Or want of memory.
pub(crate) fn nameless(alloc: Global, components: &[Component]) -> Result<Frame, AllocError>
    ensures { IfOk result (λ frame. frame ≡ record { names = []; components = components.now }) }
{
    Ok(Frame {
        names: Items::new(alloc),
        components: copy_components(alloc, components)?,
    })
}

/// What names stand for in the expressions of a clause on this frame, or want of memory. It costs the number of names and
/// components.
pub fn scope_of_frame(alloc: Global, frame: &Frame) -> Result<Scope, AllocError>
    ensures { IfOk result (λ scope. scope ≡ meant.scope_of_frame frame.now) }
{
    Ok(Scope {
        names: copy_names(alloc, frame.names.as_slice())?,
        columns: columns_of(alloc, frame.components.as_slice())?,
    })
}

/// Where numbers stand in the list, for the first time.
fn places_of(alloc: Global, numbers: &[u64]) -> Result<IndexMap<u64, u64>, AllocError>
    ensures { IfOk result (λ places. (number : ℕ) → get nat_eq places number ≡ position (nat_eq number) numbers.now) }
{
    let mut places = IndexMap::new(alloc);
    for (place, number) in numbers.iter().enumerate() {
        if !places.contains_key(number) {
            places.insert(*number, place as u64)?;
        }
    }
    Ok(places)
}

/// A name whose component comes to stand at the place of its number.
fn moved_name(
    places: &IndexMap<u64, u64>,
    name: &ScopeName,
) -> Result<Option<ScopeName>, AllocError>
    ensures { IfOk result (λ moved. moved ≡ option_map (λ place. record name.now { number = place }) (get nat_eq places.now name.now.number)) }
{
    match places.get(&name.number) {
        Some(place) => Ok(Some(copy_name(name, *place)?)),
        None => Ok(None),
    }
}

fn moved_names(
    alloc: Global,
    numbers: &[u64],
    names: &[ScopeName],
) -> Result<Items<ScopeName>, AllocError>
    ensures { IfOk result (λ moved. moved ≡ filter_map (meant.moved_name numbers.now) names.now) }
{
    let mut moved = Items::new(alloc);
    if names.is_empty() {
        return Ok(moved);
    }
    let places = places_of(alloc, numbers)?;
    for name in names {
        if let Some(name) = moved_name(&places, name)? {
            moved.push(name)?;
        }
    }
    Ok(moved)
}

/// A copy of the component with this number, if there is one.
fn component_at(components: &[Component], number: u64) -> Result<Option<Component>, AllocError>
    ensures { IfOk result (λ copy. copy ≡ slice_get components.now number) }
{
    match components.get(number as usize) {
        Some(component) => Ok(Some(component.copy()?)),
        None => Ok(None),
    }
}

fn picked_components(
    alloc: Global,
    numbers: &[u64],
    components: &[Component],
) -> Result<Items<Component>, AllocError>
    ensures { IfOk result (λ picked. picked ≡ filter_map (slice_get components.now) numbers.now) }
{
    let mut picked = Items::new(alloc);
    for number in numbers {
        if let Some(component) = component_at(components, *number)? {
            picked.push(component)?;
        }
    }
    Ok(picked)
}

/// The components with these numbers, in this order, under their names. Or want of memory. It costs the number of names
/// and of numbers.
pub fn picked(alloc: Global, numbers: &[u64], frame: &Frame) -> Result<Frame, AllocError>
    ensures { IfOk result (λ picked. picked ≡ meant.picked numbers.now frame.now) }
{
    Ok(Frame {
        names: moved_names(alloc, numbers, frame.names.as_slice())?,
        components: picked_components(alloc, numbers, frame.components.as_slice())?,
    })
}
