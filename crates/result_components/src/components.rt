// The components of a result.
ghost use Rattle.std.specs.Prelude.{◌≡◌, not, slice_get, IfOk};
ghost use Rattle.vtl_values.specs.declared.kind.Role.TheVariants.{Attribute};
ghost use Rattle.data_set_trees.specs.aggregates.Results as results;
ghost use Rattle.data_set_trees.specs.clauses.Frames as meant;

use clause_typing::{has_role, numbers_by_role};
use sqlite_items::Items;
use std::alloc::{AllocError, Global};
use vtl_values::{Component, Role};

/// A copy of the component with this number, if there is one.
fn component_at(components: &[Component], number: u64) -> Result<Option<Component>, AllocError>
    ensures { IfOk result (λ copy. copy ≡ slice_get components.now number) }
{
    match components.get(number as usize) {
        Some(component) => Ok(Some(component.copy()?)),
        None => Ok(None),
    }
}

/// The components with these numbers, in this order, or want of memory. A number that no component has is passed over. It
/// costs the number of numbers.
pub fn with_numbers(
    alloc: Global,
    components: &[Component],
    numbers: &[u64],
) -> Result<Items<Component>, AllocError>
    ensures { IfOk result (λ found. found ≡ results.with_numbers components.now numbers.now) }
{
    let mut found = Items::new(alloc);
    for number in numbers {
        if let Some(component) = component_at(components, *number)? {
            found.push(component)?;
        }
    }
    Ok(found)
}

/// The numbers of the components with this role, or want of memory. It costs the number of components.
pub fn numbers_of(
    alloc: Global,
    role: Role,
    components: &[Component],
) -> Result<Items<u64>, AllocError>
    ensures { IfOk result (λ numbers. numbers ≡ meant.numbers_of role components.now) }
{
    let mut numbers = Items::new(alloc);
    for (i, component) in components.iter().enumerate() {
        if has_role(role, component) {
            numbers.push(i as u64)?;
        }
    }
    Ok(numbers)
}

/// The numbers of the components that aren't plain attributes.
fn numbers_left(alloc: Global, components: &[Component]) -> Result<Items<u64>, AllocError>
    ensures { IfOk result (λ numbers. numbers ≡ meant.numbers_from (λ number c. not (meant.has_role Attribute c)) 0 components.now) }
{
    let mut numbers = Items::new(alloc);
    for (i, component) in components.iter().enumerate() {
        if !has_role(Role::Attribute, component) {
            numbers.push(i as u64)?;
        }
    }
    Ok(numbers)
}

/// All components but plain attributes, or want of memory. It costs the number of components.
pub fn without_attributes(
    alloc: Global,
    components: &[Component],
) -> Result<Items<Component>, AllocError>
    ensures { IfOk result (λ left. left ≡ results.without_attributes components.now) }
{
    let numbers = numbers_left(alloc, components)?;
    with_numbers(alloc, components, numbers.as_slice())
}

/// The components by role: identifiers, measures, attributes and then viral attributes, each in their order. Or want of
/// memory. It costs the number of components.
pub fn by_role(alloc: Global, components: &[Component]) -> Result<Items<Component>, AllocError>
    ensures { IfOk result (λ ordered. ordered ≡ (meant.by_role (meant.frame_of components.now)).components) }
{
    let numbers = numbers_by_role(alloc, components)?;
    with_numbers(alloc, components, numbers.as_slice())
}
