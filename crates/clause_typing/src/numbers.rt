// The numbers of the components that are in a part of a frame.
ghost use Rattle.std.specs.Prelude.{◌≡◌, ◌++◌, map, IfOk, OnOk};
ghost use Rattle.vtl_values.specs.declared.kind.Role.TheVariants.{Identifier, Viral};
ghost use Rattle.data_set_trees.specs.clauses.Frames as meant;
ghost use Rattle.data_set_trees.specs.clauses.After as meant_after;

use data_set_trees::clauses::CheckedSubItem;
use sqlite_items::Items;
use std::alloc::{AllocError, Global};
use vtl_values::{Component, Role};

fn is_role(role: Role, other: Role) -> bool
    ensures { result ≡ meant.is_role role other }
{
    role == other
}

/// Whether a component has this role.
pub fn has_role(role: Role, component: &Component) -> bool
    ensures { result ≡ meant.has_role role component.now }
{
    is_role(role, component.role)
}

/// Whether a number is in the list.
pub fn is_among(numbers: &[u64], number: u64) -> bool
    ensures { result ≡ meant_after.is_among numbers.now number }
{
    numbers.iter().any(|other| number == *other)
}

/// Whether `keep` leaves a component alone: an identifier or a viral attribute.
pub(crate) fn always_stays(component: &Component) -> bool
    ensures { result ≡ meant_after.always_stays component.now }
{
    has_role(Role::Identifier, component) || has_role(Role::Viral, component)
}

/// Puts the numbers of the components with this role last.
fn push_role(
    numbers: &mut Items<u64>,
    role: Role,
    components: &[Component],
) -> Result<(), AllocError>
    ensures { OnOk result (numbers.new ≡ numbers.old ++ meant.numbers_of role components.now) }
{
    for (i, component) in components.iter().enumerate() {
        if has_role(role, component) {
            numbers.push(i as u64)?;
        }
    }
    Ok(())
}

/// The numbers of all components, by role: of identifiers, measures, attributes and then viral attributes, each in their
/// order. Or want of memory. It costs the number of components.
pub fn numbers_by_role(alloc: Global, components: &[Component]) -> Result<Items<u64>, AllocError>
    ensures { IfOk result (λ numbers. numbers ≡ meant.numbers_by_role components.now) }
{
    let mut numbers = Items::new(alloc);
    push_role(&mut numbers, Role::Identifier, components)?;
    push_role(&mut numbers, Role::Measure, components)?;
    push_role(&mut numbers, Role::Attribute, components)?;
    push_role(&mut numbers, Role::Viral, components)?;
    Ok(numbers)
}

/// The numbers of the identifiers and then of the viral attributes.
pub(crate) fn numbers_staying(
    alloc: Global,
    components: &[Component],
) -> Result<Items<u64>, AllocError>
    ensures { IfOk result (λ numbers. numbers ≡ meant.numbers_of Identifier components.now ++ meant.numbers_of Viral components.now) }
{
    let mut numbers = Items::new(alloc);
    push_role(&mut numbers, Role::Identifier, components)?;
    push_role(&mut numbers, Role::Viral, components)?;
    Ok(numbers)
}

/// The numbers of the components that `keep` leaves, where it names these.
pub(crate) fn numbers_kept(
    alloc: Global,
    named: &[u64],
    components: &[Component],
) -> Result<Items<u64>, AllocError>
    ensures { IfOk result (λ numbers. numbers ≡ meant.numbers_from (meant_after.is_kept named.now) 0 components.now) }
{
    let mut numbers = Items::new(alloc);
    for (i, component) in components.iter().enumerate() {
        if always_stays(component) || is_among(named, i as u64) {
            numbers.push(i as u64)?;
        }
    }
    Ok(numbers)
}

/// The numbers of the components that aren't named.
pub(crate) fn numbers_left(
    alloc: Global,
    named: &[u64],
    components: &[Component],
) -> Result<Items<u64>, AllocError>
    ensures { IfOk result (λ numbers. numbers ≡ meant.numbers_from (meant_after.is_left named.now) 0 components.now) }
{
    let mut numbers = Items::new(alloc);
    for (i, _) in components.iter().enumerate() {
        if !is_among(named, i as u64) {
            numbers.push(i as u64)?;
        }
    }
    Ok(numbers)
}

/// The numbers of the identifiers of a `sub`.
pub(crate) fn numbers_of_items(
    alloc: Global,
    items: &[CheckedSubItem],
) -> Result<Items<u64>, AllocError>
    ensures { IfOk result (λ numbers. numbers ≡ map (λ i. i.component) items.now) }
{
    let mut numbers = Items::new(alloc);
    for item in items {
        numbers.push(item.component)?;
    }
    Ok(numbers)
}
