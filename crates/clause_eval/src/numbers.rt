// Which of a point's values a clause takes over.
ghost use Rattle.std.specs.Prelude.{◌≡◌, ◌++◌, ◌&&◌, not, map, IfOk, OnOk, IsTrue};
ghost use Rattle.structured_sets.specs.Fitting.{is_identifier};
ghost use Rattle.data_set_trees.specs.clauses.Frames as meant_frames;
ghost use Rattle.data_set_trees.specs.clauses.After as meant_after;
ghost use Rattle.clause_eval.specs.Points.{picks_of};
ghost use Rattle.clause_eval.specs.Roles.{numbers_with, others_with, roles_after, with_role};
ghost use Rattle.vtl_values.specs.declared.kind.Role.TheVariants.{Viral};

use data_set_trees::clauses::{CheckedClause, CheckedItem, CheckedSubItem, Target};
use sqlite_items::Items;
use std::alloc::{AllocError, Global};
use vtl_values::{Component, Role};

/// The numbers of the values of a point that a clause takes over as they are, on a data set with these components. They
/// don't depend on the point.
pub fn picks(
    alloc: Global,
    clause: &CheckedClause,
    components: &[Component],
) -> Result<Items<u64>, AllocError>
    ensures { IfOk result (λ picks. picks ≡ picks_of clause.now (meant_frames.frame_of components.now)) }
{
    match clause {
        CheckedClause::Filter { .. } | CheckedClause::Rename { .. } => Ok(Items::new(alloc)),
        CheckedClause::Calc { items } => calculated(alloc, items.as_slice(), components),
        CheckedClause::Keep { components: named } => kept(alloc, named.as_slice(), components),
        CheckedClause::Drop { components: named } => others_left(
            alloc,
            named.as_slice(),
            components,
        ),
        CheckedClause::Sub { items } => {
            let named = numbers_of_items(alloc, items.as_slice())?;
            identifiers_left(alloc, named.as_slice(), components)
        }
        CheckedClause::Unpivot { .. } | CheckedClause::Measures { .. } => viral(alloc, components),
    }
}

fn is_identifier(component: &Component) -> bool
    ensures { result ≡ is_identifier component.now }
{
    component.role == Role::Identifier
}

/// Whether a number is in the list.
fn is_among(numbers: &[u64], number: u64) -> bool
    ensures { result ≡ meant_after.is_among numbers.now number }
{
    numbers.iter().any(|other| number == *other)
}

/// The numbers of what `keep` leaves beside the identifiers: what it names, and viral attributes.
fn kept(alloc: Global, named: &[u64], components: &[Component]) -> Result<Items<u64>, AllocError>
    ensures { IfOk result (λ numbers. numbers ≡ meant_frames.numbers_from (λ number c. not (is_identifier c) && meant_after.is_kept named.now number c) 0 components.now) }
{
    let mut numbers = Items::new(alloc);
    for (i, component) in components.iter().enumerate() {
        if is_kept(named, i as u64, component) {
            numbers.push(i as u64)?;
        }
    }
    Ok(numbers)
}

fn is_kept(named: &[u64], number: u64, component: &Component) -> bool
    ensures { result ≡ (not (is_identifier component.now) && meant_after.is_kept named.now number component.now) }
{
    match component.role {
        Role::Identifier => false,
        Role::Viral => true,
        Role::Measure | Role::Attribute => is_among(named, number),
    }
}

/// The numbers of the components that aren't named and are no identifiers.
fn others_left(
    alloc: Global,
    named: &[u64],
    components: &[Component],
) -> Result<Items<u64>, AllocError>
    ensures { IfOk result (λ numbers. numbers ≡ meant_frames.numbers_from (λ number c. not (is_identifier c) && meant_after.is_left named.now number c) 0 components.now) }
{
    let mut numbers = Items::new(alloc);
    for (i, component) in components.iter().enumerate() {
        if !is_identifier(component) && !is_among(named, i as u64) {
            numbers.push(i as u64)?;
        }
    }
    Ok(numbers)
}

/// The numbers of the identifiers that aren't named.
fn identifiers_left(
    alloc: Global,
    named: &[u64],
    components: &[Component],
) -> Result<Items<u64>, AllocError>
    ensures { IfOk result (λ numbers. numbers ≡ meant_frames.numbers_from (λ number c. is_identifier c && meant_after.is_left named.now number c) 0 components.now) }
{
    let mut numbers = Items::new(alloc);
    for (i, component) in components.iter().enumerate() {
        if is_identifier(component) && !is_among(named, i as u64) {
            numbers.push(i as u64)?;
        }
    }
    Ok(numbers)
}

/// The numbers of the identifiers that a `sub` names.
fn numbers_of_items(alloc: Global, items: &[CheckedSubItem]) -> Result<Items<u64>, AllocError>
    ensures { IfOk result (λ numbers. numbers ≡ map (λ i. i.component) items.now) }
{
    let mut numbers = Items::new(alloc);
    for item in items {
        numbers.push(item.component)?;
    }
    Ok(numbers)
}

/// The numbers of the viral attributes.
fn viral(alloc: Global, components: &[Component]) -> Result<Items<u64>, AllocError>
    ensures { IfOk result (λ numbers. numbers ≡ meant_frames.numbers_of Viral components.now) }
{
    let roles = roles_of(alloc, components)?;
    let mut numbers = Items::new(alloc);
    push_role(&mut numbers, Role::Viral, roles.as_slice())?;
    Ok(numbers)
}

/// The numbers of all components but the identifiers, by their roles after the items of a `calc`.
fn calculated(
    alloc: Global,
    items: &[CheckedItem],
    components: &[Component],
) -> Result<Items<u64>, AllocError>
    ensures { IfOk result (λ numbers. numbers ≡ others_with (roles_after items.now (map (λ c. c.role) components.now))) }
{
    let mut roles = roles_of(alloc, components)?;
    put_roles(&mut roles, items)?;
    let mut numbers = Items::new(alloc);
    push_role(&mut numbers, Role::Measure, roles.as_slice())?;
    push_role(&mut numbers, Role::Attribute, roles.as_slice())?;
    push_role(&mut numbers, Role::Viral, roles.as_slice())?;
    Ok(numbers)
}

fn roles_of(alloc: Global, components: &[Component]) -> Result<Items<Role>, AllocError>
    ensures { IfOk result (λ roles. roles ≡ map (λ c. c.role) components.now) }
{
    let mut roles = Items::new(alloc);
    for component in components {
        roles.push(component.role)?;
    }
    Ok(roles)
}

/// The roles that components have after the items of a `calc`, not yet by role.
fn put_roles(roles: &mut Items<Role>, items: &[CheckedItem]) -> Result<(), AllocError>
    ensures { OnOk result (roles.new ≡ roles_after items.now roles.old) }
{
    for item in items {
        put_role(roles, item)?;
    }
    Ok(())
}

fn put_role(roles: &mut Items<Role>, item: &CheckedItem) -> Result<(), AllocError>
    ensures { OnOk result (roles.new ≡ with_role roles.old item.now) }
{
    match item.target {
        Target::Old(number) => {
            let number = number as usize;
            if number < roles.len() {
                roles.set(number, item.role);
            }
            Ok(())
        }
        Target::New(_) => roles.push(item.role),
    }
}

/// Puts the numbers at which a role stands last.
fn push_role(numbers: &mut Items<u64>, role: Role, roles: &[Role]) -> Result<(), AllocError>
    ensures { OnOk result (numbers.new ≡ numbers.old ++ numbers_with role 0 roles.now) }
{
    for (i, other) in roles.iter().enumerate() {
        if role == *other {
            numbers.push(i as u64)?;
        }
    }
    Ok(())
}
