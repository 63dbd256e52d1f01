// Components by their names.
ghost use Rattle.std.specs.Prelude.{◌≡◌, ◌&&◌, map, position, IfOk};
ghost use Rattle.vtl_values.specs.declared.kind.Role.TheVariants.{Identifier, Measure, Viral};
ghost use Rattle.data_set_trees.specs.clauses.Frames as frames;
ghost use Rattle.data_set_trees.specs.Components as meant;
ghost use Rattle.choice_ops.specs.Plans as plans;

use crate::plan::KeyNumbers;
use crate::values::ViralPlaces;
use sqlite_items::Items;
use std::alloc::{AllocError, Global};
use vtl_values::{Component, Role, Structure, Word};

fn has_role(role: Role, component: &Component) -> bool
    ensures { result ≡ frames.has_role role component.now }
{
    role == component.role
}

fn has_name(name: &Word, component: &Component) -> bool
    ensures { result ≡ meant.has_name name.now component.now }
{
    *name == component.name
}

/// The number, among the identifiers, of the one of this name.
fn identifier_called(name: &Word, components: &[Component]) -> Option<usize>
    ensures { result ≡ position (meant.has_name name.now) (meant.identifiers components.now) }
{
    components
        .iter()
        .filter(|component| has_role(Role::Identifier, component))
        .position(|component| has_name(name, component))
}

/// The numbers, among the identifiers of the first ones, of those that the second ones have, in the second ones' order.
fn numbers_between(
    alloc: Global,
    from: &[Component],
    to: &[Component],
) -> Result<Items<u64>, AllocError>
    ensures { IfOk result (λ numbers. numbers ≡ plans.numbers_between from.now to.now) }
{
    let mut numbers = Items::new(alloc);
    for component in to {
        if has_role(Role::Identifier, component)
            && let Some(number) = identifier_called(&component.name, from)
        {
            numbers.push(number as u64)?;
        }
    }
    Ok(numbers)
}

fn key_numbers(
    alloc: Global,
    first: &[Component],
    structure: &[Component],
) -> Result<KeyNumbers, AllocError>
    ensures { IfOk result (λ numbers. numbers ≡ plans.key_numbers first.now structure.now) }
{
    Ok(KeyNumbers {
        to_condition: numbers_between(alloc, structure, first)?,
        from_condition: numbers_between(alloc, first, structure)?,
    })
}

/// How the keys of each operand and those of the condition are turned into each other.
pub(crate) fn all_key_numbers(
    alloc: Global,
    first: &[Component],
    operands: &[Structure],
) -> Result<Items<KeyNumbers>, AllocError>
    ensures { IfOk result (λ all. all ≡ map (plans.key_numbers first.now) operands.now) }
{
    let mut all = Items::new(alloc);
    for structure in operands {
        all.push(key_numbers(alloc, first, structure.components())?)?;
    }
    Ok(all)
}

/// The number of the first measure.
pub(crate) fn measure_number(components: &[Component]) -> Option<usize>
    ensures { result ≡ position (frames.has_role Measure) components.now }
{
    components
        .iter()
        .position(|component| has_role(Role::Measure, component))
}

/// The number of the viral attribute of this name.
fn viral_called(name: &Word, components: &[Component]) -> Option<usize>
    ensures { result ≡ plans.viral_called name.now components.now }
{
    components.iter().position(|component| has_role(Role::Viral, component)
        && has_name(name, component))
}

fn places_of(
    component: &Component,
    first: &[Component],
    holds: &[Component],
    fails: &[Component],
) -> Result<ViralPlaces, AllocError>
    ensures { IfOk result (λ places. places ≡ plans.places_of first.now holds.now fails.now component.now) }
{
    Ok(ViralPlaces {
        codes: component.codes.copy()?,
        own: viral_called(&component.name, first),
        holds: viral_called(&component.name, holds),
        fails: viral_called(&component.name, fails),
    })
}

/// The places of the viral attributes of a result, in the condition and in both branches.
pub(crate) fn all_places(
    alloc: Global,
    first: &[Component],
    holds: &[Component],
    fails: &[Component],
    structure: &[Component],
) -> Result<Items<ViralPlaces>, AllocError>
    ensures { IfOk result (λ all. all ≡ map (plans.places_of first.now holds.now fails.now) (meant.virals structure.now)) }
{
    let mut all = Items::new(alloc);
    for component in structure {
        if has_role(Role::Viral, component) {
            all.push(places_of(component, first, holds, fails)?)?;
        }
    }
    Ok(all)
}
