// Components of two structures.
ghost use Rattle.std.specs.Prelude.{◌≡◌, ◌&&◌, map, position, IfOk};
ghost use Rattle.std.specs.List.{list_any};
ghost use Rattle.vtl_values.specs.declared.kind.Role.TheVariants.{Identifier, Viral};
ghost use Rattle.data_set_trees.specs.clauses.Frames as frames;
ghost use Rattle.scalar_trees.specs.WellTyped as kinds;
ghost use Rattle.data_set_trees.specs.Components as meant;
ghost use Rattle.pair_eval.specs.Plans as plans;

use crate::virals::ViralPlaces;
use sqlite_items::Items;
use std::alloc::{AllocError, Global};
use vtl_values::{Component, Kind, Role, Word};

fn has_role(role: Role, component: &Component) -> bool
    ensures { result ≡ frames.has_role role component.now }
{
    role == component.role
}

fn has_name(name: &Word, component: &Component) -> bool
    ensures { result ≡ meant.has_name name.now component.now }
{
    *name == component.name
}

fn is_kind(kind: Kind, other: Kind) -> bool
    ensures { result ≡ kinds.is_kind kind other }
{
    kind == other
}

/// Whether both have one name and one kind.
fn is_same(component: &Component, other: &Component) -> bool
    ensures { result ≡ meant.is_same component.now other.now }
{
    component.name == other.name && is_kind(component.kind, other.kind)
}

fn is_identifier_of(component: &Component, others: &[Component]) -> bool
    ensures { result ≡ list_any (meant.is_same component.now) (meant.identifiers others.now) }
{
    others
        .iter()
        .filter(|other| has_role(Role::Identifier, other))
        .any(|other| is_same(component, other))
}

/// Whether each identifier of the second ones is one of the first ones.
pub(crate) fn include(components: &[Component], others: &[Component]) -> bool
    ensures { result ≡ meant.include (meant.identifiers components.now) (meant.identifiers others.now) }
{
    others
        .iter()
        .filter(|other| has_role(Role::Identifier, other))
        .all(|other| is_identifier_of(other, components))
}

/// The number, among the identifiers, of the one of this name.
fn identifier_called(name: &Word, components: &[Component]) -> Option<usize>
    ensures { result ≡ position (meant.has_name name.now) (meant.identifiers components.now) }
{
    components
        .iter()
        .filter(|component| has_role(Role::Identifier, component))
        .position(|component| has_name(name, component))
}

/// The numbers, among the identifiers of the first ones, of those that the second ones have, in the second ones' order.
pub(crate) fn numbers_between(
    alloc: Global,
    from: &[Component],
    to: &[Component],
) -> Result<Items<u64>, AllocError>
    ensures { IfOk result (λ numbers. numbers ≡ plans.numbers_between from.now to.now) }
{
    let mut numbers = Items::new(alloc);
    for component in to {
        if has_role(Role::Identifier, component)
            && let Some(number) = identifier_called(&component.name, from)
        {
            numbers.push(number as u64)?;
        }
    }
    Ok(numbers)
}

/// The number of the viral attribute of this name.
fn viral_called(name: &Word, components: &[Component]) -> Option<usize>
    ensures { result ≡ plans.viral_called name.now components.now }
{
    components.iter().position(|component| has_role(Role::Viral, component)
        && has_name(name, component))
}

fn places_of(
    component: &Component,
    left: &[Component],
    right: &[Component],
) -> Result<ViralPlaces, AllocError>
    ensures { IfOk result (λ places. places ≡ plans.places_of left.now right.now component.now) }
{
    Ok(ViralPlaces {
        codes: component.codes.copy()?,
        left: number_of(viral_called(&component.name, left)),
        right: number_of(viral_called(&component.name, right)),
    })
}

fn number_of(place: Option<usize>) -> Option<u64>
    ensures { result ≡ place }
{
    match place {
        Some(number) => Some(number as u64),
        None => None,
    }
}

/// The places of the viral attributes of a result.
pub(crate) fn all_places(
    alloc: Global,
    left: &[Component],
    right: &[Component],
    structure: &[Component],
) -> Result<Items<ViralPlaces>, AllocError>
    ensures { IfOk result (λ all. all ≡ map (plans.places_of left.now right.now) (meant.virals structure.now)) }
{
    let mut all = Items::new(alloc);
    for component in structure {
        if has_role(Role::Viral, component) {
            all.push(places_of(component, left, right)?)?;
        }
    }
    Ok(all)
}
