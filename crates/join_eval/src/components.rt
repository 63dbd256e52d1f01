// Parts of the structures of operands.
ghost use Rattle.std.specs.Prelude.{◌≡◌, [], map, filter, flat_map, position, IfOk};
ghost use Rattle.std.specs.List.{list_any, list_all};
ghost use Rattle.vtl_values.specs.declared.kind.Role.TheVariants.{Identifier, Measure};
ghost use Rattle.structured_sets.specs.Fitting as fitting;
ghost use Rattle.scalar_trees.specs.WellTyped as kinds;
ghost use Rattle.data_set_trees.specs.clauses.Frames as frames;
ghost use Rattle.data_set_trees.specs.Components as meant;
ghost use Rattle.data_set_trees.specs.Joins as joins;
ghost use Rattle.pair_eval.specs.Plans as pairs;
ghost use Rattle.operator_meaning.specs.joins.Joins as specs;

use sqlite_items::Items;
use std::alloc::{AllocError, Global};
use vtl_syntax::words::JoinFunction;
use vtl_values::{Component, Kind, Role, Structure, Word};

fn has_role(role: Role, component: &Component) -> bool
    ensures { result ≡ frames.has_role role component.now }
{
    role == component.role
}

fn has_name(name: &Word, component: &Component) -> bool
    ensures { result ≡ meant.has_name name.now component.now }
{
    *name == component.name
}

fn is_taken(name: &Word, components: &[Component]) -> bool
    ensures { result ≡ meant.is_taken name.now components.now }
{
    components.iter().any(|component| has_name(name, component))
}

fn is_kind(kind: Kind, other: Kind) -> bool
    ensures { result ≡ kinds.is_kind kind other }
{
    kind == other
}

/// Whether both have one name and one kind.
fn is_same(component: &Component, other: &Component) -> bool
    ensures { result ≡ meant.is_same component.now other.now }
{
    component.name == other.name && is_kind(component.kind, other.kind)
}

fn is_identifier_of(component: &Component, others: &[Component]) -> bool
    ensures { result ≡ list_any (meant.is_same component.now) (meant.identifiers others.now) }
{
    others
        .iter()
        .filter(|other| has_role(Role::Identifier, other))
        .any(|other| is_same(component, other))
}

/// Whether each identifier of the second ones is one of the first ones.
fn include(components: &[Component], others: &[Component]) -> bool
    ensures { result ≡ meant.include (meant.identifiers components.now) (meant.identifiers others.now) }
{
    others
        .iter()
        .filter(|other| has_role(Role::Identifier, other))
        .all(|other| is_identifier_of(other, components))
}

/// Whether a structure has the identifiers of all structures.
pub(crate) fn includes_all(structures: &[Structure], structure: &Structure) -> bool
    ensures { result ≡ joins.includes_all structures.now structure.now }
{
    structures.iter().all(|other| include(structure.components(), other.components()))
}

/// The components of this role, in their order.
fn of_role(
    alloc: Global,
    role: Role,
    components: &[Component],
) -> Result<Items<Component>, AllocError>
    ensures { IfOk result (λ found. found ≡ filter (frames.has_role role) components.now) }
{
    let mut found = Items::new(alloc);
    for component in components {
        if has_role(role, component) {
            found.push(component.copy()?)?;
        }
    }
    Ok(found)
}

/// The identifiers, in their order.
pub(crate) fn identifiers(
    alloc: Global,
    components: &[Component],
) -> Result<Items<Component>, AllocError>
    ensures { IfOk result (λ found. found ≡ meant.identifiers components.now) }
{
    of_role(alloc, Role::Identifier, components)
}

/// The components whose names none of the others has.
fn further(
    alloc: Global,
    others: &[Component],
    components: &[Component],
) -> Result<Items<Component>, AllocError>
    ensures { IfOk result (λ found. found ≡ meant.further others.now components.now) }
{
    let mut found = Items::new(alloc);
    for component in components {
        if !is_taken(&component.name, others) {
            found.push(component.copy()?)?;
        }
    }
    Ok(found)
}

/// The components of this role of each structure, of one name only the first.
pub(crate) fn gathered_of(
    alloc: Global,
    role: Role,
    structures: &[Structure],
) -> Result<Items<Component>, AllocError>
    ensures { IfOk result (λ all. all ≡ joins.gathered [] (map (filter (frames.has_role role)) structures.now)) }
{
    let mut all = Items::new(alloc);
    for structure in structures {
        let theirs = of_role(alloc, role, structure.components())?;
        let more = further(alloc, all.as_slice(), theirs.as_slice())?;
        all.append(more)?;
    }
    Ok(all)
}

/// The identifiers of each structure, one after the other.
fn all_identifiers(alloc: Global, structures: &[Structure]) -> Result<Items<Component>, AllocError>
    ensures { IfOk result (λ all. all ≡ flat_map meant.identifiers structures.now) }
{
    let mut all = Items::new(alloc);
    for structure in structures {
        all.append(identifiers(alloc, structure.components())?)?;
    }
    Ok(all)
}

/// The identifiers of the join.
pub(crate) fn join_identifiers(
    alloc: Global,
    function: JoinFunction,
    structures: &[Structure],
) -> Result<Items<Component>, AllocError>
    ensures { IfOk result (λ all. all ≡ joins.join_identifiers function structures.now) }
{
    match function {
        JoinFunction::Cross => all_identifiers(alloc, structures),
        JoinFunction::Inner => gathered_of(alloc, Role::Identifier, structures),
        JoinFunction::Left => gathered_of(alloc, Role::Identifier, structures),
        JoinFunction::Full => gathered_of(alloc, Role::Identifier, structures),
    }
}

/// The number of the first component of this name.
fn number_of(name: &Word, components: &[Component]) -> Option<usize>
    ensures { result ≡ position (meant.has_name name.now) components.now }
{
    components
        .iter()
        .position(|component| has_name(name, component))
}

/// The numbers of these components among all, by their names.
pub(crate) fn numbers_among(
    alloc: Global,
    all: &[Component],
    components: &[Component],
) -> Result<Items<u64>, AllocError>
    ensures { IfOk result (λ numbers. numbers ≡ specs.numbers_among all.now components.now) }
{
    let mut numbers = Items::new(alloc);
    for component in components {
        if let Some(number) = number_of(&component.name, all) {
            numbers.push(number as u64)?;
        }
    }
    Ok(numbers)
}

fn is_identifier(component: &Component) -> bool
    ensures { result ≡ fitting.is_identifier component.now }
{
    component.role == Role::Identifier
}

/// The components that are no identifiers, in their order.
pub(crate) fn others(
    alloc: Global,
    components: &[Component],
) -> Result<Items<Component>, AllocError>
    ensures { IfOk result (λ found. found ≡ fitting.others components.now) }
{
    let mut found = Items::new(alloc);
    for component in components {
        if !is_identifier(component) {
            found.push(component.copy()?)?;
        }
    }
    Ok(found)
}

/// The numbers of the measures.
pub(crate) fn measure_numbers(
    alloc: Global,
    components: &[Component],
) -> Result<Items<u64>, AllocError>
    ensures { IfOk result (λ numbers. numbers ≡ frames.numbers_of Measure components.now) }
{
    let mut numbers = Items::new(alloc);
    for (i, component) in components.iter().enumerate() {
        if has_role(Role::Measure, component) {
            numbers.push(i as u64)?;
        }
    }
    Ok(numbers)
}

/// The number of the viral attribute of this name.
pub(crate) fn viral_called(name: &Word, components: &[Component]) -> Option<u64>
    ensures { result ≡ pairs.viral_called name.now components.now }
{
    as_number(viral_place(name, components))
}

fn viral_place(name: &Word, components: &[Component]) -> Option<usize>
    ensures { result ≡ pairs.viral_called name.now components.now }
{
    components.iter().position(|component| has_role(Role::Viral, component)
        && has_name(name, component))
}

fn as_number(place: Option<usize>) -> Option<u64>
    ensures { result ≡ place }
{
    match place {
        Some(number) => Some(number as u64),
        None => None,
    }
}
