// What a join has before the clauses inside.
ghost use Rattle.std.specs.Prelude.{◌≡◌, ◌≤◌, ◌++◌, [], map, filter, flat_map, length, IfOk};
ghost use Rattle.std.specs.List.{All};
ghost use Rattle.vtl_values.specs.declared.kind.Role.TheVariants as role;
ghost use Rattle.data_set_trees.specs.clauses.Clauses.{MOST_COMPONENTS};
ghost use Rattle.data_set_trees.specs.clauses.Frames.{has_role};
ghost use Rattle.data_set_trees.specs.Components as parts;
ghost use Rattle.data_set_trees.specs.Joins as meant;
ghost use Rattle.data_set_parts.specs.Joins.{IsOf};
ghost use Rattle.join_typing.specs.Inside.{FitInside};

use data_set_parts::components::{further, of_role};
use sqlite_items::Items;
use std::alloc::{AllocError, Global};
use vtl_syntax::words::JoinFunction;
use vtl_values::{Component, Role, Structure};

/// The components of this role of a structure. Or want of memory.
fn theirs(alloc: Global, role: Role, structure: &Structure) -> Result<Items<Component>, AllocError>
    ensures value { IfOk result (λ all. all ≡ filter (has_role role) structure.now) }
    ensures sound { IfOk result (λ all. All (IsOf role) all) }
{
    of_role(alloc, role, structure.components())
}

/// The components of this role of each structure, in order. Or want of memory.
fn all_of(
    alloc: Global,
    role: Role,
    structures: &[Structure],
) -> Result<Items<Component>, AllocError>
    ensures value { IfOk result (λ all. all ≡ flat_map (filter (has_role role)) structures.now) }
    ensures sound { IfOk result (λ all. All (IsOf role) all) }
{
    let mut all = Items::new(alloc);
    for structure in structures {
        all.append(theirs(alloc, role, structure)?)?;
    }
    Ok(all)
}

/// Those of this role of one more structure.
fn more_of(
    alloc: Global,
    role: Role,
    before: &[Component],
    structure: &Structure,
) -> Result<Items<Component>, AllocError>
    ensures value { IfOk result (λ more. more ≡ parts.further before.now (filter (has_role role) structure.now)) }
    ensures sound { IfOk result (λ more. All (IsOf role) more) }
{
    let all = theirs(alloc, role, structure)?;
    further(alloc, before, all.as_slice())
}

/// The components of this role of each structure, of one name only the first. Or want of memory.
pub(crate) fn gathered_of(
    alloc: Global,
    role: Role,
    structures: &[Structure],
) -> Result<Items<Component>, AllocError>
    ensures value { IfOk result (λ all. all ≡ meant.gathered [] (map (filter (has_role role)) structures.now)) }
    ensures sound { IfOk result (λ all. All (IsOf role) all) }
{
    let mut all = Items::new(alloc);
    for structure in structures {
        let more = more_of(alloc, role, all.as_slice(), structure)?;
        all.append(more)?;
    }
    Ok(all)
}

/// The identifiers of the join. Or want of memory.
pub(crate) fn join_identifiers(
    alloc: Global,
    function: JoinFunction,
    structures: &[Structure],
) -> Result<Items<Component>, AllocError>
    ensures value { IfOk result (λ all. all ≡ meant.join_identifiers function structures.now) }
    ensures sound { IfOk result (λ all. All (IsOf role.Identifier) all) }
{
    match function {
        JoinFunction::Cross => all_of(alloc, Role::Identifier, structures),
        JoinFunction::Inner => gathered_of(alloc, Role::Identifier, structures),
        JoinFunction::Left => gathered_of(alloc, Role::Identifier, structures),
        JoinFunction::Full => gathered_of(alloc, Role::Identifier, structures),
    }
}

/// Identifiers, measures, and viral attributes, in that order. Or want of memory.
fn together(
    identifiers: Items<Component>,
    measures: Items<Component>,
    virals: Items<Component>,
) -> Result<Items<Component>, AllocError>
    ensures { IfOk result (λ all. all ≡ (identifiers ++ measures) ++ virals) }
{
    let mut all = identifiers;
    all.append(measures)?;
    all.append(virals)?;
    Ok(all)
}

/// The components of the join: identifiers, the measures of each operand, and viral attributes. Or want of memory.
pub(crate) fn join_components(
    alloc: Global,
    function: JoinFunction,
    structures: &[Structure],
) -> Result<Items<Component>, AllocError>
    ensures value { IfOk result (λ all. all ≡ meant.join_components function structures.now) }
    ensures fits { IfOk result (λ all. length all ≤ MOST_COMPONENTS → FitInside all) }
{
    let identifiers = join_identifiers(alloc, function, structures)?;
    let measures = all_of(alloc, Role::Measure, structures)?;
    let virals = gathered_of(alloc, Role::Viral, structures)?;
    together(identifiers, measures, virals)
}
