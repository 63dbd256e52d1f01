// The structure of a conditional on data sets.
ghost use Rattle.std.specs.Prelude.{◌≡◌, [], map, Ok, IfOk, IfErr};
ghost use Rattle.std.specs.List.{All};
ghost use Rattle.vtl_values.specs.declared.kind.Role.TheVariants as role;
ghost use Rattle.scalar_trees.specs.typing.Steps.{Refuses};
ghost use Rattle.data_set_trees.specs.Components as parts;
ghost use Rattle.data_set_parts.specs.Joins.{IsOf};
ghost use Rattle.set_typing.specs.Conditionals as own;

use data_set_parts::components::{further, identifiers, virals};
use data_set_parts::joins::{by_parts, made_measure};
use data_set_parts::results::fitting;
use data_set_trees::ChoiceMeasure;
use scalar_trees::typing::TypeStop;
use sqlite_items::Items;
use std::alloc::{AllocError, Global};
use vtl_values::{Component, Place, Structure};

fn item_components(alloc: Global, items: &[ChoiceMeasure]) -> Result<Items<Component>, AllocError>
    ensures { IfOk result (λ all. all ≡ map own.item_component items.now) }
{
    let mut all = Items::new(alloc);
    for item in items {
        all.push(made_measure(item.kind, &item.name)?)?;
    }
    Ok(all)
}

pub(crate) fn identifiers_of(
    alloc: Global,
    structure: &Structure,
) -> Result<Items<Component>, AllocError>
    ensures value { IfOk result (λ all. all ≡ parts.identifiers structure.now) }
    ensures sound { IfOk result (λ all. All (IsOf role.Identifier) all) }
{
    identifiers(alloc, structure.components())
}

/// The identifiers of the first data set. Or want of memory.
fn first_identifiers(
    alloc: Global,
    structures: &[Structure],
) -> Result<Items<Component>, AllocError>
    ensures value { IfOk result (λ all. all ≡ own.first_identifiers structures.now) }
    ensures sound { IfOk result (λ all. All (IsOf role.Identifier) all) }
{
    match structures {
        [] => Ok(Items::new(alloc)),
        [structure, ..] => identifiers_of(alloc, structure),
    }
}

pub(crate) fn virals_of(
    alloc: Global,
    structure: &Structure,
) -> Result<Items<Component>, AllocError>
    ensures value { IfOk result (λ all. all ≡ parts.virals structure.now) }
    ensures sound { IfOk result (λ all. All (IsOf role.Viral) all) }
{
    virals(alloc, structure.components())
}

/// The viral attributes of one more data set.
pub(crate) fn more_virals(
    alloc: Global,
    before: &[Component],
    structure: &Structure,
) -> Result<Items<Component>, AllocError>
    ensures value { IfOk result (λ more. more ≡ parts.further before.now (parts.virals structure.now)) }
    ensures sound { IfOk result (λ more. All (IsOf role.Viral) more) }
{
    let theirs = virals(alloc, structure.components())?;
    further(alloc, before, theirs.as_slice())
}

/// The viral attributes of the data sets, each where it stands first. Or want of memory.
fn all_virals(alloc: Global, structures: &[Structure]) -> Result<Items<Component>, AllocError>
    ensures value { IfOk result (λ all. all ≡ own.all_virals [] structures.now) }
    ensures sound { IfOk result (λ all. All (IsOf role.Viral) all) }
{
    let mut all = Items::new(alloc);
    for structure in structures {
        let more = more_virals(alloc, all.as_slice(), structure)?;
        all.append(more)?;
    }
    Ok(all)
}

/// The identifiers of the condition, these measures, and the viral attributes of all data sets, of which the condition is
/// the first; `NameTwice` where a name would stand twice, else `TooManyComponents`, or want of memory.
pub(crate) fn structure_with(
    alloc: Global,
    place: Place,
    items: &[ChoiceMeasure],
    structures: &[Structure],
) -> Result<Structure, TypeStop>
    ensures ok { IfOk result (λ made. own.structure_with place items.now structures.now ≡ Ok made) }
    ensures err { IfErr result (Refuses (own.structure_with place items.now structures.now)) }
{
    let staying = first_identifiers(alloc, structures)?;
    let measures = item_components(alloc, items)?;
    let attributes = all_virals(alloc, structures)?;
    let all = by_parts(alloc, staying.as_slice(), measures, attributes)?;
    fitting(alloc, place, all.as_slice())
}
