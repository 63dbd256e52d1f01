// The structures of results.
ghost use Rattle.std.specs.Prelude.{◌≡◌, true, Ok, length, map, nat_le, IfOk, IfErr};
ghost use Rattle.vtl_values.specs.Structures.{IsStructure};
ghost use Rattle.scalar_trees.specs.typing.Steps.{Refuses};
ghost use Rattle.data_set_trees.specs.Components as parts;
ghost use Rattle.data_set_trees.specs.Pairs as meant;
ghost use Rattle.data_set_trees.specs.clauses.Clauses as clauses;

use crate::components::{names_differ, unlisted};
use crate::demands::demands;
use scalar_trees::typing::{Fault, TypeStop};
use std::alloc::{AllocError, Global};
use vtl_values::{Component, Place, Structure};

/// The same components, to make a structure of.
pub fn listed(alloc: Global, components: &[Component]) -> Result<Vec<Component>, AllocError>
    ensures { IfOk result (λ list. list.items ≡ components.now) }
{
    let mut list = Vec::new(alloc);
    for component in components {
        list.push(component.copy()?)?;
    }
    Ok(list)
}

/// The components without their code lists, to make a structure of.
pub fn listed_unlisted(
    alloc: Global,
    components: &[Component],
) -> Result<Vec<Component>, AllocError>
    ensures { IfOk result (λ list. list.items ≡ map parts.unlisted components.now) }
{
    let mut list = Vec::new(alloc);
    for component in components {
        list.push(unlisted(component)?)?;
    }
    Ok(list)
}

/// The structure of a result with these components, which lose their code lists, viral attributes aside. Or want of memory.
pub fn plain(alloc: Global, components: &[Component]) -> Result<Structure, AllocError>
    requires { IsStructure components.now }
    ensures { IfOk result (λ plain. plain ≡ map parts.unlisted components.now) }
{
    let list = listed_unlisted(alloc, components)?;
    Structure::of(alloc, list)
}

/// A structure without its code lists, viral attributes aside. Or want of memory.
pub fn without_codes(alloc: Global, structure: &Structure) -> Result<Structure, AllocError>
    ensures { IfOk result (λ plain. plain ≡ map parts.unlisted structure.now) }
{
    plain(alloc, structure.components())
}

const MOST_COMPONENTS: usize = 64;

/// Whether a result may have so many components.
pub fn has_room(components: &[Component]) -> bool
    ensures { result ≡ nat_le (length components.now) clauses.MOST_COMPONENTS }
{
    components.len() <= MOST_COMPONENTS
}

/// A result has each name once, else `NameTwice`, and at most so many components, else `TooManyComponents`. Or want of
/// memory.
fn result_fits(place: Place, components: &[Component]) -> Result<(), TypeStop>
    ensures ok { IfOk result (λ met. meant.result_fits place components.now ≡ Ok met) }
    ensures err { IfErr result (Refuses (meant.result_fits place components.now)) }
{
    demands(
        place,
        &[
            (names_differ(components), Fault::NameTwice),
            (has_room(components), Fault::TooManyComponents),
        ],
    )
}

/// The structure of a result with these components, which are one if their names differ; `NameTwice` where a name stands
/// twice, else `TooManyComponents`, or want of memory.
pub fn fitting(alloc: Global, place: Place, components: &[Component]) -> Result<Structure, TypeStop>
    requires { parts.names_differ components.now ≡ true → IsStructure components.now }
    ensures fits { IfOk result (λ structure. meant.result_fits place components.now ≡ Ok tt) }
    ensures ok { IfOk result (λ structure. structure ≡ components.now) }
    ensures err { IfErr result (Refuses (meant.result_fits place components.now)) }
{
    result_fits(place, components)?;
    let list = listed(alloc, components)?;
    Ok(Structure::of(alloc, list)?)
}
