// Set operators on data sets.
ghost use Rattle.std.specs.Prelude.{◌≡◌, ◌∷◌, Ok, IfOk, IfErr};
ghost use Rattle.std.specs.List.{list_all};
ghost use Rattle.scalar_trees.specs.typing.Steps.{Refuses};
ghost use Rattle.data_set_trees.specs.Components as parts;
ghost use Rattle.data_set_trees.specs.Sets as meant;
ghost use Rattle.set_typing.specs.Plans as own;

use crate::applying::applied;
use data_set_parts::components::are_alike;
use data_set_parts::results::without_codes;
use data_set_trees::{DataSetOperator, Operand, SetOperation};
use scalar_trees::typing::{Fault, TypeStop, demand};
use sqlite_items::Items;
use std::alloc::{AllocError, Global};
use vtl_values::{Place, Structure};

/// The structures of the operands, where all are data sets. Or want of memory.
pub(crate) fn all_structures(
    alloc: Global,
    operands: &[Operand],
) -> Result<Option<Items<Structure>>, AllocError>
    ensures { IfOk result (λ found. found ≡ own.all_structures operands.now) }
{
    let mut found = Items::new(alloc);
    for operand in operands {
        match operand {
            Operand::DataSet(set) => found.push(set.structure.copy()?)?,
            Operand::Scalar(_) => return Ok(None),
        }
    }
    Ok(Some(found))
}

fn is_alike(structure: &Structure, other: &Structure) -> bool
    ensures { result ≡ parts.are_alike structure.now other.now }
{
    are_alike(structure.components(), other.components())
}

/// Whether the others are of the first one's structure.
pub(crate) fn all_alike(structure: &Structure, others: &[Structure]) -> bool
    ensures { result ≡ list_all (parts.are_alike structure.now) others.now }
{
    others.iter().all(|other| is_alike(structure, other))
}

fn set_on_first(
    alloc: Global,
    place: Place,
    structure: &Structure,
    others: &[Structure],
) -> Result<Structure, TypeStop>
    ensures ok { IfOk result (λ made. own.set_on place (structure.now ∷ others.now) ≡ Ok made) }
    ensures err { IfErr result (Refuses (own.set_on place (structure.now ∷ others.now))) }
{
    demand(all_alike(structure, others), Fault::WrongStructure, place)?;
    Ok(without_codes(alloc, structure)?)
}

fn set_on(alloc: Global, place: Place, structures: &[Structure]) -> Result<Structure, TypeStop>
    ensures ok { IfOk result (λ made. own.set_on place structures.now ≡ Ok made) }
    ensures err { IfErr result (Refuses (own.set_on place structures.now)) }
{
    match structures {
        [] => Err(TypeStop::at(Fault::WrongStructure, place)),
        [structure, others @ ..] => set_on_first(alloc, place, structure, others),
    }
}

/// The structure of the result, where all operands are data sets.
fn sets_planned(alloc: Global, place: Place, operands: &[Operand]) -> Result<Structure, TypeStop>
    ensures ok { IfOk result (λ made. own.sets_planned place operands.now ≡ Ok made) }
    ensures err { IfErr result (Refuses (own.sets_planned place operands.now)) }
{
    match all_structures(alloc, operands)? {
        Some(structures) => set_on(alloc, place, structures.as_slice()),
        None => Err(TypeStop::at(Fault::WrongStructure, place)),
    }
}

/// `union(a, b, ..)` and its like at its place, of the first data set's structure. Or its first fault: `WrongStructure` where
/// there is no operand, one is a scalar, or one is of another structure than the first, whatever the order of its
/// components. Or want of memory. It costs the square of the number of components, for each operand.
pub fn sets(
    alloc: Global,
    operation: SetOperation,
    place: Place,
    operands: Items<Operand>,
) -> Result<Operand, TypeStop>
    ensures ok { IfOk result (λ o. meant.sets_typed operation place operands ≡ Ok o) }
    ensures err { IfErr result (Refuses (meant.sets_typed operation place operands)) }
{
    let structure = sets_planned(alloc, place, operands.as_slice())?;
    let operator = DataSetOperator::Set(operation);
    Ok(applied(alloc, operator, place, operands, structure)?)
}
