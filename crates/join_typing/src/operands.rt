// The operands of a join under their aliases.
ghost use Rattle.std.specs.Prelude.{◌≡◌, map, option_map, Ok, IfOk, IfErr};
ghost use Rattle.std.specs.List.{list_all};
ghost use Rattle.scalar_trees.specs.declared.typing.stop.Fault.TheVariants.{WrongStructure};
ghost use Rattle.scalar_trees.specs.typing.Steps.{Refuses, or_refused};
ghost use Rattle.data_set_trees.specs.Sets.{all_data_sets};
ghost use Rattle.data_set_trees.specs.Joins as meant;
ghost use Rattle.join_typing.specs.Joining as own;

use data_set_parts::nodes::data_sets;
use data_set_trees::{DataSet, Operand};
use scalar_trees::typing::{Fault, TypeStop, demand};
use sqlite_items::Items;
use std::alloc::{AllocError, Global};
use vtl_values::{Place, Structure, Word};

/// An operand under its alias.
#[derive(Drop)]
pub(crate) struct Aliased {
    pub(crate) alias: Word,
    pub(crate) structure: Structure,
}

fn is_set(operand: &Operand) -> bool
    ensures { result ≡ own.is_set operand.now }
{
    match operand {
        Operand::DataSet(_) => true,
        Operand::Scalar(_) => false,
    }
}

fn are_sets(operands: &[Operand]) -> bool
    ensures { result ≡ list_all own.is_set operands.now }
{
    operands.iter().all(|operand| is_set(operand))
}

/// The operands, each of which has to be a data set. Or want of memory.
pub(crate) fn all_sets(
    alloc: Global,
    place: Place,
    operands: Items<Operand>,
) -> Result<Items<DataSet>, TypeStop>
    ensures ok { IfOk result (λ sets. or_refused (all_data_sets operands) WrongStructure place ≡ Ok sets) }
    ensures err { IfErr result (Refuses (or_refused (all_data_sets operands) WrongStructure place)) }
{
    demand(are_sets(operands.as_slice()), Fault::WrongStructure, place)?;
    Ok(data_sets(alloc, operands)?)
}

fn under_alias(alias: &Word, set: &DataSet) -> Result<Aliased, AllocError>
    ensures { IfOk result (λ operand. own.aliased operand ≡ record { alias = alias.now; structure = set.now.structure }) }
{
    Ok(Aliased {
        alias: alias.copy()?,
        structure: set.structure.copy()?,
    })
}

/// The data sets under these aliases, where each has one. Or want of memory.
fn under_aliases(
    alloc: Global,
    aliases: &[Option<Word>],
    sets: &[DataSet],
) -> Result<Option<Items<Aliased>>, AllocError>
    ensures { IfOk result (λ found. option_map (map own.aliased) found ≡ meant.all_aliased aliases.now sets.now) }
{
    if aliases.len() != sets.len() {
        return Ok(None);
    }
    let mut found = Items::new(alloc);
    for (i, set) in sets.iter().enumerate() {
        match &aliases[i] {
            Some(alias) => found.push(under_alias(alias, set)?)?,
            None => return Ok(None),
        }
    }
    Ok(Some(found))
}

/// The data sets under their aliases; each has to have one. Or want of memory.
pub(crate) fn all_aliased(
    alloc: Global,
    place: Place,
    aliases: &[Option<Word>],
    sets: &[DataSet],
) -> Result<Items<Aliased>, TypeStop>
    ensures ok { IfOk result (λ all. or_refused (meant.all_aliased aliases.now sets.now) WrongStructure place ≡ Ok (map own.aliased all)) }
    ensures err { IfErr result (Refuses (or_refused (meant.all_aliased aliases.now sets.now) WrongStructure place)) }
{
    match under_aliases(alloc, aliases, sets)? {
        Some(all) => Ok(all),
        None => Err(TypeStop::at(Fault::WrongStructure, place)),
    }
}
