// Clauses and other operators on one data set.
ghost use Rattle.std.specs.Prelude.{◌≡◌, ◌∷◌, [], IfOk};
ghost use Rattle.vtl_values.specs.Structures.{IsStructure};
ghost use Rattle.data_set_trees.specs.Trees as meant;
ghost use Rattle.data_set_parts.specs.Results as own;

use crate::nodes::applied;
use crate::results::listed_unlisted;
use clause_typing::components_after;
use data_set_trees::clauses::CheckedClause;
use data_set_trees::{DataSet, DataSetOperator};
use sqlite_items::Items;
use std::alloc::{AllocError, Global};
use vtl_values::{Place, Structure};

/// What a clause leaves of a data set's structure, where that is one. Or want of memory.
pub fn structure_after(
    alloc: Global,
    clause: &CheckedClause,
    structure: &Structure,
) -> Result<Structure, AllocError>
    requires { IsStructure (own.structure_after clause.now structure.now) }
    ensures { IfOk result (λ after. after ≡ own.structure_after clause.now structure.now) }
{
    let after = components_after(alloc, clause, structure.components())?;
    let list = listed_unlisted(alloc, after.as_slice())?;
    Structure::of(alloc, list)
}

fn one_set(alloc: Global, set: DataSet) -> Result<Items<DataSet>, AllocError>
    ensures { IfOk result (λ sets. sets ≡ set ∷ []) }
{
    let mut sets = Items::new(alloc);
    sets.push(set)?;
    Ok(sets)
}

/// An operator at its place on one data set, with the structure of its result. Or want of memory.
pub fn on_one(
    alloc: Global,
    operator: DataSetOperator,
    place: Place,
    set: DataSet,
    structure: Structure,
) -> Result<DataSet, AllocError>
    ensures { IfOk result (λ after. after ≡ meant.applied operator place (set ∷ []) structure) }
{
    let sets = one_set(alloc, set)?;
    applied(alloc, operator, place, sets, structure)
}

/// The clause at its place on a data set, where what it leaves is a structure. Or want of memory.
pub fn with_clause(
    alloc: Global,
    clause: CheckedClause,
    place: Place,
    set: DataSet,
) -> Result<DataSet, AllocError>
    requires { IsStructure (own.structure_after clause set.structure) }
    ensures { IfOk result (λ after. after ≡ meant.with_clause clause place set) }
{
    let sets = one_set(alloc, set)?;
    let structure = structure_after(alloc, &clause, &sets.as_slice()[0].structure)?;
    applied(
        alloc,
        DataSetOperator::Clause(clause),
        place,
        sets,
        structure,
    )
}
