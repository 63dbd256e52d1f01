// Operators with their operands.
ghost use Rattle.std.specs.Prelude.{◌≡◌, ◌∷◌, [], ◌++◌, map, IfOk, OnOk, MatchOption};
ghost use Rattle.data_set_trees.specs.declared.operand.DataSet.{DataSet};
ghost use Rattle.data_set_trees.specs.Trees as meant;
ghost use Rattle.data_set_parts.specs.Results as own;

use data_set_trees::{DataSet, DataSetNode, DataSetOperator, DataSetTree, Operand, SharedOperator};
use sqlite_items::Items;
use std::alloc::{AllocError, Global};
use vtl_values::{Place, Structure};

/// Takes the first item, if there is one.
fn take_set(items: &mut Items<DataSet>) -> Option<DataSet>
    ensures { MatchOption result ((items.old ≡ []) × (items.new ≡ [])) (λ first. items.old ≡ first ∷ items.new) }
{
    if items.len() == 0 {
        return None;
    }
    Some(items.remove(0))
}

fn take_operand(items: &mut Items<Operand>) -> Option<Operand>
    ensures { MatchOption result ((items.old ≡ []) × (items.new ≡ [])) (λ first. items.old ≡ first ∷ items.new) }
{
    if items.len() == 0 {
        return None;
    }
    Some(items.remove(0))
}

/// Data sets by parts.
#[derive(Drop)]
struct Parts {
    trees: Items<DataSetTree>,
    structures: Items<Structure>,
}

impl Parts {
    /// None yet, with room for this many.
    fn with_capacity(alloc: Global, capacity: usize) -> Result<Parts, AllocError>
        ensures trees { IfOk result (λ parts. parts.trees ≡ []) }
        ensures structures { IfOk result (λ parts. parts.structures ≡ []) }
    {
        Ok(Parts {
            trees: Items::from_vec(Vec::with_capacity(alloc, capacity)?),
            structures: Items::from_vec(Vec::with_capacity(alloc, capacity)?),
        })
    }

    fn push(&mut self, set: DataSet) -> Result<(), AllocError>
        ensures trees { OnOk result (self.new.trees ≡ self.old.trees ++ set.tree ∷ []) }
        ensures structures { OnOk result (self.new.structures ≡ self.old.structures ++ set.structure ∷ []) }
    {
        let DataSet { tree, structure } = set;
        self.trees.push(tree)?;
        self.structures.push(structure)
    }
}

fn parted(alloc: Global, mut sets: Items<DataSet>) -> Result<Parts, AllocError>
    ensures trees { IfOk result (λ parts. parts.trees ≡ map (λ (d : DataSet). d.tree) sets) }
    ensures structures { IfOk result (λ parts. parts.structures ≡ map (λ (d : DataSet). d.structure) sets) }
{
    let mut parts = Parts::with_capacity(alloc, sets.len())?;
    while let Some(set) = take_set(&mut sets) {
        parts.push(set)?;
    }
    Ok(parts)
}

/// The data sets among the operands.
fn parted_among(alloc: Global, mut operands: Items<Operand>) -> Result<Parts, AllocError>
    ensures trees { IfOk result (λ parts. parts.trees ≡ map (λ (d : DataSet). d.tree) (meant.data_sets operands)) }
    ensures structures { IfOk result (λ parts. parts.structures ≡ map (λ (d : DataSet). d.structure) (meant.data_sets operands)) }
{
    let mut parts = Parts::with_capacity(alloc, operands.len())?;
    while let Some(operand) = take_operand(&mut operands) {
        if let Operand::DataSet(set) = operand {
            parts.push(set)?;
        }
    }
    Ok(parts)
}

/// A shared operator at its place on data sets by parts, with the structure of its result twice.
fn node_of(
    operator: SharedOperator,
    place: Place,
    parts: Parts,
    structure: Structure,
    copy: Structure,
) -> DataSet
    requires { copy ≡ structure }
    ensures { result ≡ own.node_of operator place parts.trees parts.structures structure }
{
    let Parts { trees, structures } = parts;
    DataSet {
        tree: DataSetTree::Operator(DataSetNode {
            operator,
            place,
            children: trees,
            operands: structures,
            structure: copy,
        }),
        structure,
    }
}

/// A shared operator at its place on the data sets among the operands, with the structure of its result. Or want of memory.
/// It costs their number.
pub fn applied_shared(
    alloc: Global,
    operator: SharedOperator,
    place: Place,
    operands: Items<Operand>,
    structure: Structure,
) -> Result<DataSet, AllocError>
    ensures { IfOk result (λ set. set ≡ meant.applied operator place (meant.data_sets operands) structure) }
{
    let parts = parted_among(alloc, operands)?;
    let copy = structure.copy()?;
    Ok(node_of(operator, place, parts, structure, copy))
}

/// An operator at its place on these data sets, with the structure of its result. Or want of memory. It costs their
/// number.
pub fn applied(
    alloc: Global,
    operator: DataSetOperator,
    place: Place,
    operands: Items<DataSet>,
    structure: Structure,
) -> Result<DataSet, AllocError>
    ensures { IfOk result (λ set. set ≡ meant.applied operator place operands structure) }
{
    let operator = SharedOperator::of(alloc, operator)?;
    let parts = parted(alloc, operands)?;
    let copy = structure.copy()?;
    Ok(node_of(operator, place, parts, structure, copy))
}

fn push_set(sets: &mut Items<DataSet>, operand: Operand) -> Result<(), AllocError>
    ensures { OnOk result (sets.new ≡ sets.old ++ meant.data_sets (operand ∷ [])) }
{
    match operand {
        Operand::DataSet(set) => sets.push(set),
        Operand::Scalar(_) => Ok(()),
    }
}

/// The data sets among the operands, in their order. Or want of memory.
pub fn data_sets(alloc: Global, mut operands: Items<Operand>) -> Result<Items<DataSet>, AllocError>
    ensures { IfOk result (λ sets. sets ≡ meant.data_sets operands) }
{
    let mut sets = Items::from_vec(Vec::with_capacity(alloc, operands.len())?);
    while let Some(operand) = take_operand(&mut operands) {
        push_set(&mut sets, operand)?;
    }
    Ok(sets)
}

/// The structures of the data sets among the operands, in their order. Or want of memory.
pub fn structures_of(alloc: Global, operands: &[Operand]) -> Result<Items<Structure>, AllocError>
    ensures { IfOk result (λ found. found ≡ own.structures_of operands.now) }
{
    let mut found = Items::new(alloc);
    for operand in operands {
        if let Operand::DataSet(set) = operand {
            found.push(set.structure.copy()?)?;
        }
    }
    Ok(found)
}
