// Operators on the data sets among their operands.
ghost use Rattle.std.specs.Prelude.{◌≡◌, ◌∷◌, [], IfOk};
ghost use Rattle.data_set_trees.specs.declared.operand.Operand.TheVariants as operand;
ghost use Rattle.data_set_trees.specs.Trees as meant;

use data_set_parts::nodes;
use data_set_trees::{DataSetOperator, Operand};
use sqlite_items::Items;
use std::alloc::{AllocError, Global};
use vtl_values::{Place, Structure};

/// Both, in this order. Or want of memory.
pub(crate) fn two(
    alloc: Global,
    first: Operand,
    second: Operand,
) -> Result<Items<Operand>, AllocError>
    ensures { IfOk result (λ all. all ≡ first ∷ second ∷ []) }
{
    let mut all = Items::new(alloc);
    all.push(first)?;
    all.push(second)?;
    Ok(all)
}

/// The operator at its place on the data sets among the operands, with the structure of its result. Or want of memory.
pub(crate) fn applied(
    alloc: Global,
    operator: DataSetOperator,
    place: Place,
    operands: Items<Operand>,
    structure: Structure,
) -> Result<Operand, AllocError>
    ensures { IfOk result (λ o. o ≡ operand.DataSet (meant.applied operator place (meant.data_sets operands) structure)) }
{
    let sets = nodes::data_sets(alloc, operands)?;
    Ok(Operand::DataSet(nodes::applied(alloc, operator, place, sets, structure)?))
}
