// `if c then a else b`.
ghost use Rattle.std.specs.Prelude.{◌≡◌, ◌∷◌, [], Ok, IfOk, IfErr};
ghost use Rattle.scalar_trees.specs.typing.Steps.{Refuses};
ghost use Rattle.data_set_trees.specs.declared.operand.Operand.TheVariants as operand;
ghost use Rattle.data_set_trees.specs.Choices as meant;
ghost use Rattle.data_set_trees.specs.Trees as trees;
ghost use Rattle.set_typing.specs.Conditionals as own;

use crate::applying::{applied, two};
use crate::branches::items_of;
use crate::chosen::Chosen;
use crate::results::structure_with;
use data_set_parts::nodes::structures_of;
use data_set_trees::{Branch, DataSetOperator, Operand};
use operator_typing::if_typed;
use scalar_trees::typing::{Fault, TypeStop, Typed};
use sqlite_items::Items;
use std::alloc::{AllocError, Global};
use vtl_values::Place;

fn branch_of(operand: &Operand) -> Branch
    ensures { result ≡ meant.branch_of operand.now }
{
    match operand {
        Operand::Scalar(_) => Branch::Scalar,
        Operand::DataSet(_) => Branch::DataSet,
    }
}

/// The condition and then the branches. Or want of memory.
fn three(
    alloc: Global,
    condition: Operand,
    holds: Operand,
    fails: Operand,
) -> Result<Items<Operand>, AllocError>
    ensures { IfOk result (λ all. all ≡ condition ∷ holds ∷ fails ∷ []) }
{
    let mut all = two(alloc, condition, holds)?;
    all.push(fails)?;
    Ok(all)
}

/// What the conditional comes to on these operands.
fn choice_planned(alloc: Global, place: Place, operands: &[Operand]) -> Result<Chosen, TypeStop>
    ensures ok { IfOk result (λ p. own.planned place operands.now ≡ Ok p) }
    ensures err { IfErr result (Refuses (own.planned place operands.now)) }
{
    match operands {
        [condition, holds, fails] => {
            let branches = structures_of(alloc, &operands[1..])?;
            let items = items_of(alloc, place, condition, holds, fails, branches.as_slice())?;
            let all = structures_of(alloc, operands)?;
            let structure = structure_with(alloc, place, items.as_slice(), all.as_slice())?;
            Ok(Chosen { items, structure })
        }
        _ => Err(TypeStop::at(Fault::WrongStructure, place)),
    }
}

/// What was chosen, on the data sets among the operands. Or want of memory.
fn carried_out(
    alloc: Global,
    place: Place,
    holds: Branch,
    fails: Branch,
    chosen: Chosen,
    operands: Items<Operand>,
) -> Result<Operand, AllocError>
    ensures { IfOk result (λ o. o ≡ own.chosen_on place holds fails (trees.data_sets operands) chosen) }
{
    let Chosen { items, structure } = chosen;
    let operator = DataSetOperator::Choice {
        holds,
        fails,
        measures: items,
    };
    applied(alloc, operator, place, operands, structure)
}

/// On three operands of which one at least is a data set.
fn choice_on(
    alloc: Global,
    place: Place,
    condition: Operand,
    holds: Operand,
    fails: Operand,
) -> Result<Operand, TypeStop>
    ensures ok { IfOk result (λ o. meant.choice_on place condition holds fails ≡ Ok o) }
    ensures err { IfErr result (Refuses (meant.choice_on place condition holds fails)) }
{
    let of_holds = branch_of(&holds);
    let of_fails = branch_of(&fails);
    let operands = three(alloc, condition, holds, fails)?;
    let chosen = choice_planned(alloc, place, operands.as_slice())?;
    Ok(carried_out(alloc, place, of_holds, of_fails, chosen, operands)?)
}

fn choice_by_scalars(
    alloc: Global,
    place: Place,
    condition: Typed,
    holds: Typed,
    fails: Operand,
) -> Result<Operand, TypeStop>
    ensures ok { IfOk result (λ o. meant.choice_typed place (operand.Scalar condition) (operand.Scalar holds) fails ≡ Ok o) }
    ensures err { IfErr result (Refuses (meant.choice_typed place (operand.Scalar condition) (operand.Scalar holds) fails)) }
{
    match fails {
        Operand::Scalar(fails) => Ok(Operand::Scalar(if_typed(
            alloc, place, condition, holds, fails,
        )?)),
        Operand::DataSet(fails) => choice_on(
            alloc,
            place,
            Operand::Scalar(condition),
            Operand::Scalar(holds),
            Operand::DataSet(fails),
        ),
    }
}

fn choice_by_scalar(
    alloc: Global,
    place: Place,
    condition: Typed,
    holds: Operand,
    fails: Operand,
) -> Result<Operand, TypeStop>
    ensures ok { IfOk result (λ o. meant.choice_typed place (operand.Scalar condition) holds fails ≡ Ok o) }
    ensures err { IfErr result (Refuses (meant.choice_typed place (operand.Scalar condition) holds fails)) }
{
    match holds {
        Operand::Scalar(holds) => choice_by_scalars(alloc, place, condition, holds, fails),
        Operand::DataSet(holds) => choice_on(
            alloc,
            place,
            Operand::Scalar(condition),
            Operand::DataSet(holds),
            fails,
        ),
    }
}

/// `if condition then holds else fails` at its place: a scalar where all three are, as on components, else a data set. Or
/// its first fault: `WrongType` where the condition or one of its measures is no boolean, or a scalar branch doesn't agree
/// with the other branch; else `WrongStructure` where the condition is no data set of one measure, no branch is a data set,
/// or one that is has other identifiers than the condition, viral attributes that don't agree with it, or another structure
/// than the other branch; else `NameTwice` where a name would stand twice in the result; else `TooManyComponents`. Or want
/// of memory. It costs the number of measures times the size of the scalar branches, and the square of the number of
/// components.
pub fn choice(
    alloc: Global,
    place: Place,
    condition: Operand,
    holds: Operand,
    fails: Operand,
) -> Result<Operand, TypeStop>
    ensures ok { IfOk result (λ o. meant.choice_typed place condition holds fails ≡ Ok o) }
    ensures err { IfErr result (Refuses (meant.choice_typed place condition holds fails)) }
{
    match condition {
        Operand::Scalar(condition) => choice_by_scalar(alloc, place, condition, holds, fails),
        Operand::DataSet(condition) => choice_on(
            alloc,
            place,
            Operand::DataSet(condition),
            holds,
            fails,
        ),
    }
}
