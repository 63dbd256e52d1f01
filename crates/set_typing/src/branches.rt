// The measures of a conditional on data sets.
ghost use Rattle.std.specs.Prelude.{◌≡◌, find, option_map, Ok, IfOk, IfErr};
ghost use Rattle.scalar_trees.specs.typing.Steps.{Refuses};
ghost use Rattle.data_set_trees.specs.Choices as meant;
ghost use Rattle.data_set_trees.specs.Lifted as lifted;
ghost use Rattle.data_set_trees.specs.Pairs as pairs;
ghost use Rattle.data_set_parts.specs.Walks as walks;
ghost use Rattle.set_typing.specs.Conditionals as own;

use crate::agreement::demanded_of;
use data_set_parts::components::measures;
use data_set_parts::copies::copy_typed;
use data_set_parts::measures::{is_called, slot_of, stands};
use data_set_trees::{ChoiceMeasure, DataSet, Measure, Operand};
use operator_typing::{Agreed, agreeing};
use scalar_trees::any_kind;
use scalar_trees::typing::{Slot, TypeStop, Typed};
use sqlite_items::Items;
use std::alloc::{AllocError, Global};
use vtl_values::{Place, Structure, Word};

/// The first measure of this name as the component that it is, if there is one.
fn slot_named(name: &Word, measures: &[Measure]) -> Option<Slot>
    ensures { result ≡ option_map lifted.slot_of (find (pairs.is_called name.now) measures.now) }
{
    for measure in measures {
        if is_called(name, measure) {
            return Some(slot_of(measure));
        }
    }
    None
}

fn in_set(alloc: Global, name: &Word, set: &DataSet) -> Result<Typed, AllocError>
    ensures { IfOk result (λ t. t ≡ own.in_set name.now set.now) }
{
    let measures = measures(alloc, set.structure.components())?;
    Ok(stands(slot_named(name, measures.as_slice())))
}

/// What a branch has of a measure: the value of its measure of that name, or the scalar. Or want of memory.
fn in_branch(alloc: Global, name: &Word, branch: &Operand) -> Result<Typed, AllocError>
    ensures { IfOk result (λ t. t ≡ meant.in_branch name.now branch.now) }
{
    match branch {
        Operand::Scalar(typed) => copy_typed(alloc, typed),
        Operand::DataSet(set) => in_set(alloc, name, set),
    }
}

fn named(name: Word, agreed: Agreed) -> ChoiceMeasure
    ensures { result ≡ record { name = name; kind = agreed.kind; holds = agreed.left; fails = agreed.right } }
{
    let Agreed { kind, left, right } = agreed;
    ChoiceMeasure {
        name,
        kind,
        holds: left.into_inner(),
        fails: right.into_inner(),
    }
}

fn choice_measure(
    alloc: Global,
    place: Place,
    holds: &Operand,
    fails: &Operand,
    measure: &Measure,
) -> Result<ChoiceMeasure, TypeStop>
    ensures ok { IfOk result (λ m. meant.choice_measure place holds.now fails.now measure.now ≡ Ok m) }
    ensures err { IfErr result (Refuses (meant.choice_measure place holds.now fails.now measure.now)) }
{
    let name = measure.name.copy()?;
    let left = in_branch(alloc, &measure.name, holds)?;
    let right = in_branch(alloc, &measure.name, fails)?;
    let agreed = agreeing(alloc, place, any_kind(), left, right)?;
    Ok(named(name, agreed))
}

fn choice_measures(
    alloc: Global,
    place: Place,
    holds: &Operand,
    fails: &Operand,
    measures: &[Measure],
) -> Result<Items<ChoiceMeasure>, TypeStop>
    ensures ok { IfOk result (λ all. walks.each (meant.choice_measure place holds.now fails.now) measures.now ≡ Ok all) }
    ensures err { IfErr result (Refuses (walks.each (meant.choice_measure place holds.now fails.now) measures.now)) }
{
    let mut all = Items::new(alloc);
    for measure in measures {
        all.push(choice_measure(alloc, place, holds, fails, measure)?)?;
    }
    Ok(all)
}

/// The measures of the first branch that is a data set. Or want of memory.
fn first_measures(alloc: Global, branches: &[Structure]) -> Result<Items<Measure>, AllocError>
    ensures { IfOk result (λ all. all ≡ own.first_measures branches.now) }
{
    match branches {
        [] => Ok(Items::new(alloc)),
        [structure, ..] => measures(alloc, structure.components()),
    }
}

/// The measures of the first branch that is a data set, with what they are in each branch; where the demands are met, else
/// the fault of the first that isn't. Or want of memory.
pub(crate) fn items_of(
    alloc: Global,
    place: Place,
    condition: &Operand,
    holds: &Operand,
    fails: &Operand,
    branches: &[Structure],
) -> Result<Items<ChoiceMeasure>, TypeStop>
    ensures ok { IfOk result (λ all. own.items_of place condition.now holds.now fails.now branches.now ≡ Ok all) }
    ensures err { IfErr result (Refuses (own.items_of place condition.now holds.now fails.now branches.now)) }
{
    demanded_of(alloc, place, condition, holds, fails, branches)?;
    let measures = first_measures(alloc, branches)?;
    choice_measures(alloc, place, holds, fails, measures.as_slice())
}
