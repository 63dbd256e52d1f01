// What is kept of the operands.
ghost use Rattle.std.specs.Prelude.{◌≡◌, ◌≤◌, ◌-◌, map, IfOk};
ghost use Rattle.std.specs.List.{range_with_len};
ghost use Rattle.data_set_trees.specs.Components as components;
ghost use Rattle.data_set_trees.specs.Joins.{join_identifiers};
ghost use Rattle.operator_meaning.specs.joins.Joins as meant;
ghost use Rattle.join_eval.specs.Plans as plans;

use crate::components::{identifiers, includes_all, measure_numbers, numbers_among, others};
use sqlite_items::Items;
use std::alloc::{AllocError, Global};
use vtl_syntax::words::JoinFunction;
use vtl_values::{Component, Structure};

/// By which numbers a key of the operand becomes one of the join, whether the operand has all identifiers, and where its
/// measures stand among the values after the key.
#[derive(Drop)]
pub(crate) struct Side {
    pub(crate) join_numbers: Items<u64>,
    pub(crate) is_whole: bool,
    pub(crate) measures: Items<u64>,
}

/// The numbers from one on, up to another.
fn run(alloc: Global, from: usize, to: usize) -> Result<Items<u64>, AllocError>
    requires { from ≤ to }
    ensures { IfOk result (λ numbers. numbers ≡ range_with_len from (to - from)) }
{
    let mut numbers = Items::new(alloc);
    for number in from..to {
        numbers.push(number as u64)?;
    }
    Ok(numbers)
}

/// Runs of numbers, each as long as the keys of an operand.
fn runs(alloc: Global, operands: &[Structure]) -> Result<Items<Items<u64>>, AllocError>
    ensures { IfOk result (λ all. all ≡ meant.runs 0 operands.now) }
{
    let mut all = Items::new(alloc);
    let mut before = Items::new(alloc);
    for operand in operands {
        let from = before.len();
        before.append(identifiers(alloc, operand.components())?)?;
        all.push(run(alloc, from, before.len())?)?;
    }
    Ok(all)
}

/// The numbers of each operand's identifiers among those of the join.
fn each_places(
    alloc: Global,
    keys: &[Component],
    operands: &[Structure],
) -> Result<Items<Items<u64>>, AllocError>
    ensures { IfOk result (λ all. all ≡ map (λ s. meant.numbers_among keys.now (components.identifiers s)) operands.now) }
{
    let mut all = Items::new(alloc);
    for operand in operands {
        let theirs = identifiers(alloc, operand.components())?;
        all.push(numbers_among(alloc, keys, theirs.as_slice())?)?;
    }
    Ok(all)
}

/// The numbers of each operand's identifiers in a key of the join.
pub(crate) fn own_places(
    alloc: Global,
    function: JoinFunction,
    keys: &[Component],
    operands: &[Structure],
) -> Result<Items<Items<u64>>, AllocError>
    requires { keys.now ≡ join_identifiers function operands.now }
    ensures { IfOk result (λ all. all ≡ plans.places_in function operands.now) }
{
    match function {
        JoinFunction::Cross => runs(alloc, operands),
        JoinFunction::Inner => each_places(alloc, keys, operands),
        JoinFunction::Left => each_places(alloc, keys, operands),
        JoinFunction::Full => each_places(alloc, keys, operands),
    }
}

fn side_of(
    alloc: Global,
    keys: &[Component],
    operands: &[Structure],
    operand: &Structure,
) -> Result<Side, AllocError>
    ensures { IfOk result (λ side. side ≡ plans.side_of keys.now operands.now operand.now) }
{
    let theirs = identifiers(alloc, operand.components())?;
    let rest = others(alloc, operand.components())?;
    Ok(Side {
        join_numbers: numbers_among(alloc, theirs.as_slice(), keys)?,
        is_whole: includes_all(operands, operand),
        measures: measure_numbers(alloc, rest.as_slice())?,
    })
}

/// What is kept of each operand.
pub(crate) fn sides_of(
    alloc: Global,
    keys: &[Component],
    operands: &[Structure],
) -> Result<Items<Side>, AllocError>
    ensures { IfOk result (λ sides. sides ≡ map (plans.side_of keys.now operands.now) operands.now) }
{
    let mut sides = Items::new(alloc);
    for operand in operands {
        sides.push(side_of(alloc, keys, operands, operand)?)?;
    }
    Ok(sides)
}
