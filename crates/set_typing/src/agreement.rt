// What is demanded of a conditional on data sets.
ghost use Rattle.std.specs.Prelude.{◌≡◌, ◌&&◌, ◌∷◌, [], Some, is_some, length, nat_eq, Ok, IfOk, IfErr};
ghost use Rattle.std.specs.List.{list_all};
ghost use Rattle.scalar_trees.specs.Kinds as kinds;
ghost use Rattle.scalar_trees.specs.typing.Steps.{Refuses};
ghost use Rattle.data_set_trees.specs.Components as parts;
ghost use Rattle.data_set_trees.specs.Choices as meant;
ghost use Rattle.set_typing.specs.Conditionals as own;

use crate::collections::all_alike;
use data_set_parts::components::{identifiers, include, measures, virals_agree};
use data_set_parts::demands::demands;
use data_set_trees::{DataSet, Measure, Operand};
use scalar_trees::typing::{Fault, TypeStop, Typed};
use scalar_trees::{agreed, any_kind};
use std::alloc::{AllocError, Global};
use vtl_values::{Component, Kind, Place, Structure};

/// Whether there is a kind at which both may stand.
fn agree(first: Option<Kind>, second: Option<Kind>) -> bool
    ensures { result ≡ is_some (kinds.agreed kinds.ANY (first ∷ second ∷ [])) }
{
    agreed(any_kind(), &[first, second]).is_some()
}

/// Whether it can stand where a boolean is wanted.
fn is_truth(kind: Option<Kind>) -> bool
    ensures { result ≡ meant.is_truth kind }
{
    agreed(&[Kind::Truth], &[kind]).is_some()
}

fn are_truths(measures: &[Measure]) -> bool
    ensures { result ≡ list_all (λ m. meant.is_truth (Some m.kind)) measures.now }
{
    measures.iter().all(|measure| is_truth(Some(measure.kind)))
}

/// Whether the condition is a boolean, or each of its measures is one. Or want of memory.
fn condition_fits(alloc: Global, condition: &Operand) -> Result<bool, AllocError>
    ensures { IfOk result (λ fit. fit ≡ meant.condition_fits condition.now) }
{
    match condition {
        Operand::Scalar(typed) => Ok(is_truth(typed.kind)),
        Operand::DataSet(set) => {
            let measures = measures(alloc, set.structure.components())?;
            Ok(are_truths(measures.as_slice()))
        }
    }
}

/// Whether the scalar agrees with each of these measures.
fn scalar_fits(scalar: &Typed, measures: &[Measure]) -> bool
    ensures { result ≡ meant.scalar_fits scalar.now measures.now }
{
    measures
        .iter()
        .all(|measure| agree(Some(measure.kind), scalar.kind))
}

fn scalar_fits_set(alloc: Global, scalar: &Typed, set: &DataSet) -> Result<bool, AllocError>
    ensures { IfOk result (λ fit. fit ≡ meant.scalar_fits scalar.now (parts.measures set.now.structure)) }
{
    let measures = measures(alloc, set.structure.components())?;
    Ok(scalar_fits(scalar, measures.as_slice()))
}

/// Whether two scalars agree, or a scalar with each measure of the other branch. Or want of memory.
fn branches_fit(alloc: Global, holds: &Operand, fails: &Operand) -> Result<bool, AllocError>
    ensures { IfOk result (λ fit. fit ≡ meant.branches_fit holds.now fails.now) }
{
    match holds {
        Operand::Scalar(holds) => match fails {
            Operand::Scalar(fails) => Ok(agree(holds.kind, fails.kind)),
            Operand::DataSet(fails) => scalar_fits_set(alloc, holds, fails),
        },
        Operand::DataSet(holds) => match fails {
            Operand::Scalar(fails) => scalar_fits_set(alloc, fails, holds),
            Operand::DataSet(_) => Ok(true),
        },
    }
}

/// Whether a branch has the identifiers of the condition, and their viral attributes agree. Or want of memory.
fn belongs(
    alloc: Global,
    condition: &[Component],
    components: &[Component],
) -> Result<bool, AllocError>
    ensures { IfOk result (λ fit. fit ≡ own.belongs condition.now components.now) }
{
    let ours = identifiers(alloc, condition)?;
    let theirs = identifiers(alloc, components)?;
    let virals = virals_agree(alloc, condition, components)?;
    Ok(
        (include(ours.as_slice(), theirs.as_slice()) && include(theirs.as_slice(), ours.as_slice()))
            && virals,
    )
}

fn all_belong(
    alloc: Global,
    condition: &[Component],
    branches: &[Structure],
) -> Result<bool, AllocError>
    ensures { IfOk result (λ fit. fit ≡ list_all (own.belongs condition.now) branches.now) }
{
    for branch in branches {
        if !belongs(alloc, condition, branch.components())? {
            return Ok(false);
        }
    }
    Ok(true)
}

pub(crate) fn has_one_measure(alloc: Global, components: &[Component]) -> Result<bool, AllocError>
    ensures { IfOk result (λ one. one ≡ nat_eq (length (parts.measures components.now)) 1) }
{
    let measures = measures(alloc, components)?;
    Ok(measures.len() == 1)
}

fn are_of_one(structures: &[Structure]) -> bool
    ensures { result ≡ own.of_one structures.now }
{
    match structures {
        [] => true,
        [structure, others @ ..] => all_alike(structure, others),
    }
}

/// Whether the condition has one measure, and the branches belong to it and are of one structure. Or want of memory.
fn belong(
    alloc: Global,
    condition: &[Component],
    branches: &[Structure],
) -> Result<bool, AllocError>
    ensures { IfOk result (λ fit. fit ≡ own.belong condition.now branches.now) }
{
    let one = has_one_measure(alloc, condition)?;
    let all = all_belong(alloc, condition, branches)?;
    Ok((one && all) && are_of_one(branches))
}

fn structures_fit(
    alloc: Global,
    condition: &Operand,
    branches: &[Structure],
) -> Result<bool, AllocError>
    ensures { IfOk result (λ fit. fit ≡ own.structures_fit condition.now branches.now) }
{
    match condition {
        Operand::Scalar(_) => Ok(false),
        Operand::DataSet(set) => match branches {
            [] => Ok(false),
            [_, ..] => belong(alloc, set.structure.components(), branches),
        },
    }
}

fn kinds_fit(
    alloc: Global,
    condition: &Operand,
    holds: &Operand,
    fails: &Operand,
) -> Result<bool, AllocError>
    ensures { IfOk result (λ fit. fit ≡ (meant.condition_fits condition.now && meant.branches_fit holds.now fails.now)) }
{
    let condition = condition_fits(alloc, condition)?;
    let branches = branches_fit(alloc, holds, fails)?;
    Ok(condition && branches)
}

/// What is demanded of the condition and of branches, of which those that are data sets have these structures.
pub(crate) fn demanded_of(
    alloc: Global,
    place: Place,
    condition: &Operand,
    holds: &Operand,
    fails: &Operand,
    branches: &[Structure],
) -> Result<(), TypeStop>
    ensures ok { IfOk result (λ met. own.demanded_of place condition.now holds.now fails.now branches.now ≡ Ok met) }
    ensures err { IfErr result (Refuses (own.demanded_of place condition.now holds.now fails.now branches.now)) }
{
    let fit = kinds_fit(alloc, condition, holds, fails)?;
    let meet = structures_fit(alloc, condition, branches)?;
    demands(
        place,
        &[(fit, Fault::WrongType), (meet, Fault::WrongStructure)],
    )
}
