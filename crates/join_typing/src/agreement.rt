// What the operands of a join have to have in common.
ghost use Rattle.std.specs.Prelude.{◌≡◌, map, IfOk};
ghost use Rattle.std.specs.List.{list_any, list_all};
ghost use Rattle.data_set_trees.specs.Components as parts;
ghost use Rattle.data_set_trees.specs.Joins as meant;
ghost use Rattle.join_typing.specs.Joining as own;

use data_set_parts::components::{identifiers, include, virals_agree};
use sqlite_items::Items;
use std::alloc::{AllocError, Global};
use vtl_syntax::words::JoinFunction;
use vtl_values::{Component, Structure};

/// The identifiers of each structure. Or want of memory.
fn each_identifiers(
    alloc: Global,
    structures: &[Structure],
) -> Result<Items<Items<Component>>, AllocError>
    ensures { IfOk result (λ all. all ≡ map parts.identifiers structures.now) }
{
    let mut all = Items::new(alloc);
    for structure in structures {
        all.push(identifiers(alloc, structure.components())?)?;
    }
    Ok(all)
}

fn includes_each(one: &Items<Component>, all: &[Items<Component>]) -> bool
    ensures { result ≡ list_all (parts.include one.now) all.now }
{
    all.iter()
        .all(|other| include(one.as_slice(), other.as_slice()))
}

fn one_includes_each(all: &[Items<Component>]) -> bool
    ensures { result ≡ list_any (λ s. list_all (parts.include s) all.now) all.now }
{
    all.iter().any(|one| includes_each(one, all))
}

fn each_includes_each(all: &[Items<Component>]) -> bool
    ensures { result ≡ list_all (λ s. list_all (parts.include s) all.now) all.now }
{
    all.iter().all(|one| includes_each(one, all))
}

/// Whether the operands, of which these are the identifiers, have those that the join wants.
fn lists_fit(function: JoinFunction, all: &[Items<Component>]) -> bool
    ensures { result ≡ own.lists_fit function all.now }
{
    match function {
        JoinFunction::Inner => one_includes_each(all),
        JoinFunction::Left => each_includes_each(all),
        JoinFunction::Full => each_includes_each(all),
        JoinFunction::Cross => true,
    }
}

/// Whether the operands have the identifiers that the join wants. Or want of memory.
fn identifiers_fit(
    alloc: Global,
    function: JoinFunction,
    structures: &[Structure],
) -> Result<bool, AllocError>
    ensures { IfOk result (λ fit. fit ≡ meant.identifiers_fit function structures.now) }
{
    let all = each_identifiers(alloc, structures)?;
    Ok(lists_fit(function, all.as_slice()))
}

fn agrees_with_each(
    alloc: Global,
    structure: &Structure,
    others: &[Structure],
) -> Result<bool, AllocError>
    ensures { IfOk result (λ agree. agree ≡ list_all (parts.virals_agree structure.now) others.now) }
{
    for other in others {
        if !virals_agree(alloc, structure.components(), other.components())? {
            return Ok(false);
        }
    }
    Ok(true)
}

fn all_virals_agree(alloc: Global, structures: &[Structure]) -> Result<bool, AllocError>
    ensures { IfOk result (λ agree. agree ≡ meant.all_virals_agree structures.now) }
{
    for (i, structure) in structures.iter().enumerate() {
        if !agrees_with_each(alloc, structure, &structures[i + 1..])? {
            return Ok(false);
        }
    }
    Ok(true)
}

/// Whether the operands have in common what the join wants. Or want of memory.
pub(crate) fn may_join(
    alloc: Global,
    function: JoinFunction,
    structures: &[Structure],
) -> Result<bool, AllocError>
    ensures { IfOk result (λ may. may ≡ meant.may_join function structures.now) }
{
    let fit = identifiers_fit(alloc, function, structures)?;
    let agree = all_virals_agree(alloc, structures)?;
    Ok(fit && agree)
}
