// The frame of a join.
ghost use Rattle.std.specs.Prelude.{◌≡◌, ◌≤◌, ◌++◌, map, length, slice_get, IfOk, OnOk};
ghost use Rattle.data_set_trees.specs.clauses.Clauses.{MOST_COMPONENTS};
ghost use Rattle.data_set_trees.specs.Joins as meant;
ghost use Rattle.join_typing.specs.Inside.{FitInside};
ghost use Rattle.join_typing.specs.Joining as own;

use crate::components::join_components;
use crate::operands::Aliased;
use crate::titles::{Titles, join_titles};
use clause_typing::scope_of_frame;
use data_set_parts::results::listed;
use data_set_trees::clauses::Frame;
use scalar_trees::typing::ScopeName;
use sqlite_items::Items;
use std::alloc::{AllocError, Global};
use vtl_syntax::words::JoinFunction;
use vtl_values::{Component, Structure, Word};

/// An equal frame, or want of memory.
pub fn copy_frame(alloc: Global, frame: &Frame) -> Result<Frame, AllocError>
    ensures { IfOk result (λ copy. copy ≡ frame.now) }
{
    let components = listed(alloc, frame.components.as_slice())?;
    Ok(Frame {
        names: scope_of_frame(alloc, frame)?.names,
        components: Items::from_vec(components),
    })
}

/// The structures of the operands. Or want of memory.
pub(crate) fn structures_of(
    alloc: Global,
    operands: &[Aliased],
) -> Result<Items<Structure>, AllocError>
    ensures { IfOk result (λ all. all ≡ meant.structures_of (map own.aliased operands.now)) }
{
    let mut all = Items::new(alloc);
    for operand in operands {
        all.push(operand.structure.copy()?)?;
    }
    Ok(all)
}

fn copy_alias(alias: &Option<Word>) -> Result<Option<Word>, AllocError>
    ensures { IfOk result (λ copy. copy ≡ alias.now) }
{
    match alias {
        Some(alias) => Ok(Some(alias.copy()?)),
        None => Ok(None),
    }
}

fn scope_name(number: u64, name: &Word, alias: &Option<Word>) -> Result<ScopeName, AllocError>
    ensures { IfOk result (λ made. made ≡ record { alias = alias.now; name = name.now; number = number }) }
{
    Ok(ScopeName {
        alias: copy_alias(alias)?,
        name: name.copy()?,
        number,
    })
}

/// Puts the names of the component with this number last.
fn push_names(
    names: &mut Items<ScopeName>,
    number: u64,
    name: &Word,
    titles: &Titles,
) -> Result<(), AllocError>
    ensures { OnOk result (names.new ≡ names.old ++ meant.names_at number name.now titles.now) }
{
    for alias in titles.as_slice() {
        names.push(scope_name(number, name, alias)?)?;
    }
    Ok(())
}

/// The same, where its aliases stand under this number.
fn push_under(
    names: &mut Items<ScopeName>,
    number: usize,
    name: &Word,
    titles: &[Titles],
) -> Result<(), AllocError>
    ensures { OnOk result (names.new ≡ names.old ++ own.names_of number name.now (slice_get titles.now number)) }
{
    match titles.get(number) {
        Some(titles) => push_names(names, number as u64, name, titles),
        None => Ok(()),
    }
}

fn names_under(
    alloc: Global,
    components: &[Component],
    titles: &[Titles],
) -> Result<Items<ScopeName>, AllocError>
    ensures { IfOk result (λ names. names ≡ meant.names_under 0 components.now titles.now) }
{
    let mut names = Items::new(alloc);
    for (i, component) in components.iter().enumerate() {
        push_under(&mut names, i, &component.name, titles)?;
    }
    Ok(names)
}

/// What the first clause inside works on. Or want of memory.
pub(crate) fn join_frame(
    alloc: Global,
    function: JoinFunction,
    operands: &[Aliased],
    structures: &[Structure],
) -> Result<Frame, AllocError>
    requires { structures.now ≡ meant.structures_of (map own.aliased operands.now) }
    ensures value { IfOk result (λ frame. frame ≡ meant.join_frame function (map own.aliased operands.now)) }
    ensures fits { IfOk result (λ frame. length frame.components ≤ MOST_COMPONENTS → FitInside frame.components) }
{
    let components = join_components(alloc, function, structures)?;
    let titles = join_titles(alloc, function, operands, structures)?;
    Ok(Frame {
        names: names_under(alloc, components.as_slice(), titles.as_slice())?,
        components,
    })
}
