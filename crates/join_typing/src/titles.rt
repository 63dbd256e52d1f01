// The aliases under which the components of a join are called.
ghost use Rattle.std.specs.Prelude.{◌≡◌, ◌∷◌, [], None, Some, map, filter, flat_map, IfOk};
ghost use Rattle.std.specs.List.{list_any};
ghost use Rattle.vtl_values.specs.declared.structure.Component.{Component};
ghost use Rattle.data_set_trees.specs.clauses.Frames.{has_role};
ghost use Rattle.data_set_trees.specs.Components as parts;
ghost use Rattle.data_set_trees.specs.Joins as meant;
ghost use Rattle.join_typing.specs.Joining as own;

use crate::components::{gathered_of, join_identifiers};
use crate::operands::Aliased;
use data_set_parts::components::{has_name, has_role, of_role};
use sqlite_items::Items;
use std::alloc::{AllocError, Global};
use vtl_syntax::words::JoinFunction;
use vtl_values::{Component, Role, Structure, Word};

/// The aliases of a component; none is its bare name.
pub(crate) type Titles = Items<Option<Word>>;

fn under(alloc: Global, alias: &Word) -> Result<Titles, AllocError>
    ensures { IfOk result (λ titles. titles ≡ Some alias.now ∷ []) }
{
    let mut titles = Items::new(alloc);
    titles.push(Some(alias.copy()?))?;
    Ok(titles)
}

fn bare(alloc: Global) -> Result<Titles, AllocError>
    ensures { IfOk result (λ titles. titles ≡ None ∷ []) }
{
    let mut titles = Items::new(alloc);
    titles.push(None)?;
    Ok(titles)
}

/// Each component of this role is called under the operand's alias.
fn owned(alloc: Global, role: Role, operand: &Aliased) -> Result<Items<Titles>, AllocError>
    ensures { IfOk result (λ all. all ≡ meant.owned (filter (has_role role)) (own.aliased operand.now)) }
{
    let components = of_role(alloc, role, operand.structure.components())?;
    let mut all = Items::new(alloc);
    for component in components.as_slice() {
        let _component = component;
        all.push(under(alloc, &operand.alias)?)?;
    }
    Ok(all)
}

fn all_owned(alloc: Global, role: Role, operands: &[Aliased]) -> Result<Items<Titles>, AllocError>
    ensures { IfOk result (λ all. all ≡ flat_map (meant.owned (filter (has_role role))) (map own.aliased operands.now)) }
{
    let mut all = Items::new(alloc);
    for operand in operands {
        all.append(owned(alloc, role, operand)?)?;
    }
    Ok(all)
}

fn is_identifier_named(name: &Word, component: &Component) -> bool
    ensures { result ≡ own.is_identifier_named name.now component.now }
{
    has_role(Role::Identifier, component) && has_name(name, component)
}

fn has_identifier_named(name: &Word, components: &[Component]) -> bool
    ensures { result ≡ list_any (own.is_identifier_named name.now) components.now }
{
    components
        .iter()
        .any(|component| is_identifier_named(name, component))
}

/// Whether the operand has an identifier of this name.
fn has_identifier(name: &Word, operand: &Aliased) -> bool
    ensures { result ≡ parts.is_taken name.now (parts.identifiers operand.now.structure) }
{
    has_identifier_named(name, operand.structure.components())
}

/// The aliases of the operands of which it is an identifier. Or want of memory.
fn owners(
    alloc: Global,
    operands: &[Aliased],
    component: &Component,
) -> Result<Items<Word>, AllocError>
    ensures { IfOk result (λ found. found ≡ meant.owners (map own.aliased operands.now) component.now) }
{
    let mut found = Items::new(alloc);
    for operand in operands {
        if has_identifier(&component.name, operand) {
            found.push(operand.alias.copy()?)?;
        }
    }
    Ok(found)
}

/// The bare name, and these aliases.
fn bare_and(alloc: Global, aliases: &[Word]) -> Result<Titles, AllocError>
    ensures { IfOk result (λ titles. titles ≡ None ∷ map Some aliases.now) }
{
    let mut titles = bare(alloc)?;
    for alias in aliases {
        titles.push(Some(alias.copy()?))?;
    }
    Ok(titles)
}

/// A component of several operands is called by its bare name too.
fn shared(alloc: Global, aliases: &[Word]) -> Result<Titles, AllocError>
    ensures { IfOk result (λ titles. titles ≡ meant.shared aliases.now) }
{
    match aliases {
        [] => Ok(Items::new(alloc)),
        [alias] => under(alloc, alias),
        [_, _, ..] => bare_and(alloc, aliases),
    }
}

fn shared_titles(
    alloc: Global,
    operands: &[Aliased],
    component: &Component,
) -> Result<Titles, AllocError>
    ensures { IfOk result (λ titles. titles ≡ meant.shared (meant.owners (map own.aliased operands.now) component.now)) }
{
    let aliases = owners(alloc, operands, component)?;
    shared(alloc, aliases.as_slice())
}

fn all_shared(
    alloc: Global,
    operands: &[Aliased],
    identifiers: &[Component],
) -> Result<Items<Titles>, AllocError>
    ensures { IfOk result (λ all. all ≡ map (λ (c : Component). meant.shared (meant.owners (map own.aliased operands.now) c)) identifiers.now) }
{
    let mut all = Items::new(alloc);
    for component in identifiers {
        all.push(shared_titles(alloc, operands, component)?)?;
    }
    Ok(all)
}

fn common_titles(
    alloc: Global,
    function: JoinFunction,
    operands: &[Aliased],
    structures: &[Structure],
) -> Result<Items<Titles>, AllocError>
    ensures { IfOk result (λ all. all ≡ own.common_titles function (map own.aliased operands.now) structures.now) }
{
    let identifiers = join_identifiers(alloc, function, structures)?;
    all_shared(alloc, operands, identifiers.as_slice())
}

fn identifier_titles(
    alloc: Global,
    function: JoinFunction,
    operands: &[Aliased],
    structures: &[Structure],
) -> Result<Items<Titles>, AllocError>
    requires { structures.now ≡ meant.structures_of (map own.aliased operands.now) }
    ensures { IfOk result (λ all. all ≡ meant.identifier_titles function (map own.aliased operands.now)) }
{
    match function {
        JoinFunction::Cross => all_owned(alloc, Role::Identifier, operands),
        JoinFunction::Inner => common_titles(alloc, function, operands, structures),
        JoinFunction::Left => common_titles(alloc, function, operands, structures),
        JoinFunction::Full => common_titles(alloc, function, operands, structures),
    }
}

/// Each is called by its bare name alone.
fn all_bare(alloc: Global, components: &[Component]) -> Result<Items<Titles>, AllocError>
    ensures { IfOk result (λ all. all ≡ map (λ (c : Component). None ∷ []) components.now) }
{
    let mut all = Items::new(alloc);
    for component in components {
        let _component = component;
        all.push(bare(alloc)?)?;
    }
    Ok(all)
}

fn viral_titles(alloc: Global, structures: &[Structure]) -> Result<Items<Titles>, AllocError>
    ensures { IfOk result (λ all. all ≡ own.viral_titles structures.now) }
{
    let components = gathered_of(alloc, Role::Viral, structures)?;
    all_bare(alloc, components.as_slice())
}

/// The aliases of each component of the join. Or want of memory.
pub(crate) fn join_titles(
    alloc: Global,
    function: JoinFunction,
    operands: &[Aliased],
    structures: &[Structure],
) -> Result<Items<Titles>, AllocError>
    requires { structures.now ≡ meant.structures_of (map own.aliased operands.now) }
    ensures { IfOk result (λ all. all ≡ meant.join_titles function (map own.aliased operands.now)) }
{
    let mut all = identifier_titles(alloc, function, operands, structures)?;
    all.append(all_owned(alloc, Role::Measure, operands)?)?;
    all.append(viral_titles(alloc, structures)?)?;
    Ok(all)
}
