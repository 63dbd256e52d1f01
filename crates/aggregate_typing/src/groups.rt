// Groups: by what they are formed, and what may be named of one.
ghost use Rattle.std.specs.Prelude.{◌≡◌, IfOk};
ghost use Rattle.std.specs.Option.{option_map};
ghost use Rattle.data_set_trees.specs.clauses.Frames.{numbers_from};
ghost use Rattle.data_set_trees.specs.aggregates.Aggregates as aggregates;
ghost use Rattle.data_set_trees.specs.aggregates.Groups as meant;
ghost use Rattle.aggregate_typing.specs.Parts.{Answers};

use clause_typing::{has_role, is_among};
use component_typing::check_operand;
use operator_typing::names_of;
use scalar_trees::typing::{Basis, Column, Scope, TypeStop, Typed};
use sqlite_items::{Boxed, Items};
use std::alloc::{AllocError, Global};
use vtl_syntax::words::GroupWord;
use vtl_syntax::{Expr, Groups};
use vtl_values::{Component, Role, Word};

/// The names of the grouping.
pub(crate) fn names_in(groups: &Option<Boxed<Groups>>) -> &[Word]
    ensures { result.now ≡ aggregates.names_in (aggregates.grouping_of groups.now) }
{
    match groups {
        Some(groups) => groups.get().grouping.names.as_slice(),
        None => &[],
    }
}

/// Whether one of these is the name.
fn is_one_of(names: &[Word], name: &Word) -> bool
    ensures { result ≡ meant.is_one_of names.now name.now }
{
    names.iter().any(|other| *name == *other)
}

/// Whether groups are formed by a component: an identifier that is named, or one that isn't.
fn forms_groups(word: GroupWord, names: &[Word], component: &Component) -> bool
    ensures { result ≡ meant.forms_groups word names.now component.now }
{
    has_role(Role::Identifier, component)
        && match word {
            GroupWord::By => is_one_of(names, &component.name),
            GroupWord::Except => !is_one_of(names, &component.name),
        }
}

/// The numbers of the identifiers that a grouping of these names takes.
fn numbers_forming(
    alloc: Global,
    word: GroupWord,
    names: &[Word],
    components: &[Component],
) -> Result<Items<u64>, AllocError>
    ensures { IfOk result (λ numbers. numbers ≡ numbers_from (λ number. meant.forms_groups word names.now) 0 components.now) }
{
    let mut numbers = Items::new(alloc);
    for (i, component) in components.iter().enumerate() {
        if forms_groups(word, names, component) {
            numbers.push(i as u64)?;
        }
    }
    Ok(numbers)
}

/// The numbers of the identifiers by which groups are formed, in the data set's order; without a grouping there are none.
pub(crate) fn grouping_numbers(
    alloc: Global,
    groups: &Option<Boxed<Groups>>,
    components: &[Component],
) -> Result<Items<u64>, AllocError>
    ensures { IfOk result (λ numbers. numbers ≡ meant.grouping_numbers (aggregates.grouping_of groups.now) components.now) }
{
    match groups {
        Some(groups) => {
            let grouping = &groups.get().grouping;
            numbers_forming(alloc, grouping.word, grouping.names.as_slice(), components)
        }
        None => Ok(Items::new(alloc)),
    }
}

fn column_at(grouping: &[u64], number: u64, component: &Component) -> Column
    ensures { result ≡ meant.column_at grouping.now number component.now }
{
    Column {
        kind: component.kind,
        role: component.role,
        grouped: is_among(grouping, number),
    }
}

fn columns_of(
    alloc: Global,
    grouping: &[u64],
    components: &[Component],
) -> Result<Items<Column>, AllocError>
    ensures { IfOk result (λ columns. columns ≡ meant.columns_from grouping.now 0 components.now) }
{
    let mut columns = Items::new(alloc);
    for (i, component) in components.iter().enumerate() {
        columns.push(column_at(grouping, i as u64, component))?;
    }
    Ok(columns)
}

/// What names stand for where groups are formed by the identifiers with these numbers.
pub(crate) fn scope_of_groups(
    alloc: Global,
    grouping: &[u64],
    components: &[Component],
) -> Result<Scope, AllocError>
    ensures { IfOk result (λ scope. scope ≡ meant.scope_of_groups grouping.now components.now) }
{
    Ok(Scope {
        names: names_of(alloc, components)?,
        columns: columns_of(alloc, grouping, components)?,
    })
}

/// The condition that is written after `having`.
fn having_of(groups: &Option<Boxed<Groups>>) -> Option<&Expr>
    ensures { option_map (λ e. e.now) result ≡ aggregates.having_of groups.now }
{
    match groups {
        Some(groups) => match &groups.get().having {
            Some(having) => Some(having.get()),
            None => None,
        },
        None => None,
    }
}

/// The condition, which is worked out on a group, if there is one.
pub(crate) fn condition_checked(
    alloc: Global,
    scope: &Scope,
    groups: &Option<Boxed<Groups>>,
) -> Result<Option<Typed>, TypeStop>
    ensures { Answers (aggregates.condition_checked scope.now (aggregates.having_of groups.now)) result }
{
    match having_of(groups) {
        Some(tree) => Ok(Some(check_operand(alloc, scope, Basis::Group, tree)?)),
        None => Ok(None),
    }
}

/// The same, where groups are formed by the identifiers with these numbers.
pub(crate) fn condition_on(
    alloc: Global,
    grouping: &[u64],
    groups: &Option<Boxed<Groups>>,
    components: &[Component],
) -> Result<Option<Typed>, TypeStop>
    ensures { Answers (aggregates.condition_checked (meant.scope_of_groups grouping.now components.now) (aggregates.having_of groups.now)) result }
{
    if having_of(groups).is_none() {
        return Ok(None);
    }
    let scope = scope_of_groups(alloc, grouping, components)?;
    condition_checked(alloc, &scope, groups)
}
