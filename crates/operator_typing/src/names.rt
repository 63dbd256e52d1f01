// What a name stands for.
ghost use Rattle.std.specs.Prelude.{◌≡◌};
ghost use Rattle.scalar_trees.specs.typing.Scopes as meant;

use scalar_trees::typing::{Basis, Column, Scope, ScopeName, Slot};
use vtl_values::Word;

fn is_named(name: &Word, entry: &ScopeName) -> bool
    ensures { result ≡ meant.is_named name.now entry.now }
{
    *name == entry.name
}

fn is_bare(name: &Word, entry: &ScopeName) -> bool
    ensures { result ≡ meant.is_bare name.now entry.now }
{
    entry.alias.is_none() && is_named(name, entry)
}

fn is_member(alias: &Word, name: &Word, entry: &ScopeName) -> bool
    ensures { result ≡ meant.is_member alias.now name.now entry.now }
{
    match &entry.alias {
        Some(own) => *alias == *own && is_named(name, entry),
        None => false,
    }
}

/// The number of the component that is called exactly so.
fn exact_number(names: &[ScopeName], name: &Word) -> Option<u64>
    ensures { result ≡ meant.first_number (meant.is_bare name.now) names.now }
{
    names
        .iter()
        .find(|entry| is_bare(name, entry))
        .map(|entry| entry.number)
}

/// The number of the first component that is called so, with an alias or without.
fn any_number(names: &[ScopeName], name: &Word) -> Option<u64>
    ensures { result ≡ meant.first_number (meant.is_named name.now) names.now }
{
    names
        .iter()
        .find(|entry| is_named(name, entry))
        .map(|entry| entry.number)
}

/// The number of the component that `alias#name` stands for, if there is one.
pub fn member_number(names: &[ScopeName], alias: &Word, name: &Word) -> Option<u64>
    ensures { result ≡ meant.first_number (meant.is_member alias.now name.now) names.now }
{
    names
        .iter()
        .find(|entry| is_member(alias, name, entry))
        .map(|entry| entry.number)
}

/// The number of the component that a bare name stands for, if there is one: the one that is called exactly so, or else
/// the only one that is called so by an operand of a join.
pub fn bare_number(names: &[ScopeName], name: &Word) -> Option<u64>
    ensures { result ≡ meant.bare_number names.now name.now }
{
    if let Some(number) = exact_number(names, name) {
        return Some(number);
    }
    let so_called = names.iter().filter(|entry| is_named(name, entry)).count();
    if so_called == 1 {
        any_number(names, name)
    } else {
        None
    }
}

fn is_seen(basis: Basis, column: &Column) -> bool
    ensures { result ≡ meant.is_seen basis column.now }
{
    match basis {
        Basis::Point => true,
        Basis::Group => column.grouped,
    }
}

/// The component with a number, where it may be named.
fn slot_at(columns: &[Column], basis: Basis, number: u64) -> Option<Slot>
    ensures { result ≡ meant.slot_at columns.now basis number }
{
    match columns.get(number as usize) {
        Some(column) if is_seen(basis, column) => Some(Slot {
            number,
            kind: column.kind,
        }),
        _ => None,
    }
}

/// The component that a bare name stands for, if there is one: the one that is called exactly so, or else the only one
/// that is called so by an operand of a join. On a group of points only what groups are formed by is seen.
pub fn named(scope: &Scope, basis: Basis, name: &Word) -> Option<Slot>
    ensures { result ≡ meant.named scope.now basis name.now }
{
    let number = bare_number(scope.names.as_slice(), name)?;
    slot_at(scope.columns.as_slice(), basis, number)
}

/// The component that `alias#name` stands for, if there is one.
pub fn member(scope: &Scope, basis: Basis, alias: &Word, name: &Word) -> Option<Slot>
    ensures { result ≡ meant.member scope.now basis alias.now name.now }
{
    let number = member_number(scope.names.as_slice(), alias, name)?;
    slot_at(scope.columns.as_slice(), basis, number)
}
