// Whether no two are the same, at the cost of their number.
ghost use Rattle.std.specs.Prelude.{◌≡◌, IfOk};
ghost use Rattle.data_set_trees.specs.clauses.Clauses as meant;
ghost use Rattle.clause_typing.specs.Keys.{name_of, full_name, target_of};

use data_set_trees::clauses::{CheckedItem, CheckedRename, Frame, Target};
use indexmap::IndexSet;
use scalar_trees::typing::ScopeName;
use std::alloc::{AllocError, Global};
use vtl_values::Word;

/// A name, alias and all.
#[derive(Clone, Copy, PartialEq, Eq, Hash)]
struct FullName<'a> {
    alias: Option<&'a Word>,
    name: &'a Word,
}

fn full_name(name: &ScopeName) -> FullName<'_>
    ensures { name_of result ≡ full_name name.now }
{
    FullName {
        alias: name.alias.as_ref(),
        name: &name.name,
    }
}

/// Whether no two names are the same, alias and all, or want of memory.
pub fn names_differ(alloc: Global, frame: &Frame) -> Result<bool, AllocError>
    ensures { IfOk result (λ differ. differ ≡ meant.names_differ frame.now) }
{
    let mut seen = IndexSet::new(alloc);
    for name in frame.names.as_slice() {
        let new = seen.insert(full_name(name))?;
        if !new {
            return Ok(false);
        }
    }
    Ok(true)
}

/// Whether no component gets two names, or want of memory.
pub(crate) fn renamed_once(alloc: Global, renames: &[CheckedRename]) -> Result<bool, AllocError>
    ensures { IfOk result (λ once. once ≡ meant.renamed_once renames.now) }
{
    let mut seen = IndexSet::new(alloc);
    for renaming in renames {
        let new = seen.insert(renaming.component)?;
        if !new {
            return Ok(false);
        }
    }
    Ok(true)
}

/// What an item of `calc` is put into.
#[derive(Clone, Copy, PartialEq, Eq, Hash)]
enum TargetRef<'a> {
    Old(u64),
    New(&'a Word),
}

fn target_ref(target: &Target) -> TargetRef<'_>
    ensures { target_of result ≡ target.now }
{
    match target {
        Target::Old(number) => TargetRef::Old(*number),
        Target::New(name) => TargetRef::New(name),
    }
}

/// Whether no two items of a `calc` have one target, or want of memory.
pub(crate) fn targets_differ(alloc: Global, items: &[CheckedItem]) -> Result<bool, AllocError>
    ensures { IfOk result (λ differ. differ ≡ meant.targets_differ items.now) }
{
    let mut seen = IndexSet::new(alloc);
    for item in items {
        let new = seen.insert(target_ref(&item.target))?;
        if !new {
            return Ok(false);
        }
    }
    Ok(true)
}
