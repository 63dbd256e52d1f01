// Which components aggregates give.
ghost use Rattle.std.specs.Prelude.{◌≡◌, ◌++◌, map, IfOk};
ghost use Rattle.vtl_values.specs.declared.kind.Role.TheVariants.{Viral};
ghost use Rattle.data_set_trees.specs.clauses.Frames.{numbers_of};
ghost use Rattle.data_set_trees.specs.aggregates.Results as meant;

use clause_typing::made;
use data_set_trees::aggregates::{AggregateItem, CheckedAggregate};
use result_components::{by_role, numbers_of, with_numbers};
use sqlite_items::Items;
use std::alloc::{AllocError, Global};
use vtl_values::{Component, Role};

/// The numbers of the components that stay: those by which groups are formed, and then the viral attributes.
fn numbers_staying(
    alloc: Global,
    grouping: &[u64],
    components: &[Component],
) -> Result<Items<u64>, AllocError>
    ensures { IfOk result (λ numbers. numbers ≡ grouping.now ++ numbers_of Viral components.now) }
{
    let mut numbers = Items::from_slice(alloc, grouping)?;
    numbers.append(numbers_of(alloc, Role::Viral, components)?)?;
    Ok(numbers)
}

/// The components that are worked out, which have no code lists.
fn all_made(alloc: Global, items: &[AggregateItem]) -> Result<Items<Component>, AllocError>
    ensures { IfOk result (λ all. all ≡ map meant.made_by items.now) }
{
    let mut all = Items::new(alloc);
    for item in items {
        all.push(made(item.role, item.kind, &item.name)?)?;
    }
    Ok(all)
}

/// The components that stay, and then those that are worked out, not yet by role. Or want of memory.
pub(crate) fn unordered(
    alloc: Global,
    aggregate: &CheckedAggregate,
    components: &[Component],
) -> Result<Items<Component>, AllocError>
    ensures { IfOk result (λ all. all ≡ meant.unordered aggregate.now components.now) }
{
    let numbers = numbers_staying(alloc, aggregate.grouping.as_slice(), components)?;
    let mut all = with_numbers(alloc, components, numbers.as_slice())?;
    all.append(all_made(alloc, aggregate.items.as_slice())?)?;
    Ok(all)
}

/// The components of the data set that aggregates give on one of these components: the identifiers by which groups are
/// formed, what is worked out, and the viral attributes, by role. Or want of memory. It costs the number of components and
/// of items.
pub fn components_after(
    alloc: Global,
    aggregate: &CheckedAggregate,
    components: &[Component],
) -> Result<Items<Component>, AllocError>
    ensures { IfOk result (λ after. after ≡ meant.grouped aggregate.now components.now) }
{
    let all = unordered(alloc, aggregate, components)?;
    by_role(alloc, all.as_slice())
}
