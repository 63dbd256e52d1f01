// What is worked out on a group.
ghost use Rattle.std.specs.Prelude.{◌≡◌, filter_map, slice_get, IfOk};
ghost use Rattle.std.specs.Option.{option_map};
ghost use Rattle.data_set_trees.specs.aggregates.Aggregates as meant;
ghost use Rattle.aggregate_typing.specs.Parts.{Answers};

use clause_typing::{has_role, role_of};
use component_typing::check_operand;
use data_set_trees::aggregates::AggregateItem;
use result_components::{int_var, numbers_of};
use scalar_trees::typing::{Basis, Scope, TypeStop, Typed};
use scalar_trees::{CheckedExpr, aggregate_gives, aggregate_takes, agreed};
use sqlite_items::Items;
use std::alloc::{AllocError, Global};
use vtl_syntax::Item;
use vtl_syntax::words::{AggregateFunction, ItemRole};
use vtl_values::{Component, Kind, Role, Word};

/// An item of `aggr` by its head and its value. As a whole item the literal null is a boolean.
fn item_typed(
    stated: Option<ItemRole>,
    name: &Word,
    value: Typed,
) -> Result<AggregateItem, AllocError>
    ensures { IfOk result (λ item. item ≡ meant.item_typed stated name.now value) }
{
    Ok(AggregateItem {
        name: name.copy()?,
        role: role_of(stated, None),
        kind: value.kind.unwrap_or(Kind::Truth),
        value: value.into_tree(),
    })
}

/// `name := a`, which is worked out on a group.
fn item_checked(alloc: Global, scope: &Scope, item: &Item) -> Result<AggregateItem, TypeStop>
    ensures { Answers (meant.item_checked scope.now item.now) result }
{
    let value = check_operand(alloc, scope, Basis::Group, item.expr.get())?;
    Ok(item_typed(item.role, &item.name, value)?)
}

/// The items, in order.
pub(crate) fn items_checked(
    alloc: Global,
    scope: &Scope,
    items: &[Item],
) -> Result<Items<AggregateItem>, TypeStop>
    ensures { Answers (meant.items_checked scope.now items.now) result }
{
    let mut checked = Items::new(alloc);
    for item in items {
        checked.push(item_checked(alloc, scope, item)?)?;
    }
    Ok(checked)
}

/// The aggregate of the component with this number, as a measure of its name.
fn aggregate_of(
    function: AggregateFunction,
    number: u64,
    component: &Component,
) -> Result<AggregateItem, AllocError>
    ensures { IfOk result (λ item. item ≡ meant.aggregate_of function number component.now) }
{
    Ok(AggregateItem {
        name: component.name.copy()?,
        role: Role::Measure,
        kind: aggregate_gives(function, component.kind),
        value: CheckedExpr::Aggregate {
            function,
            component: number,
        },
    })
}

/// The same, if there is a component with this number.
fn aggregate_at(
    function: AggregateFunction,
    number: u64,
    components: &[Component],
) -> Result<Option<AggregateItem>, AllocError>
    ensures { IfOk result (λ item. item ≡ option_map (meant.aggregate_of function number) (slice_get components.now number)) }
{
    match components.get(number as usize) {
        Some(component) => Ok(Some(aggregate_of(function, number, component)?)),
        None => Ok(None),
    }
}

/// The aggregate of each component with one of these numbers.
fn aggregates_of(
    alloc: Global,
    function: AggregateFunction,
    numbers: &[u64],
    components: &[Component],
) -> Result<Items<AggregateItem>, AllocError>
    ensures { IfOk result (λ items. items ≡ filter_map (λ number. option_map (meant.aggregate_of function number) (slice_get components.now number)) numbers.now) }
{
    let mut items = Items::new(alloc);
    for number in numbers {
        if let Some(item) = aggregate_at(function, *number, components)? {
            items.push(item)?;
        }
    }
    Ok(items)
}

/// The aggregate of each measure.
fn on_measures(
    alloc: Global,
    function: AggregateFunction,
    components: &[Component],
) -> Result<Items<AggregateItem>, AllocError>
    ensures { IfOk result (λ items. items ≡ meant.on_measures function components.now) }
{
    let numbers = numbers_of(alloc, Role::Measure, components)?;
    aggregates_of(alloc, function, numbers.as_slice(), components)
}

/// The measure in which `count` on a data set has the number of points.
fn points_counted(alloc: Global) -> Result<AggregateItem, AllocError>
    ensures { IfOk result (λ item. item ≡ meant.points_counted) }
{
    Ok(AggregateItem {
        name: int_var(alloc)?,
        role: Role::Measure,
        kind: Kind::Integer,
        value: CheckedExpr::CountAll,
    })
}

/// What an aggregate on a data set works out.
pub(crate) fn items_of(
    alloc: Global,
    function: AggregateFunction,
    components: &[Component],
) -> Result<Items<AggregateItem>, AllocError>
    ensures { IfOk result (λ items. items ≡ meant.items_of function components.now) }
{
    match function {
        AggregateFunction::Count => {
            let mut items = Items::new(alloc);
            items.push(points_counted(alloc)?)?;
            Ok(items)
        }
        AggregateFunction::Sum
        | AggregateFunction::Avg
        | AggregateFunction::Min
        | AggregateFunction::Max
        | AggregateFunction::Median => on_measures(alloc, function, components),
    }
}

/// Whether a component is of a kind that the aggregate takes, if it is a measure.
fn takes(function: AggregateFunction, component: &Component) -> bool
    ensures { result ≡ meant.takes function component.now }
{
    !has_role(Role::Measure, component)
        || agreed(aggregate_takes(function), &[Some(component.kind)]).is_some()
}

/// Whether each measure is of a kind that the aggregate takes.
pub(crate) fn takes_all(function: AggregateFunction, components: &[Component]) -> bool
    ensures { result ≡ meant.takes_all function components.now }
{
    components
        .iter()
        .all(|component| takes(function, component))
}
