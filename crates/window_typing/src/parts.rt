// The parts that operators work in, and their order.
ghost use Rattle.std.specs.Prelude.{◌≡◌, filter_map, is_some, IfOk};
ghost use Rattle.std.specs.List.{list_all};
ghost use Rattle.data_set_trees.specs.clauses.After.{is_among};
ghost use Rattle.data_set_trees.specs.clauses.Clauses as clauses;
ghost use Rattle.data_set_trees.specs.clauses.Frames as frames;
ghost use Rattle.data_set_trees.specs.windows.Parts as meant;
ghost use Rattle.data_set_trees.specs.windows.Windows as windows;

use clause_typing::{bare_number_of, is_among};
use data_set_trees::clauses::Frame;
use data_set_trees::windows::{Analytic, CheckedAnalytic, OrderedBy, Parts};
use result_components::{are_known, is_identifier};
use sqlite_items::Items;
use std::alloc::{AllocError, Global};
use vtl_syntax::words::Direction;
use vtl_syntax::{OrderItem, Over};
use vtl_values::{Component, Word};

/// The names after `partition by`.
pub fn partition_names(over: &Over) -> &[Word]
    ensures { result.now ≡ meant.partition_names over.now }
{
    match &over.partition {
        Some(names) => names.as_slice(),
        None => &[],
    }
}

/// The items after `order by`.
pub fn order_items(over: &Over) -> &[OrderItem]
    ensures { result.now ≡ meant.order_items over.now }
{
    match &over.order {
        Some(items) => items.as_slice(),
        None => &[],
    }
}

fn knows_order(frame: &Frame, items: &[OrderItem]) -> bool
    ensures { result ≡ list_all (λ item. is_some (clauses.bare_number_of frame.now item.name)) items.now }
{
    items
        .iter()
        .all(|item| bare_number_of(frame, &item.name).is_some())
}

/// Whether each name stands for a component.
pub(crate) fn knows(frame: &Frame, over: &Over) -> bool
    ensures { result ≡ meant.knows frame.now over.now }
{
    are_known(frame, partition_names(over)) && knows_order(frame, order_items(over))
}

/// Whether the component of this name is an identifier, if there is one.
fn is_identifier_called(frame: &Frame, name: &Word) -> bool
    ensures { result ≡ meant.is_identifier_called frame.now name.now }
{
    match bare_number_of(frame, name) {
        Some(number) => is_identifier(frame, number),
        None => true,
    }
}

/// Whether parts are made by identifiers.
pub(crate) fn may_part(frame: &Frame, over: &Over) -> bool
    ensures { result ≡ meant.may_part frame.now over.now }
{
    partition_names(over)
        .iter()
        .all(|name| is_identifier_called(frame, name))
}

fn named_numbers(alloc: Global, frame: &Frame, names: &[Word]) -> Result<Items<u64>, AllocError>
    ensures { IfOk result (λ numbers. numbers ≡ meant.named_numbers frame.now names.now) }
{
    let mut numbers = Items::new(alloc);
    for name in names {
        if let Some(number) = bare_number_of(frame, name) {
            numbers.push(number)?;
        }
    }
    Ok(numbers)
}

/// The numbers of the components that are among these, in the components' order.
fn numbers_among(
    alloc: Global,
    named: &[u64],
    components: &[Component],
) -> Result<Items<u64>, AllocError>
    ensures { IfOk result (λ numbers. numbers ≡ frames.numbers_from (λ number c. is_among named.now number) 0 components.now) }
{
    let mut numbers = Items::new(alloc);
    for (i, _) in components.iter().enumerate() {
        if is_among(named, i as u64) {
            numbers.push(i as u64)?;
        }
    }
    Ok(numbers)
}

/// What points are ordered by, if the name stands for a component; ascending where nothing is said.
fn ordered_by(frame: &Frame, item: &OrderItem) -> Option<OrderedBy>
    ensures { result ≡ meant.ordered_by frame.now item.now }
{
    let component = bare_number_of(frame, &item.name)?;
    Some(OrderedBy {
        component,
        direction: item.direction.unwrap_or(Direction::Ascending),
    })
}

fn order_of(
    alloc: Global,
    frame: &Frame,
    items: &[OrderItem],
) -> Result<Items<OrderedBy>, AllocError>
    ensures { IfOk result (λ order. order ≡ filter_map (meant.ordered_by frame.now) items.now) }
{
    let mut order = Items::new(alloc);
    for item in items {
        if let Some(by) = ordered_by(frame, item) {
            order.push(by)?;
        }
    }
    Ok(order)
}

/// The parts that `over` makes of a frame, or want of memory.
pub(crate) fn parts_of(alloc: Global, frame: &Frame, over: &Over) -> Result<Parts, AllocError>
    ensures { IfOk result (λ parts. parts ≡ meant.parts_of frame.now over.now) }
{
    let named = named_numbers(alloc, frame, partition_names(over))?;
    Ok(Parts {
        partition: numbers_among(alloc, named.as_slice(), frame.components.as_slice())?,
        order: order_of(alloc, frame, order_items(over))?,
    })
}

/// The same parts, or want of memory.
pub(crate) fn copy_parts(alloc: Global, parts: &Parts) -> Result<Parts, AllocError>
    ensures { IfOk result (λ copy. copy ≡ parts.now) }
{
    Ok(Parts {
        partition: Items::from_slice(alloc, parts.partition.as_slice())?,
        order: Items::from_slice(alloc, parts.order.as_slice())?,
    })
}

/// An operator with the parts that `over` makes of a frame, or want of memory.
pub(crate) fn with_parts(
    alloc: Global,
    frame: &Frame,
    over: &Over,
    analytic: Analytic,
) -> Result<CheckedAnalytic, AllocError>
    ensures { IfOk result (λ checked. checked ≡ windows.with_parts frame.now over.now analytic) }
{
    Ok(CheckedAnalytic {
        analytic,
        parts: parts_of(alloc, frame, over)?,
    })
}
