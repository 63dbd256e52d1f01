// Copies of groupings and windows.
ghost use Rattle.std.specs.Prelude.{◌≡◌, IfOk};

use crate::lists::copy_words;
use sqlite_items::Items;
use std::alloc::{AllocError, Global};
use vtl_syntax::{Grouping, OrderItem, Over, Points};
use vtl_values::Word;

/// A copy of the grouping, or want of memory.
pub fn copy_grouping(alloc: Global, grouping: &Grouping) -> Result<Grouping, AllocError>
    ensures { IfOk result (λ copy. copy ≡ grouping.now) }
{
    Ok(Grouping {
        word: grouping.word,
        names: copy_words(alloc, grouping.names.as_slice())?,
        place: grouping.place,
    })
}

/// A copy of the window, or want of memory.
pub fn copy_over(alloc: Global, over: &Over) -> Result<Over, AllocError>
    ensures { IfOk result (λ copy. copy ≡ over.now) }
{
    Ok(Over {
        partition: copy_partition(alloc, &over.partition)?,
        order: copy_order(alloc, &over.order)?,
        points: copy_points(&over.points),
        place: over.place,
    })
}

fn copy_partition(
    alloc: Global,
    words: &Option<Items<Word>>,
) -> Result<Option<Items<Word>>, AllocError>
    ensures { IfOk result (λ copy. copy ≡ words.now) }
{
    match words {
        Some(words) => Ok(Some(copy_words(alloc, words.as_slice())?)),
        None => Ok(None),
    }
}

fn copy_order(
    alloc: Global,
    items: &Option<Items<OrderItem>>,
) -> Result<Option<Items<OrderItem>>, AllocError>
    ensures { IfOk result (λ copy. copy ≡ items.now) }
{
    match items {
        Some(items) => Ok(Some(copy_order_items(alloc, items.as_slice())?)),
        None => Ok(None),
    }
}

fn copy_order_items(alloc: Global, items: &[OrderItem]) -> Result<Items<OrderItem>, AllocError>
    ensures { IfOk result (λ copy. copy ≡ items.now) }
{
    let mut copy = Items::new(alloc);
    for item in items {
        copy.push(copy_order_item(item)?)?;
    }
    Ok(copy)
}

fn copy_order_item(item: &OrderItem) -> Result<OrderItem, AllocError>
    ensures { IfOk result (λ copy. copy ≡ item.now) }
{
    Ok(OrderItem {
        name: item.name.copy()?,
        direction: item.direction,
        place: item.place,
    })
}

fn copy_points(points: &Option<Points>) -> Option<Points>
    ensures { result ≡ points.now }
{
    match points {
        Some(points) => Some(Points {
            from: points.from,
            to: points.to,
            place: points.place,
        }),
        None => None,
    }
}
