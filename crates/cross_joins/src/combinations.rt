// Combinations: a row of each operand.
ghost use Rattle.std.specs.Prelude.{◌≡◌, ◌↔◌, ◌++◌, [], ◌∷◌, IsTrue, filter, map, IfOk, OnOk};
ghost use Rattle.std.specs.List.{list_any};
ghost use Rattle.cross_joins.specs.Combinations as meant;
ghost use Rattle.cross_joins.specs.Combinations.{combinations_of};
ghost use Rattle.cross_joins.specs.Rows.{is_chosen, rows_in, lists_in, shared_row};

use crate::rows::{Row, Side};
use sqlite_items::Items;
use std::alloc::{AllocError, Global};
use std::cmp::Ordering;
use std::sync::Arc;

/// Whether any of these rows is chosen.
fn has_choice(rows: &[Arc<Row>], side: Side, place: Ordering) -> bool
    ensures { result ≡ list_any (λ r. is_chosen side place (shared_row r)) rows.now }
{
    rows.iter().any(|row| row.is_chosen(side, place))
}

/// Whether an operand has no row for combinations of which the first changed row is from the operand `first`: just then
/// there are none.
pub fn is_any_without_choice(rows: &[Items<Arc<Row>>], side: Side, first: usize) -> bool
    ensures { IsTrue result ↔ (combinations_of (meant.choices side first 0 (lists_in rows.now)) ≡ []) }
{
    for (i, operand) in rows.iter().enumerate() {
        if !has_choice(operand.as_slice(), side, i.cmp(&first)) {
            return true;
        }
    }
    false
}

/// The rows that are chosen.
fn chosen(
    alloc: Global,
    rows: &[Arc<Row>],
    side: Side,
    place: Ordering,
) -> Result<Items<Arc<Row>>, AllocError>
    ensures { IfOk result (λ chosen. rows_in chosen ≡ filter (is_chosen side place) (rows_in rows.now)) }
{
    let mut all = Items::new(alloc);
    for row in rows {
        if row.is_chosen(side, place) {
            all.push(row.clone()?)?;
        }
    }
    Ok(all)
}

/// The rows of each operand for combinations of which the first changed row is from the operand `first`.
pub fn choices(
    alloc: Global,
    rows: &[Items<Arc<Row>>],
    side: Side,
    first: usize,
) -> Result<Items<Items<Arc<Row>>>, AllocError>
    ensures { IfOk result (λ all. lists_in all ≡ meant.choices side first 0 (lists_in rows.now)) }
{
    let mut all = Items::new(alloc);
    for (i, operand) in rows.iter().enumerate() {
        all.push(chosen(alloc, operand.as_slice(), side, i.cmp(&first))?)?;
    }
    Ok(all)
}

/// A combination with one row more before its others.
fn with_first(
    alloc: Global,
    row: &Arc<Row>,
    combination: &[Arc<Row>],
) -> Result<Items<Arc<Row>>, AllocError>
    ensures { IfOk result (λ longer. rows_in longer ≡ shared_row row.now ∷ rows_in combination.now) }
{
    let mut longer = Items::new(alloc);
    longer.push(row.clone()?)?;
    for other in combination {
        longer.push(other.clone()?)?;
    }
    Ok(longer)
}

/// Puts each combination last, with this row before its others.
fn push_with_first(
    alloc: Global,
    row: &Arc<Row>,
    combinations: &[Items<Arc<Row>>],
    all: &mut Items<Items<Arc<Row>>>,
) -> Result<(), AllocError>
    ensures { OnOk result (lists_in all.new ≡ lists_in all.old ++ map (λ c. shared_row row.now ∷ c) (lists_in combinations.now)) }
{
    for combination in combinations {
        all.push(with_first(alloc, row, combination.as_slice())?)?;
    }
    Ok(())
}

/// Each combination with each of these rows before its others.
fn with_each_first(
    alloc: Global,
    rows: &[Arc<Row>],
    combinations: &[Items<Arc<Row>>],
) -> Result<Items<Items<Arc<Row>>>, AllocError>
    ensures { IfOk result (λ all. lists_in all ≡ meant.with_each_first (rows_in rows.now) (lists_in combinations.now)) }
{
    let mut all = Items::new(alloc);
    for row in rows {
        push_with_first(alloc, row, combinations, &mut all)?;
    }
    Ok(all)
}

/// All combinations of a row of each list, from the last list on. Where no list is empty there are never more than these
/// on the way.
pub fn combinations(
    alloc: Global,
    lists: &[Items<Arc<Row>>],
) -> Result<Items<Items<Arc<Row>>>, AllocError>
    ensures { IfOk result (λ all. lists_in all ≡ combinations_of (lists_in lists.now)) }
{
    let mut all = Items::new(alloc);
    all.push(Items::new(alloc))?;
    for i in (0..lists.len()).rev() {
        all = with_each_first(alloc, lists[i].as_slice(), all.as_slice())?;
    }
    Ok(all)
}
