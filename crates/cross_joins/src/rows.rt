// Rows: what an operand has at a key, before its news and after them.
ghost use Rattle.std.specs.Prelude.{◌≡◌, ◌+◌, ◌≤◌, ◌++◌, [], ◌∷◌, length, map, is_some, IfOk, OnOk};
ghost use Rattle.std.specs.Arc.{arc_value};
ghost use Rattle.std.specs.FinMap as finmap;
ghost use Rattle.std.specs.List.{sum_by};
ghost use Rattle.point_sets.specs.Changes.{change_entry, values_of};
ghost use Rattle.point_sets.specs.DataSets.{entry_of};
ghost use Rattle.held_index.specs.Holdings.{part_of};
ghost use Rattle.cross_joins.specs.Reach.{walk_steps};
ghost use Rattle.cross_joins.specs.Rows as meant;
ghost use Rattle.cross_joins.specs.Rows.{rows_in, lists_in, row_values, kept_rows, changed_row};

use data_model::steps::Steps;
use held_index::Held;
use point_sets::{Change, Delta, Key, Point};
use sqlite_items::Items;
use std::alloc::{AllocError, Global};
use std::cmp::Ordering;
use std::sync::Arc;
use std::sync::ledger::Ledger;

/// The points of all operands before their news, or after them.
#[derive(Clone, Copy)]
pub enum Side {
    Before,
    After,
}

/// What an operand has at a key before its news and after them, and whether the news change it.
#[derive(Drop)]
pub struct Row {
    pub key: Key,
    pub before: Option<Arc<Point>>,
    pub after: Option<Arc<Point>>,
    pub is_changed: bool,
}

impl Row {
    /// Whether there is a point on a side.
    fn is_there(&self, side: Side) -> bool
        ensures { result ≡ meant.is_there side (row_values self.now) }
    {
        match side {
            Side::Before => self.before.is_some(),
            Side::After => self.after.is_some(),
        }
    }

    /// Whether a combination of points of a side may have this row, from an operand that comes before, at or after the
    /// first one of which the combination has a changed row.
    pub fn is_chosen(&self, side: Side, place: Ordering) -> bool
        ensures { result ≡ meant.is_chosen side place (row_values self.now) }
    {
        self.is_there(side)
            && match place {
                Ordering::Less => !self.is_changed,
                Ordering::Equal => self.is_changed,
                Ordering::Greater => true,
            }
    }
}

/// The point that may be there, shared.
pub fn shared(point: &Option<Arc<Point>>) -> Result<Option<Arc<Point>>, AllocError>
    ensures { IfOk result (λ shared. values_of shared ≡ values_of point.now) }
{
    match point {
        Some(point) => Ok(Some(point.clone()?)),
        None => Ok(None),
    }
}

/// Whether the news change a key.
fn is_changed(news: &Delta, key: &Key) -> bool
    ensures { result ≡ is_some (finmap.get news.now key.now) }
{
    let changes = news.changes();
    match changes.binary_search_by(|change| change.key.cmp(key)) {
        Ok(_) => true,
        Err(_) => false,
    }
}

/// Puts the row of a held point last, unless the news change it.
fn push_kept(
    alloc: Global,
    point: &Arc<Point>,
    news: &Delta,
    rows: &mut Items<Arc<Row>>,
) -> Result<(), AllocError>
    ensures { OnOk result (rows_in rows.new ≡ rows_in rows.old ++ kept_rows news.now (entry_of point.now ∷ [])) }
{
    if is_changed(news, &point.key) {
        return Ok(());
    }
    let row = Row {
        key: point.key.copy()?,
        before: Some(point.clone()?),
        after: Some(point.clone()?),
        is_changed: false,
    };
    rows.push(Arc::new(alloc, row)?)
}

/// The one part of an operand that is held whole.
pub fn whole_part(alloc: Global) -> Result<Key, AllocError>
    ensures { IfOk result (λ part. part ≡ []) }
{
    Key::of(alloc, Vec::new(alloc))
}

/// Puts the rows of the points last that the news don't change. Each point takes one look, and one is taken to count
/// them.
fn push_all_kept<L: Ledger>(
    alloc: Global,
    held: &Held,
    news: &Delta,
    rows: &mut Items<Arc<Row>>,
    steps: &mut Steps<L>,
) -> Result<(), AllocError>
    ensures rows { OnOk result (rows_in rows.new ≡ rows_in rows.old ++ kept_rows news.now (part_of held.now.want [] held.now.content)) }
    ensures steps { steps.new ≤ steps.old + walk_steps held.now }
{
    let whole = whole_part(alloc)?;
    let count = held.count_in(&whole, steps);
    for n in 0..count {
        let Some(point) = held.nth_in(&whole, n, steps) else {
            unreachable!()
        };
        push_kept(alloc, point, news, rows)?;
    }
    Ok(())
}

/// Puts the row of a change last.
fn push_changed(
    alloc: Global,
    change: &Change,
    rows: &mut Items<Arc<Row>>,
) -> Result<(), AllocError>
    ensures { OnOk result (rows_in rows.new ≡ rows_in rows.old ++ changed_row (change_entry change.now) ∷ []) }
{
    let row = Row {
        key: change.key.copy()?,
        before: shared(&change.old)?,
        after: shared(&change.new)?,
        is_changed: true,
    };
    rows.push(Arc::new(alloc, row)?)
}

/// Puts the rows of all changes last.
fn push_all_changed(
    alloc: Global,
    news: &Delta,
    rows: &mut Items<Arc<Row>>,
) -> Result<(), AllocError>
    ensures { OnOk result (rows_in rows.new ≡ rows_in rows.old ++ map changed_row (finmap.entries news.now)) }
{
    for change in news.changes() {
        push_changed(alloc, change, rows)?;
    }
    Ok(())
}

/// The rows of an operand: first those of the points that stay as they are, then those of its news.
fn rows_of<L: Ledger>(
    alloc: Global,
    held: &Held,
    news: &Delta,
    steps: &mut Steps<L>,
) -> Result<Items<Arc<Row>>, AllocError>
    ensures rows { IfOk result (λ rows. rows_in rows ≡ meant.rows_of held.now news.now) }
    ensures steps { steps.new ≤ steps.old + walk_steps held.now }
{
    let mut rows = Items::new(alloc);
    push_all_kept(alloc, held, news, &mut rows, steps)?;
    push_all_changed(alloc, news, &mut rows)?;
    Ok(rows)
}

/// The rows of each operand.
pub fn all_rows<L: Ledger>(
    alloc: Global,
    held: &[Held],
    news: &[Arc<Delta>],
    steps: &mut Steps<L>,
) -> Result<Items<Items<Arc<Row>>>, AllocError>
    requires { length news.now ≡ length held.now }
    ensures rows { IfOk result (λ rows. lists_in rows ≡ meant.all_rows held.now (map arc_value news.now)) }
    ensures steps { steps.new ≤ steps.old + sum_by walk_steps held.now }
{
    let mut all = Items::new(alloc);
    for (i, one) in held.iter().enumerate() {
        all.push(rows_of(alloc, one, &news[i], steps)?)?;
    }
    Ok(all)
}
