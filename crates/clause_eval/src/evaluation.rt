// What a clause makes of a point.
ghost use Rattle.std.specs.Prelude.{◌≡◌, ◌++◌, true, false, Some, option_map, is_none, IfOk};
ghost use Rattle.std.specs.Bool.{then_some};
ghost use Rattle.scalar_meaning.specs.Rows.{point_row};
ghost use Rattle.scalar_meaning.specs.Scalars.{meaning};
ghost use Rattle.data_set_trees.specs.declared.clauses.frame.Frame.{Frame};
ghost use Rattle.clause_meaning.specs.Clauses as meant;
ghost use Rattle.point_sets.specs.DataSets.{key_of, rest_of, HasKey};
ghost use Rattle.clause_eval.specs.Points.{keeps_keys, is_beyond_on, values_from, picks_of};
ghost use Rattle.clause_eval.specs.Evaluations as found;

use crate::items::{measure_values, with_items};
use crate::values::{picked, picked_of};
use data_set_trees::clauses::{CheckedClause, CheckedItem, CheckedMeasure};
use point_sets::{Key, Point};
use scalar_eval::{EvalStop, Matchers, PointRow, eval};
use scalar_trees::CheckedExpr;
use sqlite_items::Items;
use std::alloc::{AllocError, Global};
use std::sync::Arc;
use vtl_values::Value;

/// What a clause makes at a key.
#[derive(Drop)]
pub enum Evaluation {
    /// Nothing.
    Absent,
    Present(Arc<Point>),
    OutOfRange,
}

impl Evaluation {
    pub fn is_out_of_range(&self) -> bool
        ensures { result ≡ found.is_beyond self.now }
    {
        matches!(self, Evaluation::OutOfRange)
    }

    /// The point that was made, if any.
    pub fn into_point(self) -> Option<Arc<Point>>
        ensures { result ≡ found.point_in self }
    {
        match self {
            Evaluation::Present(point) => Some(point),
            Evaluation::Absent | Evaluation::OutOfRange => None,
        }
    }
}

/// What a clause that leaves points their keys makes of a point, where the values that it takes over have these numbers.
/// A point that stays as it is is shared.
pub fn evaluate<'a>(
    alloc: Global,
    clause: &'a CheckedClause,
    picks: &[u64],
    point: &Arc<Point>,
    matchers: &mut Matchers<'a>,
) -> Result<Evaluation, AllocError>
    requires { keeps_keys clause.now ≡ true }
    ensures key { IfOk result (λ made. HasKey (key_of point.now) (found.point_in made)) }
    ensures values { (frame : Frame) → picks.now ≡ picks_of clause.now frame →
        IfOk result (found.IsEvaluation (key_of point.now) (is_beyond_on clause.now (key_of point.now) (rest_of point.now)) (values_from clause.now frame (key_of point.now) (rest_of point.now) (key_of point.now))) }
{
    match clause {
        CheckedClause::Filter { condition } => chosen(alloc, condition, point, matchers),
        CheckedClause::Calc { items } => {
            calculated(alloc, items.as_slice(), picks, point, matchers)
        }
        CheckedClause::Keep { .. } | CheckedClause::Drop { .. } => staying(alloc, picks, point),
        CheckedClause::Rename { .. } => unchanged(point),
        CheckedClause::Measures { items } => {
            measured(alloc, items.as_slice(), picks, point, matchers)
        }
        CheckedClause::Sub { .. } | CheckedClause::Unpivot { .. } => unreachable!(),
    }
}

/// The point, if the condition is true of it.
fn chosen<'a>(
    alloc: Global,
    condition: &'a CheckedExpr,
    point: &Arc<Point>,
    matchers: &mut Matchers<'a>,
) -> Result<Evaluation, AllocError>
    ensures { IfOk result (found.IsEvaluation (key_of point.now) (is_none (meaning (point_row (key_of point.now) (rest_of point.now)) condition.now)) (then_some (meant.is_true_at condition.now (key_of point.now) (rest_of point.now)) (rest_of point.now))) }
{
    let row = PointRow {
        key: point.key.values(),
        rest: point.rest.as_slice(),
    };
    match eval(alloc, condition, &row, matchers) {
        Ok(Value::Truth(true)) => unchanged(point),
        Ok(_) => Ok(Evaluation::Absent),
        Err(EvalStop::Range) => Ok(Evaluation::OutOfRange),
        Err(EvalStop::Memory) => Err(AllocError),
    }
}

fn unchanged(point: &Arc<Point>) -> Result<Evaluation, AllocError>
    ensures { IfOk result (found.IsEvaluation (key_of point.now) false (Some (rest_of point.now))) }
{
    Ok(Evaluation::Present(point.clone()?))
}

/// The point with the values that are picked of those that there are once the items are worked out.
fn calculated<'a>(
    alloc: Global,
    items: &'a [CheckedItem],
    picks: &[u64],
    point: &Arc<Point>,
    matchers: &mut Matchers<'a>,
) -> Result<Evaluation, AllocError>
    ensures { IfOk result (found.IsEvaluation (key_of point.now) (is_none (meant.item_values (point_row (key_of point.now) (rest_of point.now)) items.now)) (option_map (λ vs. meant.values_at picks.now (meant.put_values items.now vs (key_of point.now ++ rest_of point.now))) (meant.item_values (point_row (key_of point.now) (rest_of point.now)) items.now))) }
{
    match with_items(alloc, items, point, matchers) {
        Ok(values) => made(
            alloc,
            &point.key,
            Items::from_vec(picked(alloc, picks, values.as_slice())?),
        ),
        Err(EvalStop::Range) => Ok(Evaluation::OutOfRange),
        Err(EvalStop::Memory) => Err(AllocError),
    }
}

/// The point with the values that are picked.
fn staying(alloc: Global, picks: &[u64], point: &Arc<Point>) -> Result<Evaluation, AllocError>
    ensures { IfOk result (found.IsEvaluation (key_of point.now) false (Some (meant.values_at picks.now (key_of point.now ++ rest_of point.now)))) }
{
    made(
        alloc,
        &point.key,
        Items::from_vec(picked_of(alloc, picks, point)?),
    )
}

/// The point with its measures worked out, and the values that are picked after them.
fn measured<'a>(
    alloc: Global,
    items: &'a [CheckedMeasure],
    picks: &[u64],
    point: &Arc<Point>,
    matchers: &mut Matchers<'a>,
) -> Result<Evaluation, AllocError>
    ensures { IfOk result (found.IsEvaluation (key_of point.now) (is_none (meant.worked_values (point_row (key_of point.now) (rest_of point.now)) items.now)) (option_map (λ vs. vs ++ meant.values_at picks.now (key_of point.now ++ rest_of point.now)) (meant.worked_values (point_row (key_of point.now) (rest_of point.now)) items.now))) }
{
    match measure_values(alloc, items, point, matchers) {
        Ok(mut values) => {
            values.append(Items::from_vec(picked_of(alloc, picks, point)?))?;
            made(alloc, &point.key, values)
        }
        Err(EvalStop::Range) => Ok(Evaluation::OutOfRange),
        Err(EvalStop::Memory) => Err(AllocError),
    }
}

/// A point with this key and these values.
fn made(alloc: Global, key: &Key, rest: Items<Value>) -> Result<Evaluation, AllocError>
    ensures { IfOk result (found.IsEvaluation key.now false (Some rest)) }
{
    let point = Point {
        key: key.copy()?,
        rest,
    };
    Ok(Evaluation::Present(Arc::new(alloc, point)?))
}
