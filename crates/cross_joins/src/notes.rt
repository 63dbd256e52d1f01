// What changes of the operands make of the result.
ghost use Rattle.std.specs.Prelude.{◌≡◌, ◌+◌, ◌≤◌, ◌++◌, All, flat_map, fold, length, map, IfOk, IfSome, OnOk};
ghost use Rattle.std.specs.Arc.{arc_value};
ghost use Rattle.std.specs.List.{sum_by};
ghost use Rattle.data_model.specs.Drafts.{finished, nothing};
ghost use Rattle.data_model.specs.declared.TheConstants.{POINT_LIMIT};
ghost use Rattle.point_sets.specs.Changes.{values_of};
ghost use Rattle.held_index.specs.Rules.{answer_of};
ghost use Rattle.cross_joins.specs.Combinations.{changed_combinations, first_changed_at};
ghost use Rattle.cross_joins.specs.Noted.{noted_combination, all_combinations};
ghost use Rattle.cross_joins.specs.Reach.{walk_steps};
ghost use Rattle.cross_joins.specs.Rows.{rows_in, lists_in};

use crate::combinations::{choices, combinations, is_any_without_choice};
use crate::rows::{Row, Side, all_rows, shared};
use data_model::steps::Steps;
use held_index::{Draft, Held, Stop};
use join_eval::JoinPlan;
use point_sets::{Change, Delta, Key, Point};
use sqlite_items::Items;
use std::alloc::{AllocError, Global};
use std::sync::Arc;
use std::sync::ledger::Ledger;
use vtl_values::Value;

/// The key of a combination, and what the operands have there before their news and after them.
#[derive(Drop)]
struct Points {
    key: Key,
    before: Vec<Option<Arc<Point>>>,
    after: Vec<Option<Arc<Point>>>,
}

/// Puts copies of these values last.
fn push_values(values: &mut Vec<Value>, more: &[Value]) -> Result<(), AllocError>
    ensures { OnOk result (values.new.items ≡ values.old.items ++ more.now) }
{
    for value in more {
        values.push(value.copy()?)?;
    }
    Ok(())
}

/// The key and the points of a combination.
fn points_of(alloc: Global, combination: &[Arc<Row>]) -> Result<Points, AllocError>
    ensures key { IfOk result (λ points. points.key ≡ flat_map (λ r. r.key) (rows_in combination.now)) }
    ensures before { IfOk result (λ points. map values_of points.before.items ≡ map (λ r. r.before) (rows_in combination.now)) }
    ensures after { IfOk result (λ points. map values_of points.after.items ≡ map (λ r. r.after) (rows_in combination.now)) }
{
    let mut values = Vec::new(alloc);
    let mut before = Vec::new(alloc);
    let mut after = Vec::new(alloc);
    for row in combination {
        push_values(&mut values, row.key.values())?;
        before.push(shared(&row.before)?)?;
        after.push(shared(&row.after)?)?;
    }
    let key = Key::of(alloc, values)?;
    Ok(Points { key, before, after })
}

/// Notes what the result had and has at the key of a combination.
fn note_combination(
    alloc: Global,
    plan: &JoinPlan,
    combination: &[Arc<Row>],
    draft: &mut Draft,
) -> Result<(), AllocError>
    requires { length combination.now ≡ length plan.now.operands }
    ensures { OnOk result (draft.new ≡ noted_combination plan.now draft.old (rows_in combination.now)) }
{
    let points = points_of(alloc, combination)?;
    let old = plan.joined(alloc, &points.key, &points.before)?;
    let new = plan.joined(alloc, &points.key, &points.after)?;
    let key = points.key.copy()?;
    draft.note(Change { key, old, new })
}

/// Notes what the result had and has at the keys of these combinations.
fn note_all(
    alloc: Global,
    plan: &JoinPlan,
    combinations: &[Items<Arc<Row>>],
    draft: &mut Draft,
) -> Result<(), AllocError>
    requires { All (λ c. length c ≡ length plan.now.operands) (lists_in combinations.now) }
    ensures { OnOk result (draft.new ≡ fold (noted_combination plan.now) draft.old (lists_in combinations.now)) }
{
    for combination in combinations {
        note_combination(alloc, plan, combination.as_slice(), draft)?;
    }
    Ok(())
}

/// Notes the combinations of points of a side in which the first changed row is from this operand.
fn note_first_changed(
    alloc: Global,
    plan: &JoinPlan,
    rows: &[Items<Arc<Row>>],
    side: Side,
    first: usize,
    draft: &mut Draft,
) -> Result<(), AllocError>
    requires { length rows.now ≡ length plan.now.operands }
    ensures { OnOk result (draft.new ≡ fold (noted_combination plan.now) draft.old (first_changed_at side (lists_in rows.now) first)) }
{
    if is_any_without_choice(rows, side, first) {
        return Ok(());
    }
    let lists = choices(alloc, rows, side, first)?;
    let all = combinations(alloc, lists.as_slice())?;
    note_all(alloc, plan, all.as_slice(), draft)
}

/// Notes the combinations of points of a side in which a row is changed, each once.
fn note_side(
    alloc: Global,
    plan: &JoinPlan,
    rows: &[Items<Arc<Row>>],
    side: Side,
    draft: &mut Draft,
) -> Result<(), AllocError>
    requires { length rows.now ≡ length plan.now.operands }
    ensures { OnOk result (draft.new ≡ fold (noted_combination plan.now) draft.old (changed_combinations side (lists_in rows.now))) }
{
    for first in 0..rows.len() {
        note_first_changed(alloc, plan, rows, side, first, draft)?;
    }
    Ok(())
}

/// What is noted of the changes of all operands: what becomes of the points that there were, and which there are now.
pub fn noted<L: Ledger>(
    alloc: Global,
    plan: &JoinPlan,
    held: &[Held],
    news: &[Arc<Delta>],
    steps: &mut Steps<L>,
) -> Result<Draft, AllocError>
    requires held { length held.now ≡ length plan.now.operands }
    requires news { length news.now ≡ length plan.now.operands }
    ensures noted { IfOk result (λ draft. draft ≡ fold (noted_combination plan.now) nothing (all_combinations held.now (map arc_value news.now))) }
    ensures steps { steps.new ≤ steps.old + sum_by walk_steps held.now }
{
    let rows = all_rows(alloc, held, news, steps)?;
    let mut draft = Draft::new(alloc);
    note_side(alloc, plan, rows.as_slice(), Side::Before, &mut draft)?;
    note_side(alloc, plan, rows.as_slice(), Side::After, &mut draft)?;
    Ok(draft)
}

/// The answer where nothing is noted: nothing changes.
pub fn no_change(alloc: Global, before: u64) -> Result<Delta, Stop>
    requires { before ≤ POINT_LIMIT }
    ensures { IfSome (answer_of result) (λ answer. answer ≡ finished before nothing) }
{
    Draft::new(alloc).finish(alloc, before)
}
