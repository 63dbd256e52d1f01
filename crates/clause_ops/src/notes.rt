// What a change of the operand makes of the result.
ghost use Rattle.std.specs.Prelude.{◌≡◌, ◌≢◌, ℕ, true, List, if◌then◌else◌, IfOk, OnOk, AllPairs};
ghost use Rattle.std.specs.Option.{option_copied};
ghost use Rattle.std.specs.FinMap as finmap;
ghost use Rattle.vtl_values.specs.declared.kind.Role.TheVariants.{Measure, Viral};
ghost use Rattle.vtl_values.specs.declared.structure.Component.{Component as Column};
ghost use Rattle.vtl_values.specs.declared.value.Value.{Value as V};
ghost use Rattle.vtl_values.specs.Structures.{IsStructure};
ghost use Rattle.data_model.specs.Deltas.{apply, BeginsAt};
ghost use Rattle.data_model.specs.Drafts as drafts;
ghost use Rattle.point_sets.specs.DataSets.{DataSet, HasKey};
ghost use Rattle.point_sets.specs.Changes.{values_eq, values_of, IsChange};
ghost use Rattle.structured_sets.specs.Fitting.{IsSetOf};
ghost use Rattle.data_set_trees.specs.declared.clauses.clause.CheckedClause.TheVariants as clauses;
ghost use Rattle.data_set_trees.specs.declared.clauses.frame.Frame.{Frame};
ghost use Rattle.data_set_trees.specs.clauses.Frames.{frame_of, has_role, numbers_of};
ghost use Rattle.clause_meaning.specs.Clauses as meant;
ghost use Rattle.clause_eval.specs.Points.{keeps_keys, is_beyond_at, values_at_key, picks_of};
ghost use Rattle.clause_eval.specs.Evaluations as found;
ghost use Rattle.clause_eval.specs.Measures.{IsMeasureAt};
ghost use Rattle.clause_ops.specs.Noted.{noted_change, measure_value_at, IsNoted};

use clause_eval::{Evaluation, evaluate, has_values, key_left, key_with_name, measure_of, moved};
use data_set_trees::clauses::{CheckedClause, CheckedSubItem};
use held_index::Draft;
use point_sets::{Change, Delta, Key, Point};
use scalar_eval::Matchers;
use std::alloc::{AllocError, Global};
use std::sync::Arc;
use vtl_values::{Component, Role};

/// What is noted of the changes of the operand. The values that the clause takes over are picked, by number.
pub fn noted<'a>(
    alloc: Global,
    clause: &'a CheckedClause,
    components: &[Component],
    picks: &[u64],
    news: &Delta,
    matchers: &mut Matchers<'a>,
) -> Result<Draft, AllocError>
    requires structure { IsStructure components.now }
    requires picks { picks.now ≡ picks_of clause.now (frame_of components.now) }
    ensures { IfOk result (λ draft. (a : DataSet) → IsSetOf components.now a → IsSetOf components.now (apply news.now a) → BeginsAt news.now a → IsNoted clause.now (frame_of components.now) news.now a (finmap.keys news.now) draft) }
{
    let mut draft = Draft::new(alloc);
    for change in news.changes() {
        note_change(
            alloc, clause, components, picks, change, &mut draft, matchers,
        )?;
    }
    Ok(draft)
}

/// Notes what the result had and has at the keys at which the points of a change count, or that the clause is out of
/// range at its new point.
fn note_change<'a>(
    alloc: Global,
    clause: &'a CheckedClause,
    components: &[Component],
    picks: &[u64],
    change: &Change,
    draft: &mut Draft,
    matchers: &mut Matchers<'a>,
) -> Result<(), AllocError>
    requires change { IsChange change.now }
    requires structure { IsStructure components.now }
    requires picks { picks.now ≡ picks_of clause.now (frame_of components.now) }
    ensures { OnOk result (draft.new ≡ noted_change clause.now (frame_of components.now) change.now draft.old) }
{
    match clause {
        CheckedClause::Sub { items } => note_left(alloc, items.as_slice(), picks, change, draft),
        CheckedClause::Unpivot { .. } => note_measures(alloc, components, picks, change, draft),
        CheckedClause::Filter { .. }
        | CheckedClause::Calc { .. }
        | CheckedClause::Keep { .. }
        | CheckedClause::Drop { .. }
        | CheckedClause::Rename { .. }
        | CheckedClause::Measures { .. } => {
            note_in_place(alloc, clause, picks, change, draft, matchers)
        }
    }
}

/// Of a clause that leaves points their keys.
fn note_in_place<'a>(
    alloc: Global,
    clause: &'a CheckedClause,
    picks: &[u64],
    change: &Change,
    draft: &mut Draft,
    matchers: &mut Matchers<'a>,
) -> Result<(), AllocError>
    requires change { IsChange change.now }
    requires in_place { keeps_keys clause.now ≡ true }
    ensures { (frame : Frame) → picks.now ≡ picks_of clause.now frame → OnOk result (draft.new ≡ noted_change clause.now frame change.now draft.old) }
{
    let old = evaluate_at(alloc, clause, picks, change.old.as_ref(), matchers)?;
    let new = evaluate_at(alloc, clause, picks, change.new.as_ref(), matchers)?;
    note(&change.key, old, new, draft)
}

/// What a clause makes of the point that may be there.
fn evaluate_at<'a>(
    alloc: Global,
    clause: &'a CheckedClause,
    picks: &[u64],
    point: Option<&Arc<Point>>,
    matchers: &mut Matchers<'a>,
) -> Result<Evaluation, AllocError>
    requires { keeps_keys clause.now ≡ true }
    ensures key { (key : List V) → HasKey key (option_copied point.entry) → IfOk result (λ made. HasKey key (found.point_in made)) }
    ensures values { (frame : Frame) (key : List V) → picks.now ≡ picks_of clause.now frame → HasKey key (option_copied point.entry) →
        IfOk result (found.IsEvaluation key (is_beyond_at clause.now key (values_of (option_copied point.entry))) (values_at_key clause.now frame key (values_of (option_copied point.entry)) key)) }
{
    match point {
        Some(point) => evaluate(alloc, clause, picks, point, matchers),
        None => Ok(Evaluation::Absent),
    }
}

/// Notes what was made at a key, and what is.
fn note(key: &Key, old: Evaluation, new: Evaluation, draft: &mut Draft) -> Result<(), AllocError>
    requires old { HasKey key.now (found.point_in old) }
    requires new { HasKey key.now (found.point_in new) }
    ensures { OnOk result (draft.new ≡ (if found.is_beyond new then drafts.note_beyond key.now draft.old else drafts.note_value values_eq key.now (values_of (found.point_in old)) (values_of (found.point_in new)) draft.old)) }
{
    if new.is_out_of_range() {
        return draft.note_beyond(key);
    }
    draft.note(Change {
        key: key.copy()?,
        old: old.into_point(),
        new: new.into_point(),
    })
}

/// Of `sub`: where the identifiers that it names have its values, under the key without these.
fn note_left(
    alloc: Global,
    items: &[CheckedSubItem],
    picks: &[u64],
    change: &Change,
    draft: &mut Draft,
) -> Result<(), AllocError>
    ensures { (frame : Frame) → picks.now ≡ picks_of (clauses.Sub items.now) frame → OnOk result (draft.new ≡ noted_change (clauses.Sub items.now) frame change.now draft.old) }
{
    if !has_values(items, &change.key) {
        return Ok(());
    }
    let key = key_left(alloc, picks, &change.key)?;
    let old = moved_at(alloc, &key, change.old.as_ref())?;
    let new = moved_at(alloc, &key, change.new.as_ref())?;
    draft.note(Change { key, old, new })
}

/// The point that may be there, under another key.
fn moved_at(
    alloc: Global,
    key: &Key,
    point: Option<&Arc<Point>>,
) -> Result<Option<Arc<Point>>, AllocError>
    ensures key { IfOk result (HasKey key.now) }
    ensures values { IfOk result (λ moved. values_of moved ≡ values_of (option_copied point.entry)) }
{
    match point {
        Some(point) => Ok(Some(moved(alloc, key, point)?)),
        None => Ok(None),
    }
}

/// Of `unpivot`: each measure, under the key with its name.
fn note_measures(
    alloc: Global,
    components: &[Component],
    picks: &[u64],
    change: &Change,
    draft: &mut Draft,
) -> Result<(), AllocError>
    requires change { IsChange change.now }
    requires names { AllPairs (λ a b. a.name ≢ b.name) components.now }
    requires picks { picks.now ≡ numbers_of Viral components.now }
    ensures { (identifier measure : List ℕ) → OnOk result (draft.new ≡ noted_change (clauses.Unpivot identifier measure) (frame_of components.now) change.now draft.old) }
{
    for (i, component) in components.iter().enumerate() {
        if is_measure(component) {
            note_measure(alloc, picks, i as u64, component, change, draft)?;
        }
    }
    Ok(())
}

fn is_measure(component: &Component) -> bool
    ensures { result ≡ has_role Measure component.now }
{
    component.role == Role::Measure
}

fn note_measure(
    alloc: Global,
    picks: &[u64],
    number: u64,
    measure: &Component,
    change: &Change,
    draft: &mut Draft,
) -> Result<(), AllocError>
    requires { IsChange change.now }
    ensures { (frame : Frame) → IsMeasureAt frame number measure.now → picks.now ≡ numbers_of Viral frame.components →
        OnOk result (draft.new ≡ drafts.note_value values_eq (meant.key_with_name change.now.key measure.now) (measure_value_at frame measure.now change.now.key (values_of change.now.old)) (measure_value_at frame measure.now change.now.key (values_of change.now.new)) draft.old) }
{
    let key = key_with_name(alloc, &change.key, measure)?;
    let old = measure_at(alloc, picks, number, &key, change.old.as_ref())?;
    let new = measure_at(alloc, picks, number, &key, change.new.as_ref())?;
    draft.note(Change { key, old, new })
}

/// The measure's point of the point that may be there.
fn measure_at(
    alloc: Global,
    picks: &[u64],
    number: u64,
    key: &Key,
    point: Option<&Arc<Point>>,
) -> Result<Option<Arc<Point>>, AllocError>
    ensures key { IfOk result (HasKey key.now) }
    ensures values { (frame : Frame) (c : Column) (own : List V) → IsMeasureAt frame number c → picks.now ≡ numbers_of Viral frame.components → HasKey own (option_copied point.entry) →
        IfOk result (λ of_measure. values_of of_measure ≡ measure_value_at frame c own (values_of (option_copied point.entry))) }
{
    match point {
        Some(point) => measure_of(alloc, picks, number, key, point),
        None => Ok(None),
    }
}
