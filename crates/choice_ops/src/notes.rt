// What changes of the operands make of the result.
ghost use Rattle.std.specs.Prelude.{◌≡◌, ◌+◌, ◌*◌, ◌<◌, ◌≤◌, ◌++◌, List, if◌then◌else◌, length, map, IfOk, OnOk};
ghost use Rattle.std.specs.Arc.{arc_value};
ghost use Rattle.std.specs.Option.{option_copied};
ghost use Rattle.std.specs.FinMap as finmap;
ghost use Rattle.vtl_values.specs.declared.value.Value.{Value};
ghost use Rattle.data_model.specs.Drafts as drafts;
ghost use Rattle.point_sets.specs.DataSets.{DataSet, HasKey};
ghost use Rattle.point_sets.specs.Changes.{values_eq, values_of};
ghost use Rattle.held_index.specs.Reach.{changes_in};
ghost use Rattle.held_index.specs.Holdings.{AllPlain, contents};
ghost use Rattle.clause_eval.specs.Evaluations as found;
ghost use Rattle.operator_meaning.specs.choices.Choices.{set_at, chosen_number, condition_key, operand_key, choice_working};
ghost use Rattle.choice_ops.specs.Plans.{choice_in};
ghost use Rattle.choice_ops.specs.Noted.{Sees, change_at, noted_at, keys_from, IsNoted};

use crate::looks::{after_news, look};
use crate::plan::ChoicePlan;
use clause_eval::Evaluation;
use data_model::steps::Steps;
use held_index::{Draft, Held};
use point_sets::{Change, Delta, Key, Point};
use scalar_eval::Matchers;
use sqlite_items::Items;
use std::alloc::{AllocError, Global};
use std::sync::Arc;
use std::sync::ledger::Ledger;

/// What is noted of the news of all operands.
pub(crate) fn noted<'a, L: Ledger>(
    alloc: Global,
    plan: &'a ChoicePlan,
    held: &[Held],
    news: &[Arc<Delta>],
    matchers: &mut Matchers<'a>,
    steps: &mut Steps<L>,
) -> Result<Draft, AllocError>
    requires { length news.now ≡ length plan.now.operands }
    ensures noted { IfOk result (λ draft. (sets : List DataSet) → AllPlain held.now → Sees held.now (map arc_value news.now) sets → IsNoted (choice_in plan.now) (contents held.now) sets (keys_from (choice_in plan.now) 0 (map arc_value news.now)) draft) }
    ensures steps { steps.new ≤ steps.old + 6 * changes_in (map arc_value news.now) }
{
    let mut draft = Draft::new(alloc);
    for (number, own) in news.iter().enumerate() {
        note_changes(
            alloc, plan, number, own, held, news, &mut draft, matchers, steps,
        )?;
    }
    Ok(draft)
}

/// Notes what the changes of the operand with this number make of the result.
fn note_changes<'a, L: Ledger>(
    alloc: Global,
    plan: &'a ChoicePlan,
    number: usize,
    own: &Delta,
    held: &[Held],
    news: &[Arc<Delta>],
    draft: &mut Draft,
    matchers: &mut Matchers<'a>,
    steps: &mut Steps<L>,
) -> Result<(), AllocError>
    requires { number < length plan.now.operands }
    ensures noted { OnOk result ((sets : List DataSet) → AllPlain held.now → Sees held.now (map arc_value news.now) sets → (ks : List (List Value)) → IsNoted (choice_in plan.now) (contents held.now) sets ks draft.old →
        IsNoted (choice_in plan.now) (contents held.now) sets (ks ++ map (condition_key (choice_in plan.now) number) (finmap.keys own.now)) draft.new) }
    ensures steps { steps.new ≤ steps.old + 6 * finmap.len own.now }
{
    for change in own.changes() {
        note_change(
            alloc,
            plan,
            number,
            &change.key,
            held,
            news,
            draft,
            matchers,
            steps,
        )?;
    }
    Ok(())
}

/// Notes what the result had and has where a key of the operand with this number counts.
fn note_change<'a, L: Ledger>(
    alloc: Global,
    plan: &'a ChoicePlan,
    number: usize,
    key: &Key,
    held: &[Held],
    news: &[Arc<Delta>],
    draft: &mut Draft,
    matchers: &mut Matchers<'a>,
    steps: &mut Steps<L>,
) -> Result<(), AllocError>
    requires { number < length plan.now.operands }
    ensures noted { OnOk result ((sets : List DataSet) → AllPlain held.now → Sees held.now (map arc_value news.now) sets →
        draft.new ≡ noted_at (choice_in plan.now) (contents held.now) sets (condition_key (choice_in plan.now) number key.now) draft.old) }
    ensures steps { steps.new ≤ steps.old + 6 }
{
    let at = Point {
        key: plan.condition_key(alloc, number, key)?,
        rest: Items::new(alloc),
    };
    let before = look(held, 0, &at, steps);
    let after = after_news(news, 0, &at.key, before);
    let old = made(alloc, plan, &at.key, before, held, &[], matchers, steps)?;
    let new = made(alloc, plan, &at.key, after, held, news, matchers, steps)?;
    note(&at.key, old, new, draft)
}

/// What the conditional makes at a key, where this is the condition's point, of what is held and its news.
fn made<'a, L: Ledger>(
    alloc: Global,
    plan: &'a ChoicePlan,
    key: &Key,
    own: Option<&Arc<Point>>,
    held: &[Held],
    news: &[Arc<Delta>],
    matchers: &mut Matchers<'a>,
    steps: &mut Steps<L>,
) -> Result<Evaluation, AllocError>
    ensures made { IfOk result (λ made. (sets : List DataSet) → AllPlain held.now → Sees held.now (map arc_value news.now) sets →
        finmap.get (set_at sets 0) key.now ≡ values_of (option_copied own.entry) → HasKey key.now (option_copied own.entry) →
        found.IsEvaluation key.now ((choice_working (choice_in plan.now) sets).beyond key.now) ((choice_working (choice_in plan.now) sets).value key.now) made) }
    ensures key { IfOk result (λ made. HasKey key.now (found.point_in made)) }
    ensures steps { steps.new ≤ steps.old + 2 }
{
    let Some(own) = own else {
        return Ok(Evaluation::Absent);
    };
    let truth = plan.is_true_in(own);
    let Some(number) = plan.chosen_number(truth) else {
        return plan.evaluate(alloc, key, truth, own, None, matchers);
    };
    let at = Point {
        key: plan.operand_key(alloc, number, key)?,
        rest: Items::new(alloc),
    };
    match after_news(news, number, &at.key, look(held, number, &at, steps)) {
        Some(point) => plan.evaluate(alloc, key, truth, own, Some(point), matchers),
        None => Ok(Evaluation::Absent),
    }
}

/// Notes what was made at a key, and what is.
fn note(key: &Key, old: Evaluation, new: Evaluation, draft: &mut Draft) -> Result<(), AllocError>
    requires old { HasKey key.now (found.point_in old) }
    requires new { HasKey key.now (found.point_in new) }
    ensures { OnOk result (draft.new ≡ drafts.note_key values_eq key.now (found.is_beyond new) (values_of (found.point_in old)) (values_of (found.point_in new)) draft.old) }
{
    if new.is_out_of_range() {
        return draft.note_beyond(key);
    }
    draft.note(Change {
        key: key.copy()?,
        old: old.into_point(),
        new: new.into_point(),
    })
}
