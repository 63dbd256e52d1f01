// What changes of the operands make of the result.
ghost use Rattle.std.specs.Prelude.{◌≡◌, ◌+◌, ◌*◌, ◌≤◌, IfOk, OnOk, fold, if◌then◌else◌};
ghost use Rattle.std.specs.Option.{option_copied};
ghost use Rattle.std.specs.FinMap as finmap;
ghost use Rattle.data_model.specs.Deltas.{Differs};
ghost use Rattle.data_model.specs.Drafts as drafts;
ghost use Rattle.point_sets.specs.DataSets.{entry_of, key_of, HasKey};
ghost use Rattle.point_sets.specs.Changes.{change_entry, values_eq, values_of, IsChange};
ghost use Rattle.held_index.specs.Holdings.{IsPlain};
ghost use Rattle.clause_eval.specs.Evaluations as found;
ghost use Rattle.clause_eval.specs.Evaluations.{IsEvaluation};
ghost use Rattle.operator_meaning.specs.pairs.Pairs as meant;
ghost use Rattle.pair_eval.specs.Made.{all_values, is_beyond, value_of};
ghost use Rattle.pair_ops.specs.Noted.{in_turn, noted_main, noted_met, noted_partner, noted_point, part_steps, walk_steps};

use clause_eval::Evaluation;
use data_model::steps::Steps;
use held_index::{Draft, Held};
use pair_eval::{PairPlan, Side};
use point_sets::{Change, Delta, Key, Point};
use scalar_eval::Matchers;
use sqlite_items::Items;
use std::alloc::{AllocError, Global};
use std::sync::Arc;
use std::sync::ledger::Ledger;

/// The point that may be at a key, before the news and after them.
#[derive(Clone, Copy)]
struct Turn<'a> {
    old: Option<&'a Arc<Point>>,
    new: Option<&'a Arc<Point>>,
}

/// Notes what the changes of the main operand make of the result; the other operand is held whole, and has news too.
/// Each change takes one look.
pub fn note_main<'a, L: Ledger>(
    alloc: Global,
    plan: &'a PairPlan,
    news: &Delta,
    partner: &Held,
    partner_news: &Delta,
    draft: &mut Draft,
    matchers: &mut Matchers<'a>,
    steps: &mut Steps<L>,
) -> Result<(), AllocError>
    requires { IsPlain partner.now.want }
    ensures noted { OnOk result (draft.new ≡ fold (noted_main plan.now partner.now.content partner_news.now) draft.old (finmap.entries news.now)) }
    ensures differs { Differs news.now }
    ensures steps { steps.new ≤ steps.old + 2 * finmap.len news.now }
{
    for change in news.changes() {
        note_main_change(
            alloc,
            plan,
            change,
            partner,
            partner_news,
            draft,
            matchers,
            steps,
        )?;
    }
    Ok(())
}

fn note_main_change<'a, L: Ledger>(
    alloc: Global,
    plan: &'a PairPlan,
    change: &Change,
    partner: &Held,
    partner_news: &Delta,
    draft: &mut Draft,
    matchers: &mut Matchers<'a>,
    steps: &mut Steps<L>,
) -> Result<(), AllocError>
    requires change { IsChange change.now }
    requires plain { IsPlain partner.now.want }
    ensures noted { OnOk result (draft.new ≡ noted_main plan.now partner.now.content partner_news.now draft.old (change_entry change.now)) }
    ensures steps { steps.new ≤ steps.old + 2 }
{
    let at = place_at(alloc, plan.partner_key(alloc, &change.key)?);
    let before = partner.get(&at, steps);
    let after = partner_news.point_after(&at.key, before);
    let partner = Turn {
        old: before,
        new: after,
    };
    note_met(
        alloc,
        plan,
        &change.key,
        turn_of(change),
        partner,
        draft,
        matchers,
    )
}

/// A place to look a key up.
fn place_at(alloc: Global, key: Key) -> Point
    ensures { result.key ≡ key }
{
    Point {
        key,
        rest: Items::from_vec(Vec::new(alloc)),
    }
}

/// Notes what the changes of the other operand make of the result; the main operand is held in parts, and has news too.
/// Each change takes a look for each point that it meets, and one to count them.
pub fn note_partner<'a, L: Ledger>(
    alloc: Global,
    plan: &'a PairPlan,
    news: &Delta,
    main: &Held,
    main_news: &Delta,
    draft: &mut Draft,
    matchers: &mut Matchers<'a>,
    steps: &mut Steps<L>,
) -> Result<(), AllocError>
    ensures noted { OnOk result (draft.new ≡ fold (noted_partner plan.now main.now main_news.now) draft.old (finmap.entries news.now)) }
    ensures steps { steps.new ≤ steps.old + walk_steps main.now (finmap.keys news.now) }
{
    for change in news.changes() {
        note_partner_change(alloc, plan, change, main, main_news, draft, matchers, steps)?;
    }
    Ok(())
}

fn note_partner_change<'a, L: Ledger>(
    alloc: Global,
    plan: &'a PairPlan,
    change: &Change,
    main: &Held,
    main_news: &Delta,
    draft: &mut Draft,
    matchers: &mut Matchers<'a>,
    steps: &mut Steps<L>,
) -> Result<(), AllocError>
    requires { IsChange change.now }
    ensures noted { OnOk result (draft.new ≡ noted_partner plan.now main.now main_news.now draft.old (change_entry change.now)) }
    ensures steps { steps.new ≤ steps.old + part_steps main.now change.now.key }
{
    let count = main.count_in(&change.key, steps);
    for n in 0..count {
        let Some(point) = main.nth_in(&change.key, n, steps) else {
            unreachable!()
        };
        note_point(alloc, plan, change, point, main_news, draft, matchers)?;
    }
    Ok(())
}

/// Notes what a change of the other operand makes of a point of the main one.
fn note_point<'a>(
    alloc: Global,
    plan: &'a PairPlan,
    change: &Change,
    point: &Arc<Point>,
    main_news: &Delta,
    draft: &mut Draft,
    matchers: &mut Matchers<'a>,
) -> Result<(), AllocError>
    requires { IsChange change.now }
    ensures { OnOk result (draft.new ≡ noted_point plan.now main_news.now (change_entry change.now) draft.old (entry_of point.now)) }
{
    let after = main_news.point_after(&point.key, Some(point));
    let main = Turn {
        old: Some(point),
        new: after,
    };
    note_met(
        alloc,
        plan,
        &point.key,
        main,
        turn_of(change),
        draft,
        matchers,
    )
}

/// The points of a change.
fn turn_of(change: &Change) -> Turn<'_>
    ensures old { option_copied result.old ≡ change.now.old }
    ensures new { option_copied result.new ≡ change.now.new }
{
    Turn {
        old: change.old.as_ref(),
        new: change.new.as_ref(),
    }
}

/// Notes what was made of the points at a key of the main operand, and what is.
fn note_met<'a>(
    alloc: Global,
    plan: &'a PairPlan,
    key: &Key,
    main: Turn<'_>,
    partner: Turn<'_>,
    draft: &mut Draft,
    matchers: &mut Matchers<'a>,
) -> Result<(), AllocError>
    ensures { OnOk result (draft.new ≡ noted_met plan.now (meant.result_key plan.now key.now) (in_turn plan.now (all_values (option_copied main.entry.old)) (all_values (option_copied partner.entry.old))) (in_turn plan.now (all_values (option_copied main.entry.new)) (all_values (option_copied partner.entry.new))) draft.old) }
{
    let key = plan.result_key(alloc, key)?;
    let old = evaluate(alloc, plan, &key, main.old, partner.old, matchers)?;
    let new = evaluate(alloc, plan, &key, main.new, partner.new, matchers)?;
    note(&key, old, new, draft)
}

/// What is made, at a key of the result, of a point of the main operand and one of the other.
fn evaluate<'a>(
    alloc: Global,
    plan: &'a PairPlan,
    key: &Key,
    main: Option<&Arc<Point>>,
    partner: Option<&Arc<Point>>,
    matchers: &mut Matchers<'a>,
) -> Result<Evaluation, AllocError>
    ensures { IfOk result (IsEvaluation key.now (is_beyond plan.now (in_turn plan.now (all_values (option_copied main.entry)) (all_values (option_copied partner.entry)))) (value_of plan.now (in_turn plan.now (all_values (option_copied main.entry)) (all_values (option_copied partner.entry))))) }
{
    match plan.main() {
        Side::Left => plan.evaluate(alloc, key, main, partner, matchers),
        Side::Right => plan.evaluate(alloc, key, partner, main, matchers),
    }
}

/// Notes what was made at a key, and what is.
fn note(key: &Key, old: Evaluation, new: Evaluation, draft: &mut Draft) -> Result<(), AllocError>
    requires old { HasKey key.now (found.point_in old) }
    requires new { HasKey key.now (found.point_in new) }
    ensures { OnOk result (draft.new ≡ drafts.note_key values_eq key.now (found.is_beyond new) (values_of (found.point_in old)) (values_of (found.point_in new)) draft.old) }
{
    if new.is_out_of_range() {
        return draft.note_beyond(key);
    }
    draft.note(Change {
        key: key.copy()?,
        old: old.into_point(),
        new: new.into_point(),
    })
}
