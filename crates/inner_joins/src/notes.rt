// What changes of the operands make of the result.
ghost use Rattle.std.specs.Prelude.{◌≡◌, ◌≢◌, ◌<◌, ◌+◌, ◌*◌, ◌≤◌, List, [], ◌∷◌, map, flat_map, length, Some, IfOk, OnOk, IfNone};
ghost use Rattle.std.specs.Arc.{arc_value};
ghost use Rattle.std.specs.Option.{option_copied, IfSome, IsSomeAnd};
ghost use Rattle.std.specs.FinMap as finmap;
ghost use Rattle.data_model.specs.Deltas as deltas;
ghost use Rattle.data_model.specs.Deltas.{apply};
ghost use Rattle.data_model.specs.Drafts.{nothing};
ghost use Rattle.point_sets.specs.Changes.{change_entry, values_of, Changes, IsChange};
ghost use Rattle.point_sets.specs.DataSets.{entry_of, DataSet};
ghost use Rattle.held_index.specs.Holdings.{IsPlain};
ghost use Rattle.held_index.specs.Rules.{after_news};
ghost use Rattle.join_eval.specs.Plans.{own_key};
ghost use Rattle.operator_meaning.specs.joins.Joins.{points_at};
ghost use Rattle.pair_ops.specs.Noted.{part_steps, walk_steps};
ghost use Rattle.inner_joins.specs.Noted.{all_keys, held_for, keys_met, keys_of, news_of, noted_key, AreBehind, Has, IsMet, IsOfChange, Notes};
ghost use Rattle.inner_joins.specs.Reach.{inner_reach, steps_for};
ghost use Rattle.inner_joins.specs.Rules as rules;
ghost use Rattle.inner_joins.specs.Rules.{key_from, main_number, wants_on};

use crate::plan::InnerPlan;
use data_model::steps::Steps;
use held_index::{Draft, Held};
use join_eval::JoinPlan;
use point_sets::{Change, Delta, Key, Point};
use sqlite_items::Items;
use std::alloc::{AllocError, Global};
use std::sync::Arc;
use std::sync::ledger::Ledger;

/// What an operand has at a key of the join, before its news and after them.
#[derive(Drop)]
struct Seen {
    before: Option<Arc<Point>>,
    after: Option<Arc<Point>>,
}

/// What the operand of a number has, not the main one, whose change comes to a key of the join.
#[derive(Drop)]
struct Partner {
    number: usize,
    seen: Seen,
}

/// A key of the join, and what is known there: what the main operand has, and another one, if a change of that comes to it.
#[derive(Drop)]
struct Meeting {
    key: Key,
    main: Seen,
    partner: Option<Partner>,
}

/// The point that may be there, shared.
fn shared(point: Option<&Arc<Point>>) -> Result<Option<Arc<Point>>, AllocError>
    ensures { IfOk result (λ shared. values_of shared ≡ values_of (option_copied point.entry)) }
{
    match point {
        Some(point) => Ok(Some(point.clone()?)),
        None => Ok(None),
    }
}

/// These points, shared.
fn shared_both(before: Option<&Arc<Point>>, after: Option<&Arc<Point>>) -> Result<Seen, AllocError>
    ensures before { IfOk result (λ seen. values_of seen.before ≡ values_of (option_copied before.entry)) }
    ensures after { IfOk result (λ seen. values_of seen.after ≡ values_of (option_copied after.entry)) }
{
    let before = shared(before)?;
    let after = shared(after)?;
    Ok(Seen { before, after })
}

/// What is known of the operand of this number.
fn known_of<'a>(plan: &InnerPlan, meeting: &'a Meeting, number: usize) -> Option<&'a Seen>
    ensures known { IfSome (option_copied result) (λ seen. (xs : List DataSet) (news : List Changes) → IsMet plan.now xs news meeting.now → Has plan.now xs news meeting.now.key number seen) }
    ensures other { IfNone (option_copied result) (number ≢ main_number plan.now) }
{
    if number == plan.main() {
        return Some(&meeting.main);
    }
    let Some(partner) = &meeting.partner else {
        return None;
    };
    if partner.number == number {
        Some(&partner.seen)
    } else {
        None
    }
}

/// The place of another operand than the main one among the others.
fn place_of(main: usize, number: usize) -> usize
    requires { number ≢ main }
    ensures { result ≡ rules.place_of main number }
{
    if number < main { number } else { number - 1 }
}

/// Looks the operand of this number up, once.
fn look<L: Ledger>(
    alloc: Global,
    join: &JoinPlan,
    number: usize,
    held: &Held,
    news: &Delta,
    key: &Key,
    steps: &mut Steps<L>,
) -> Result<Seen, AllocError>
    requires { number < length join.now.operands }
    ensures before { IfOk result (λ seen. IsPlain held.now.want → values_of seen.before ≡ finmap.get held.now.content (own_key join.now number key.now)) }
    ensures after { IfOk result (λ seen. IsPlain held.now.want → values_of seen.after ≡ finmap.get (apply news.now held.now.content) (own_key join.now number key.now)) }
    ensures steps { steps.new ≤ steps.old + 2 }
{
    let own = join.own_key(alloc, number, key)?;
    let at = Point {
        key: own,
        rest: Items::new(alloc),
    };
    let was = held.get(&at, steps);
    let comes = news.point_after(&at.key, was);
    shared_both(was, comes)
}

/// What the operand of this number has at a key of the join: what is known of it, or what a look finds.
fn seen_at<L: Ledger>(
    alloc: Global,
    plan: &InnerPlan,
    number: usize,
    meeting: &Meeting,
    held: &[Held],
    news: &[Arc<Delta>],
    steps: &mut Steps<L>,
) -> Result<Seen, AllocError>
    requires number { number < length plan.now.operands }
    requires held { map (λ h. h.want) held.now ≡ wants_on plan.now }
    requires news { length news.now ≡ length plan.now.operands }
    ensures has { IfOk result (λ seen. (xs : List DataSet) → AreBehind plan.now held.now (map arc_value news.now) xs → IsMet plan.now xs (map arc_value news.now) meeting.now → Has plan.now xs (map arc_value news.now) meeting.now.key number seen) }
    ensures steps { steps.new ≤ steps.old + 2 }
{
    if let Some(known) = known_of(plan, meeting, number) {
        return shared_both(known.before.as_ref(), known.after.as_ref());
    }
    let place = place_of(plan.main(), number);
    let (own, change) = (&held[place], &news[number]);
    look(alloc, plan.join(), number, own, change, &meeting.key, steps)
}

/// What all operands have at a key of the join, before the news and after them.
#[derive(Drop)]
struct Points {
    before: Vec<Option<Arc<Point>>>,
    after: Vec<Option<Arc<Point>>>,
}

/// Looks each operand up of which nothing is known, once.
fn look_all<L: Ledger>(
    alloc: Global,
    plan: &InnerPlan,
    meeting: &Meeting,
    held: &[Held],
    news: &[Arc<Delta>],
    steps: &mut Steps<L>,
) -> Result<Points, AllocError>
    requires held { map (λ h. h.want) held.now ≡ wants_on plan.now }
    requires news { length news.now ≡ length plan.now.operands }
    ensures before { IfOk result (λ points. (xs : List DataSet) → AreBehind plan.now held.now (map arc_value news.now) xs → IsMet plan.now xs (map arc_value news.now) meeting.now → map values_of points.before.items ≡ points_at plan.now xs meeting.now.key) }
    ensures after { IfOk result (λ points. (xs : List DataSet) → AreBehind plan.now held.now (map arc_value news.now) xs → IsMet plan.now xs (map arc_value news.now) meeting.now → map values_of points.after.items ≡ points_at plan.now (after_news (map arc_value news.now) xs) meeting.now.key) }
    ensures before_len { IfOk result (λ points. length points.before.items ≡ length plan.now.operands) }
    ensures after_len { IfOk result (λ points. length points.after.items ≡ length plan.now.operands) }
    ensures steps { steps.new ≤ steps.old + 2 * length plan.now.operands }
{
    let mut before = Vec::new(alloc);
    let mut after = Vec::new(alloc);
    for number in 0..news.len() {
        let seen = seen_at(alloc, plan, number, meeting, held, news, steps)?;
        before.push(seen.before)?;
        after.push(seen.after)?;
    }
    Ok(Points { before, after })
}

/// Notes what the result had and has at a key.
fn note_meeting<L: Ledger>(
    alloc: Global,
    plan: &InnerPlan,
    meeting: &Meeting,
    held: &[Held],
    news: &[Arc<Delta>],
    draft: &mut Draft,
    steps: &mut Steps<L>,
) -> Result<(), AllocError>
    requires held { map (λ h. h.want) held.now ≡ wants_on plan.now }
    requires news { length news.now ≡ length plan.now.operands }
    ensures noted { OnOk result ((xs : List DataSet) → AreBehind plan.now held.now (map arc_value news.now) xs → IsMet plan.now xs (map arc_value news.now) meeting.now → draft.new ≡ noted_key plan.now xs (map arc_value news.now) draft.old meeting.now.key) }
    ensures steps { steps.new ≤ steps.old + 2 * length plan.now.operands }
{
    let points = look_all(alloc, plan, meeting, held, news, steps)?;
    let join = plan.join();
    let old = join.joined(alloc, &meeting.key, &points.before)?;
    let new = join.joined(alloc, &meeting.key, &points.after)?;
    let key = meeting.key.copy()?;
    draft.note(Change { key, old, new })
}

/// Notes what a change of the main operand makes of the result. It takes a look at each other operand.
fn note_main_change<L: Ledger>(
    alloc: Global,
    plan: &InnerPlan,
    change: &Change,
    held: &[Held],
    news: &[Arc<Delta>],
    draft: &mut Draft,
    steps: &mut Steps<L>,
) -> Result<(), AllocError>
    requires change { IsChange change.now }
    requires its { finmap.get (news_of (main_number plan.now) (map arc_value news.now)) change.now.key ≡ Some (change_entry change.now).1 }
    requires held { map (λ h. h.want) held.now ≡ wants_on plan.now }
    requires news { length news.now ≡ length plan.now.operands }
    ensures noted { OnOk result (Notes plan.now held.now (map arc_value news.now) (key_from plan.now change.now.key ∷ []) draft.old draft.new) }
    ensures steps { steps.new ≤ steps.old + 2 * length plan.now.operands }
{
    let key = plan.key_from(alloc, &change.key)?;
    let main = shared_both(change.old.as_ref(), change.new.as_ref())?;
    let meeting = Meeting {
        key,
        main,
        partner: None,
    };
    note_meeting(alloc, plan, &meeting, held, news, draft, steps)
}

/// Notes what the changes of the main operand make of the result.
fn note_main<L: Ledger>(
    alloc: Global,
    plan: &InnerPlan,
    held: &[Held],
    news: &[Arc<Delta>],
    draft: &mut Draft,
    steps: &mut Steps<L>,
) -> Result<(), AllocError>
    requires held { map (λ h. h.want) held.now ≡ wants_on plan.now }
    requires news { length news.now ≡ length plan.now.operands }
    ensures noted { OnOk result (Notes plan.now held.now (map arc_value news.now) (map (key_from plan.now) (finmap.keys (news_of (main_number plan.now) (map arc_value news.now)))) draft.old draft.new) }
    ensures steps { steps.new ≤ steps.old + 2 * length plan.now.operands * finmap.len (news_of (main_number plan.now) (map arc_value news.now)) }
{
    let main = plan.main();
    for change in news[main].changes() {
        note_main_change(alloc, plan, change, held, news, draft, steps)?;
    }
    Ok(())
}

/// Where a point of the main operand meets a change of another one: the point as it is and after its news.
fn meeting_of(
    alloc: Global,
    plan: &InnerPlan,
    point: &Arc<Point>,
    main_news: &Delta,
    number: usize,
    change: &Change,
) -> Result<Meeting, AllocError>
    ensures key { IfOk result (λ m. m.key ≡ key_from plan.now (entry_of point.now).0) }
    ensures before { IfOk result (λ m. values_of m.main.before ≡ Some (entry_of point.now).1) }
    ensures after { IfOk result (λ m. values_of m.main.after ≡ deltas.after (finmap.get main_news.now (entry_of point.now).0) (Some (entry_of point.now).1)) }
    ensures partner { IfOk result (λ m. IsSomeAnd m.partner (IsOfChange number (change_entry change.now).1)) }
{
    let comes = main_news.point_after(&point.key, Some(point));
    let key = plan.key_from(alloc, &point.key)?;
    let main = shared_both(Some(point), comes)?;
    let seen = shared_both(change.old.as_ref(), change.new.as_ref())?;
    let partner = Some(Partner { number, seen });
    Ok(Meeting { key, main, partner })
}

/// What is held of the main operand for the changes of another one.
fn parts_for<'a>(plan: &InnerPlan, number: usize, held: &'a [Held]) -> &'a Held
    requires number { number < length plan.now.operands }
    requires other { number ≢ main_number plan.now }
    requires held { map (λ h. h.want) held.now ≡ wants_on plan.now }
    ensures { result.now ≡ held_for plan.now held.now number }
{
    let place = place_of(plan.main(), number);
    let at = plan.others() + place;
    &held[at]
}

/// Notes what a change of another operand makes of the result. It takes a look to count the points of the main operand
/// that it meets, and for each of them one more and one at each further operand.
fn note_partner_change<L: Ledger>(
    alloc: Global,
    plan: &InnerPlan,
    number: usize,
    change: &Change,
    held: &[Held],
    news: &[Arc<Delta>],
    draft: &mut Draft,
    steps: &mut Steps<L>,
) -> Result<(), AllocError>
    requires number { number < length plan.now.operands }
    requires other { number ≢ main_number plan.now }
    requires its { finmap.get (news_of number (map arc_value news.now)) change.now.key ≡ Some (change_entry change.now).1 }
    requires held { map (λ h. h.want) held.now ≡ wants_on plan.now }
    requires news { length news.now ≡ length plan.now.operands }
    ensures noted { OnOk result (Notes plan.now held.now (map arc_value news.now) (keys_met plan.now held.now number change.now.key) draft.old draft.new) }
    ensures steps { steps.new ≤ steps.old + (length plan.now.operands + 1) * part_steps (held_for plan.now held.now number) change.now.key }
{
    let main = plan.main();
    let parts = parts_for(plan, number, held);
    let count = parts.count_in(&change.key, steps);
    for n in 0..count {
        let Some(point) = parts.nth_in(&change.key, n, steps) else {
            unreachable!()
        };
        let meeting = meeting_of(alloc, plan, point, &news[main], number, change)?;
        note_meeting(alloc, plan, &meeting, held, news, draft, steps)?;
    }
    Ok(())
}

/// Notes what the changes of another operand make of the result.
fn note_partner<L: Ledger>(
    alloc: Global,
    plan: &InnerPlan,
    number: usize,
    held: &[Held],
    news: &[Arc<Delta>],
    draft: &mut Draft,
    steps: &mut Steps<L>,
) -> Result<(), AllocError>
    requires number { number < length plan.now.operands }
    requires other { number ≢ main_number plan.now }
    requires held { map (λ h. h.want) held.now ≡ wants_on plan.now }
    requires news { length news.now ≡ length plan.now.operands }
    ensures noted { OnOk result (Notes plan.now held.now (map arc_value news.now) (flat_map (keys_met plan.now held.now number) (finmap.keys (news_of number (map arc_value news.now)))) draft.old draft.new) }
    ensures steps { steps.new ≤ steps.old + (length plan.now.operands + 1) * walk_steps (held_for plan.now held.now number) (finmap.keys (news_of number (map arc_value news.now))) }
{
    for change in news[number].changes() {
        note_partner_change(alloc, plan, number, change, held, news, draft, steps)?;
    }
    Ok(())
}

/// Notes what the changes of the operand of this number make of the result.
fn note_changes<L: Ledger>(
    alloc: Global,
    plan: &InnerPlan,
    number: usize,
    held: &[Held],
    news: &[Arc<Delta>],
    draft: &mut Draft,
    steps: &mut Steps<L>,
) -> Result<(), AllocError>
    requires number { number < length plan.now.operands }
    requires held { map (λ h. h.want) held.now ≡ wants_on plan.now }
    requires news { length news.now ≡ length plan.now.operands }
    ensures noted { OnOk result (Notes plan.now held.now (map arc_value news.now) (keys_of plan.now held.now (map arc_value news.now) number) draft.old draft.new) }
    ensures steps { steps.new ≤ steps.old + steps_for plan.now held.now (map arc_value news.now) number }
{
    if number == plan.main() {
        note_main(alloc, plan, held, news, draft, steps)
    } else {
        note_partner(alloc, plan, number, held, news, draft, steps)
    }
}

/// What is noted of the changes of all operands.
pub fn noted<L: Ledger>(
    alloc: Global,
    plan: &InnerPlan,
    held: &[Held],
    news: &[Arc<Delta>],
    steps: &mut Steps<L>,
) -> Result<Draft, AllocError>
    requires held { map (λ h. h.want) held.now ≡ wants_on plan.now }
    requires news { length news.now ≡ length plan.now.operands }
    ensures noted { IfOk result (Notes plan.now held.now (map arc_value news.now) (all_keys plan.now held.now (map arc_value news.now)) nothing) }
    ensures steps { steps.new ≤ steps.old + inner_reach plan.now held.now (map arc_value news.now) }
{
    let mut draft = Draft::new(alloc);
    for number in 0..news.len() {
        note_changes(alloc, plan, number, held, news, &mut draft, steps)?;
    }
    Ok(draft)
}
